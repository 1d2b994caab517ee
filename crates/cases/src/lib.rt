// No code: the proved cases of document 01, in one table in specs/, and that they hold, in proofs/.
#![tactic(auto)]
