// No code: the terms of document 01, defined in specs/, and what follows from them, in proofs/.
#![tactic(auto)]
