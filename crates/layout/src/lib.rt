// No code: the list on pages (document 02), defined in specs/, and what follows from it, in proofs/.
#![tactic(auto)]
