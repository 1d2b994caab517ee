// No code: the pages of a list joined to its lines (document 02), defined in specs/, and that they are what the key program writes, in proofs/.
#![tactic(auto)]
