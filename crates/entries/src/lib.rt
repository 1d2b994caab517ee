// No code: the list as a sequence of entries, whole and from a pattern on, defined in specs/, and what a pattern's step makes of it, in proofs/.
#![tactic(auto)]
