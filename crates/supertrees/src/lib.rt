// No code: supertrees, closed and maximal patterns (specs/), and what follows of them (proofs/).
#![tactic(auto)]
