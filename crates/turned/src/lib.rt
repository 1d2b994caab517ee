// No code: a tree with one of its leaves turned to the end, and what its supertrees of one more node are then (specs/Turned).
#![tactic(auto)]
