// No code: document 01's worked example, from the bytes of the input to the bytes of the output, is proved in proofs/WorkedExample.antt.
#![tactic(auto)]
