// No code: specs/ says what synchronous dataflow graphs mean, proofs/ what follows from it.
#![tactic(auto)]
