// No code: specs/ says what demand means, proofs/ what follows from it for lengths without end.
#![tactic(auto)]
