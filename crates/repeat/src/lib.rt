// The repetition numbers of one graph (01, answer 8), found by the sets of actors that its channels join.
#![tactic(auto)]

pub mod chart; // a graph with what `draw` fills in
pub mod draw; // who leads to whom
pub mod repetition; // 01, answers 8 and 9
