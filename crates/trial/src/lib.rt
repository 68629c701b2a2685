// 01, Deadlock, for one graph: the flat list of its channels, the channels at each actor, and the trial run.
#![tactic(auto)]

pub mod net; // the graph that the engine is handed
pub mod channel; // one channel of it
pub mod links; // the channels at each actor
pub mod linked; // the graph with these lists
pub mod along; // the channels of one actor's list
pub mod run; // the trial run
