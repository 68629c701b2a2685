// The graphs of an unpacked form made ready: answers 3 to 12, and the numbers of every graph (01).
#![tactic(auto)]

use units::Ticks;

pub mod prepare; // answers 3 to 12 and the numbers of every graph

// What stands ready: so many graphs, and their frame.
#[derive(Clone, Copy)]
pub struct Ready {
    pub graphs: usize,
    pub frame: Ticks,
}
