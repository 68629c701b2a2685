// Load sheets judged: the verdict, and what it rests on (01). Every call takes any bytes or any numbers at all.
#![tactic(auto)]

use sheet::Refusal;
use units::Ticks;

pub mod form; // the two forms of a sheet, made ready
pub mod calls; // the calls
pub mod c; // the calls for C

// Frame load and frame.
#[derive(Clone, Copy, PartialEq, Eq)]
pub struct Load {
    pub load: Ticks,
    pub frame: Ticks,
}

// 01: a verdict carries either its load or the refusal, and the refusal its place.
#[derive(Clone, Copy, PartialEq, Eq)]
pub enum Verdict {
    Accepted(Load),
    Overload(Load),
    Late(Load, Ticks),
    Refused(Refusal),
}
