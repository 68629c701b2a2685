// What the engine of demand is handed: each graph's period, deadline and actor count, and a row of actors for each graph.
ghost use Rattle.demand.specs.Lent.{Lent};

use units::{Firings, Ticks};

#[derive(Clone, Copy)]
pub struct Head {
    pub period: Ticks,
    pub deadline: Ticks,
    pub actors: usize,
}

// An actor's worst-case time, repetition number and skip.
#[derive(Clone, Copy)]
pub struct Actor {
    pub time: Ticks,
    pub repetition: Firings,
    pub skip: Firings,
}

// The row of a graph has `room` places. `lent` says that they are there, and that every number is within document 01's bounds.
#[derive(Drop)]
pub struct Rows<'a> {
    pub heads: &'a [Head],
    pub actors: &'a [Actor],
    pub room: usize,
    pub ghost lent: { Lent heads.now actors.now room },
}
