// 01, Fewest firings, Blocks due and Demand.
ghost use Rattle.std.specs.Prelude.{◌≡◌, ◌+◌, ◌-◌, ◌*◌, ◌/◌, ◌^◌, ◌<◌, ◌≤◌};
ghost use lib.ListN.{length, get_or};
ghost use Rattle.units.specs.Bounds.{max_ticks, max_outputs};
ghost use Rattle.edf.specs.Arrivals.{due};
ghost use Rattle.edf.specs.Demand.{cost, demand, iteration};
ghost use Rattle.demand.specs.Rows.{works_in, work_in, actors_in};

use super::rows::{Actor, Rows};
use units::{Count, Firings, Ticks};

// 01, Fewest firings for K outputs: K × repetition − skip, or 0 where that is negative.
pub fn fewest_firings(k: Firings, repetition: Firings, skip: Firings) -> Firings
    requires { k.n * repetition.n < 2 ^ 64 }
    ensures { result.n ≡ k.n * repetition.n - skip.n }
{
    k.times(repetition).less(skip)
}

// 01, Blocks due in a length.
pub fn blocks(period: Ticks, deadline: Ticks, length: Ticks) -> Firings
    requires { (0 < period.n) × (length.n ≤ max_ticks) }
    ensures { result.n ≡ due period.n deadline.n length.n }
{
    if length < deadline {
        return Firings::of(0);
    }
    Firings::of((length.count() - deadline.count()) / period.count() + 1)
}

// What an actor asks for k blocks due.
fn actor_cost(actor: Actor, k: Firings) -> Ticks
    requires { (k.n * actor.repetition.n < 2 ^ 64) × (actor.time.n * (k.n * actor.repetition.n - actor.skip.n) < 2 ^ 64) }
    ensures { result.n ≡ actor.time.n * (k.n * actor.repetition.n - actor.skip.n) }
{
    actor
        .time
        .times(fewest_firings(k, actor.repetition, actor.skip))
}

// What one iteration of an actor takes.
fn actor_time(actor: Actor) -> Ticks
    requires { actor.time.n * actor.repetition.n < 2 ^ 64 }
    ensures { result.n ≡ actor.time.n * actor.repetition.n }
{
    actor.time.times(actor.repetition)
}

impl<'a> Rows<'a> {
    // How many graphs there are.
    pub fn graphs(&self) -> usize
        ensures { result ≡ length self.now.heads.now }
    {
        self.heads.len()
    }

    // The actors of graph i.
    pub fn actors_of(&self, i: usize) -> &[Actor]
        requires { i < lib.ListN.length self.now.heads.now }
        ensures { result.now ≡ actors_in self.now i }
    {
        let first = self.room * i;
        &self.actors[first..first + self.heads[i].actors]
    }

    // The blocks of graph i due in a length.
    pub fn blocks(&self, i: usize, length: Ticks) -> Firings
        requires { (i < lib.ListN.length self.now.heads.now) × (length.n ≤ max_ticks) }
        ensures { result.n ≡ due (work_in self.now i).period (work_in self.now i).deadline length.n }
    {
        blocks(self.heads[i].period, self.heads[i].deadline, length)
    }

    // 01, Demand: what graph i asks for k blocks due.
    pub fn cost(&self, i: usize, k: Firings) -> Ticks
        requires { (i < length self.now.heads.now) × (k.n ≤ max_outputs) }
        ensures { result.n ≡ cost (work_in self.now i) k.n }
    {
        let mut sum = Ticks::of(0);
        for &actor in self.actors_of(i) {
            sum = sum.plus(actor_cost(actor, k));
        }
        sum
    }

    // The time of one iteration of graph i.
    pub fn iteration(&self, i: usize) -> Ticks
        requires { i < length self.now.heads.now }
        ensures { result.n ≡ iteration (work_in self.now i) }
    {
        let mut sum = Ticks::of(0);
        for &actor in self.actors_of(i) {
            sum = sum.plus(actor_time(actor));
        }
        sum
    }
}

// 01, Demand at a length.
pub fn demand_at(rows: &Rows, length: Ticks) -> Ticks
    requires { length.n ≤ max_ticks }
    ensures { result.n ≡ demand (works_in rows.now) length.n }
{
    let mut sum = Ticks::of(0);
    for i in 0..rows.graphs() {
        sum = sum.plus(rows.cost(i, rows.blocks(i, length)));
    }
    sum
}
