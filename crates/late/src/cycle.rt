// 01, answer 21, where it takes many looks: the lengths of one cycle of the short periods are looked at once. A table says how much
// the graphs of these periods leave from a length on; where the other graphs ask no more, no length from there on is late.
ghost use Rattle.std.specs.Prelude.{◌≡◌, ◌+◌, ◌<◌, ◌≤◌, length};
ghost use Rattle.std.specs.Option.{IfSome};
ghost use Rattle.units.specs.Bounds.{max_ticks};
ghost use Rattle.edf.specs.Demand.{load};
ghost use Rattle.demand.specs.Rows.{works_in};
ghost use Rattle.piece.specs.Pieces.{Pieces};
ghost use Rattle.late.specs.Cycle.{max_cycle, Parting, Parted, Floors, floor_at, Eased};

use super::glance::Glance;
use demand::frame::{Weighted, common, frame_load, weigh};
use demand::rows::{Head, Rows};
use piece::{Known, blank, look};
use units::{Count, Ticks};

// The longest cycle that has a table.
pub const LONGEST: usize = 2048;

// As many graphs as a sheet holds.
const GRAPHS: usize = 8;

// The shortest period above `last`, or a number above every cycle. Only the time of the search hangs on it.
fn next_period(heads: &[Head], last: u64) -> u64
    ensures { (0 < result) × (result ≤ max_cycle + 1) }
{
    let periods = heads.iter().map(|head| head.period.count());
    let least = periods.filter(|period| last < *period).min();
    least.map_or(LONGEST as u64 + 1, |period| period.min(LONGEST as u64 + 1))
}

// The common multiple of a cycle and a period, or the cycle where that is too long.
fn longer(cycle: Ticks, period: Ticks) -> Ticks
    requires { (0 < cycle.n) × (cycle.n ≤ max_cycle) × (0 < period.n) × (period.n ≤ max_ticks) }
    ensures { (0 < result.n) × (result.n ≤ max_cycle) }
{
    match common(cycle, period) {
        Some(m) if m <= Ticks::of(LONGEST as u64) => m,
        _ => cycle,
    }
}

// The common multiple of the short periods, from the shortest on as far as it stays short. Only the time of the search hangs on it.
fn length_of(heads: &[Head]) -> Ticks
    ensures { (0 < result.n) × (result.n ≤ max_cycle) }
{
    let mut so_far = Ticks::of(1);
    let mut last = 0;
    for _ in heads {
        last = next_period(heads, last);
        so_far = longer(so_far, Ticks::of(last));
    }
    so_far
}

// Periods below this that do not divide the cycle end the stretches of the other graphs too soon for a table.
const STRETCH: u64 = 64;

// Whether a table of that cycle saves looks. Only the time of the search hangs on it.
fn pays(heads: &[Head], cycle: Ticks) -> bool {
    heads.iter().all(|head| {
        let period = head.period.count();
        STRETCH <= period || cycle.count().is_multiple_of(period)
    })
}

// All actors of a graph whose period divides the cycle, else none.
fn short_actors(head: Head, cycle: Ticks) -> usize
    requires { 0 < head.period.n }
    ensures { Parting head cycle.n result }
{
    if cycle.count().is_multiple_of(head.period.count()) {
        return head.actors;
    }
    0
}

// The graphs in two parts, those of the short periods and the others: each part has every graph, but none of the actors of the
// other part's.
fn split(rows: &Rows, cycle: Ticks, short: &mut [Head], long: &mut [Head])
    requires { (length rows.now.heads.now ≤ length short.old) × (length rows.now.heads.now ≤ length long.old) }
    ensures { Parted cycle.n (length rows.now.heads.now) rows.now.heads.now short.new long.new }
{
    for i in 0..rows.graphs() {
        let head = rows.heads[i];
        let actors = short_actors(head, cycle);
        short[i] = Head { actors, ..head };
        long[i] = Head {
            actors: head.actors - actors,
            ..head
        };
    }
}

// The table: from each length of the cycle on to its end, how much the graphs leave at least. Or none, where some length is late.
fn fill(short: &Rows, cycle: Ticks, pieces: &mut [Known], floors: &mut [u32]) -> Option<()>
    requires { Pieces (works_in short.now) pieces.old × (cycle.n ≤ max_cycle) × (cycle.n ≤ length floors.old) }
    ensures { IfSome result (λ _. Floors (works_in short.now) cycle.n floors.new) }
{
    let mut least = cycle;
    for at in (0..cycle.count()).rev() {
        let asks = look(short, Ticks::of(at), pieces).count();
        if at < asks {
            return None;
        }
        least = least.min(Ticks::of(at - asks));
        floors[at as usize] = least.count() as u32;
    }
    Some(())
}

// What the graphs leave of a cycle, if no length of it is late for them.
fn rest_of(short: &Rows, cycle: Ticks) -> Option<Ticks>
    requires { cycle.n ≤ max_ticks }
    ensures { IfSome result (λ rest. load (works_in short.now) cycle.n + rest.n ≡ cycle.n) }
{
    let mut weight = [Ticks::of(0); GRAPHS];
    weigh(short, &mut weight);
    let weighted = Weighted {
        rows: short,
        weight: &weight,
    };
    let load = frame_load(&weighted, cycle).count();
    cycle.count().checked_sub(load).map(Ticks::of)
}

// A table over a cycle: how much of each cycle its graphs leave, and the other graphs with what is known of each.
#[derive(Drop)]
pub struct Table<'a> {
    cycle: Ticks,
    rest: Ticks,
    floors: &'a [u32],
    long: [Head; GRAPHS],
    spans: [Known; GRAPHS],
}

impl Table<'_> {
    // How much the graphs of the table leave at least from a length on.
    pub fn floor_at(&self, from: Ticks) -> Ticks
        requires { (0 < self.now.cycle.n) × (self.now.cycle.n ≤ max_cycle) × (self.now.cycle.n ≤ length self.now.floors.now) × (self.now.rest.n ≤ self.now.cycle.n) × (from.n ≤ max_ticks) }
        ensures { result.n ≡ floor_at self.now.cycle.n self.now.rest.n self.now.floors.now from.n }
    {
        let a = from.count();
        let cycle = self.cycle.count();
        let rest = self.rest.count();
        let here = self.floors[(a % cycle) as usize] as u64;
        let next = rest + self.floors[0] as u64;
        Ticks::of(a / cycle * rest + here.min(next))
    }
}

// The greatest length up to this one at which a graph that is looked at in its span began to ask what it asks. Only the time of the
// search hangs on it.
fn began(spans: &[Known], length: Ticks) -> Ticks
    ensures { result.n ≤ length.n }
{
    let most = spans.iter().map(|known| known.from).max().unwrap_or(0);
    Ticks::of(most.min(length.count()))
}

impl Glance for Table<'_> {
    ghost serves = { λ t rows. Eased rows t };

    fn glance(&mut self, rows: &Rows, length: Ticks) -> Ticks {
        let long = Rows {
            heads: &self.long[..rows.graphs()],
            actors: rows.actors,
            room: rows.room,
        };
        let asks = look(&long, length, &mut self.spans);
        let from = began(&self.spans[..rows.graphs()], length);
        if asks <= self.floor_at(from) {
            return from;
        }
        Ticks::of(length.count() + 1)
    }
}

// The table over the cycle of the short periods, if it saves looks and no length of the cycle is late for their graphs alone.
// Scratch: `pieces`, one for each graph.
pub fn ease<'a>(rows: &Rows, pieces: &mut [Known], floors: &'a mut [u32]) -> Option<Table<'a>>
    requires { (length rows.now.heads.now ≤ length pieces.old) × (max_cycle ≤ length floors.old) }
    ensures { IfSome result (Eased rows.now) }
{
    let cycle = length_of(rows.heads);
    if !pays(rows.heads, cycle) {
        return None;
    }
    let empty = Head {
        period: cycle,
        deadline: cycle,
        actors: 0,
    };
    let mut heads = [empty; GRAPHS];
    let mut long = [empty; GRAPHS];
    split(rows, cycle, &mut heads, &mut long);
    let short = Rows {
        heads: &heads[..rows.graphs()],
        actors: rows.actors,
        room: rows.room,
    };
    let rest = rest_of(&short, cycle)?;
    blank(rows.graphs(), pieces);
    fill(&short, cycle, pieces, floors)?;
    let mut spans = [Known::NOTHING; GRAPHS];
    blank(rows.graphs(), &mut spans);
    Some(Table {
        cycle,
        rest,
        floors,
        long,
        spans,
    })
}
