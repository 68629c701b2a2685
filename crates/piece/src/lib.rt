// 01, Demand at a length, from the straight piece and the span of lengths of each graph that were met last: nothing is divided while
// the length stays in the span or steps down a period on the piece, and no actor is looked at while the blocks due stay on the piece.
#![tactic(auto)]

ghost use Rattle.std.specs.Prelude.{◌≡◌, ◌≢◌, true, ◌+◌, ◌*◌, ◌/◌, ◌^◌, ◌<◌, ◌≤◌, min, max};
ghost use lib.ListN.{length, get_or};
ghost use Rattle.units.specs.Bounds.{max_ticks};
ghost use Rattle.edf.specs.Arrivals.{due};
ghost use Rattle.edf.specs.Demand.{Works, cost, demand};
ghost use Rattle.demand.specs.Rows.{work_in, works_in};
ghost use Rattle.piece.specs.Pieces.{Piece as Straight, unknown, Level, First, Pieces, Joins, Joined};

use demand::rows::{Actor, Rows};
use units::{Count, Ticks};

// From `low` to `high` blocks due a graph asks `each` ticks for every block, less `behind`.
#[derive(Clone, Copy)]
pub struct Piece {
    pub low: u64,
    pub high: u64,
    pub each: u64,
    pub behind: u64,
}

// What is known of a graph: a piece; in the lengths from `from` on and below `to` it asks `asks`; and down to the length `bottom` it
// can step a period at a time on the piece.
#[derive(Clone, Copy)]
pub struct Known {
    pub piece: Piece,
    pub from: u64,
    pub to: u64,
    pub asks: u64,
    pub bottom: u64,
}

impl Known {
    // A piece that covers no count, a span without a length, and no step down.
    pub const NOTHING: Known = Known {
        piece: Piece {
            low: 1,
            high: 0,
            each: 0,
            behind: 0,
        },
        from: 1,
        to: 0,
        asks: 0,
        bottom: 2,
    };
}

// The piece that covers k blocks due, with one actor more.
fn joined(p: Piece, actor: Actor, k: u64) -> Piece
    requires { Joins p actor.time.n actor.repetition.n actor.skip.n k }
    ensures { Joined p actor.time.n actor.repetition.n actor.skip.n k result }
{
    let time = actor.time.count();
    let repetition = actor.repetition.count();
    let skip = actor.skip.count();
    if time == 0 {
        return p;
    }
    if k * repetition < skip {
        return Piece {
            high: p.high.min(skip / repetition),
            ..p
        };
    }
    let each = p.each + time * repetition;
    if skip == 0 {
        return Piece { each, ..p };
    }
    Piece {
        low: p.low.max(skip.div_ceil(repetition)),
        high: p.high,
        each,
        behind: p.behind + time * skip,
    }
}

// The piece of graph i that covers k blocks due.
fn straight(rows: &Rows, i: usize, k: u64) -> Piece
    requires { (i < length rows.now.heads.now) × (k ≤ max_ticks) }
    ensures { (result.low ≤ k) × (k ≤ result.high) × Straight (work_in rows.now i) result.low result.high result.each result.behind }
{
    let mut p = Piece {
        low: 0,
        high: Ticks::MAX,
        each: 0,
        behind: 0,
    };
    for &actor in rows.actors_of(i) {
        p = joined(p, actor, k);
    }
    p
}

// The piece of graph i that covers k blocks due is there afterwards.
fn meet(rows: &Rows, i: usize, k: u64, pieces: &mut [Known])
    requires { (i < length rows.now.heads.now) × (k ≤ max_ticks) × Pieces (works_in rows.now) pieces.old }
    ensures { Pieces (works_in rows.now) pieces.new × ((get_or pieces.new i unknown).piece.low ≤ k) × (k ≤ (get_or pieces.new i unknown).piece.high) }
{
    let known = pieces[i];
    if (known.piece.low..=known.piece.high).contains(&k) {
        return;
    }
    // The span is one of the piece before: no step leads down from it.
    pieces[i] = Known {
        piece: straight(rows, i, k),
        bottom: known.from,
        ..known
    };
}

// The smallest length in which k blocks are due.
fn first_length(period: u64, deadline: u64, k: u64) -> u64
    requires { (0 < period) × (deadline + k * period < 2 ^ 64) }
    ensures { First period deadline k result × (k ≢ 0 → result + period ≡ deadline + k * period) }
{
    if k == 0 {
        return 0;
    }
    deadline + (k - 1) * period
}

// Graph i asks the same from `low` to `high` blocks due: the span of lengths that have so many is there afterwards,
// with the length down to which it can step.
fn hold(rows: &Rows, i: usize, low: u64, high: u64, asks: u64, pieces: &mut [Known])
    requires { (i < length rows.now.heads.now) × (low ≤ high) × (high ≤ max_ticks) × ((get_or pieces.old i unknown).piece.low ≤ low) × (low ≤ (get_or pieces.old i unknown).piece.high) × Level (work_in rows.now i) low high asks × Pieces (works_in rows.now) pieces.old }
    ensures { Pieces (works_in rows.now) pieces.new }
{
    let period = rows.heads[i].period.count();
    let deadline = rows.heads[i].deadline.count();
    let piece = pieces[i].piece;
    // Steps end at the piece's fewest blocks, and at one block: the lengths with none are no whole period.
    pieces[i] = Known {
        piece,
        from: first_length(period, deadline, low),
        to: first_length(period, deadline, high + 1),
        asks,
        bottom: first_length(period, deadline, piece.low.max(1)),
    };
}

// What graph i asks in a length; a span with that length is there afterwards.
fn renew(rows: &Rows, i: usize, length: Ticks, pieces: &mut [Known]) -> Ticks
    requires { (i < lib.ListN.length rows.now.heads.now) × (length.n ≤ max_ticks) × Pieces (works_in rows.now) pieces.old }
    ensures { (result.n ≡ cost (work_in rows.now i) (due (work_in rows.now i).period (work_in rows.now i).deadline length.n)) × Pieces (works_in rows.now) pieces.new }
{
    let k = rows.blocks(i, length).count();
    meet(rows, i, k, pieces);
    let piece = pieces[i].piece;
    let asks = k * piece.each - piece.behind;
    // Where it asks nothing for each block, it asks the same on the whole piece.
    if piece.each == 0 {
        hold(rows, i, piece.low, piece.high.min(Ticks::MAX), asks, pieces);
    } else {
        hold(rows, i, k, k, asks, pieces);
    }
    Ticks::of(asks)
}

// Whether the length t is one of the period below the span of graph i, on the same piece; the span is that period then.
fn step_down(rows: &Rows, i: usize, t: u64, pieces: &mut [Known]) -> bool
    requires { (i < length rows.now.heads.now) × Pieces (works_in rows.now) pieces.old }
    ensures { Pieces (works_in rows.now) pieces.new × (result ≡ true → ((get_or pieces.new i unknown).from ≤ t) × (t < (get_or pieces.new i unknown).to)) }
{
    let known = pieces[i];
    let to = known.from;
    let period = rows.heads[i].period.count();
    if to <= t || to < period {
        return false;
    }
    let from = to - period;
    if t < from || from < known.bottom {
        return false;
    }
    pieces[i] = Known {
        from,
        to,
        asks: known.asks - known.piece.each,
        ..known
    };
    true
}

// What graph i asks in a length.
fn graph_look(rows: &Rows, i: usize, length: Ticks, pieces: &mut [Known]) -> Ticks
    requires { (i < lib.ListN.length rows.now.heads.now) × (length.n ≤ max_ticks) × Pieces (works_in rows.now) pieces.old }
    ensures { (result.n ≡ cost (work_in rows.now i) (due (work_in rows.now i).period (work_in rows.now i).deadline length.n)) × Pieces (works_in rows.now) pieces.new }
{
    let t = length.count();
    let known = pieces[i];
    if (known.from..known.to).contains(&t) {
        return Ticks::of(known.asks);
    }
    if step_down(rows, i, t, pieces) {
        return Ticks::of(pieces[i].asks);
    }
    renew(rows, i, length, pieces)
}

// Nothing is known yet of n graphs.
pub fn blank(n: usize, pieces: &mut [Known])
    requires { n ≤ length pieces.old }
    ensures { (ws : Works) → ws.graphs ≡ n → Pieces ws pieces.new }
{
    pieces[..n].fill(Known::NOTHING);
}

// Demand at a length; the pieces that it needs are there afterwards.
pub fn look(rows: &Rows, length: Ticks, pieces: &mut [Known]) -> Ticks
    requires { (length.n ≤ max_ticks) × Pieces (works_in rows.now) pieces.old }
    ensures { (result.n ≡ demand (works_in rows.now) length.n) × Pieces (works_in rows.now) pieces.new }
{
    let mut sum = Ticks::of(0);
    for i in 0..rows.graphs() {
        sum = sum.plus(graph_look(rows, i, length, pieces));
    }
    sum
}
