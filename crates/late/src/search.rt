// 01, answer 21: the smallest late length. The search takes the lengths below the end window by window, each from its end down: where
// demand at a length is at most h and that is no more than the length, no length from h on to it is late, so the next look is below h.
// From the first late length found the windows halve what is left below it. A sheet that needs many looks is searched again with
// the table of a cycle.
ghost use Rattle.std.specs.Prelude.{◌≡◌, ◌*◌, ◌<◌, ◌≤◌, length};
ghost use Rattle.units.specs.Bounds.{max_ticks};
ghost use Rattle.edf.specs.Demand.{load as load_of};
ghost use Rattle.edf.specs.Frame.{Frame};
ghost use Rattle.demand.specs.Rows.{works_in, work_in};
ghost use Rattle.late.specs.Answers.{LateAnswer};
ghost use Rattle.piece.specs.Pieces.{Pieces};
ghost use Rattle.late.specs.Search.{Leapt, SettleAnswer, FoundAnswer, SearchAnswer};

use super::cycle::{LONGEST, ease};
use super::end::search_end;
use super::glance::{Glance, Nothing, Whole};
use demand::frame::Weighted;
use demand::rows::{Head, Rows};
use piece::{Known, blank, look};
use units::{Count, Ticks};

// Looks at one window before the search begins again with a table.
const LOOKS: u64 = 1024;

// More looks are needed than there were.
#[derive(Clone, Copy)]
struct Open;

// The first window: twice the greatest deadline. Only the time of the search hangs on it.
fn first_window(heads: &[Head]) -> Ticks
    ensures { (0 < result.n) × (result.n ≤ 2 * max_ticks) }
{
    let most = heads.iter().map(|head| head.deadline.count()).max();
    Ticks::of(2 * most.unwrap_or(1).clamp(1, Ticks::MAX))
}

// The length up to which to settle next. Below a late length half of what is open; else as far again as is settled, and a window.
fn window(low: Ticks, high: Ticks, found: bool, first: Ticks) -> Ticks
    requires { (low.n < high.n) × (high.n ≤ max_ticks) × (0 < first.n) × (first.n ≤ 2 * max_ticks) }
    ensures { (low.n < result.n) × (result.n ≤ high.n) }
{
    let l = low.count();
    if found {
        return Ticks::of(l + (high.count() - l + 1) / 2);
    }
    high.min(Ticks::of(2 * l + first.count()))
}

// A length from which on to this one none is late, or demand where that is above the length.
fn leap<G: Glance>(rows: &Rows, length: Ticks, glance: &mut G, pieces: &mut [Known]) -> Ticks
    requires { (length.n ≤ max_ticks) × G.serves glance.old rows.now × Pieces (works_in rows.now) pieces.old }
    ensures { Leapt (works_in rows.now) length.n result.n × G.serves glance.new rows.now × Pieces (works_in rows.now) pieces.new }
{
    let r = glance.glance(rows, length);
    if r <= length {
        return r;
    }
    look(rows, length, pieces)
}

// Some late length below `high`, or that none from `low` on is, after at most so many looks.
fn settle<G: Glance>(
    rows: &Rows,
    looks: u64,
    low: Ticks,
    high: Ticks,
    glance: &mut G,
    pieces: &mut [Known],
) -> Result<Option<Ticks>, Open>
    requires { (high.n ≤ max_ticks) × G.serves glance.old rows.now × Pieces (works_in rows.now) pieces.old }
    ensures { SettleAnswer (works_in rows.now) low.n high.n looks result × G.serves glance.new rows.now × Pieces (works_in rows.now) pieces.new }
{
    let l = low.count();
    let mut e = high.count();
    let mut more = looks;
    while l < e {
        if more == 0 {
            return Err(Open);
        }
        let t = e - 1;
        let h = leap(rows, Ticks::of(t), glance, pieces).count();
        if t < h {
            return Ok(Some(Ticks::of(t)));
        }
        e = h;
        more -= 1;
    }
    Ok(None)
}

// The smallest late length below `end`, with at most so many looks at a window.
fn search<G: Glance>(
    rows: &Rows,
    looks: u64,
    end: Ticks,
    first: Ticks,
    glance: &mut G,
    pieces: &mut [Known],
) -> Result<Option<Ticks>, Open>
    requires { (end.n ≤ max_ticks) × (0 < first.n) × (first.n ≤ 2 * max_ticks) × G.serves glance.old rows.now × Pieces (works_in rows.now) pieces.old }
    ensures { FoundAnswer (works_in rows.now) end.n looks result }
{
    let mut low = Ticks::of(0);
    let mut high = end;
    let mut found = None;
    while low < high {
        let mid = window(low, high, found.is_some(), first);
        match settle(rows, looks, low, mid, glance, pieces)? {
            Some(t) => {
                high = t;
                found = Some(t);
            }
            None => {
                low = mid;
            }
        }
    }
    Ok(found)
}

// The search with as many looks as it needs: no window has more lengths.
fn search_all<G: Glance>(
    rows: &Rows,
    end: Ticks,
    glance: &mut G,
    pieces: &mut [Known],
) -> Option<Ticks>
    requires { (end.n ≤ max_ticks) × G.serves glance.old rows.now × (length rows.now.heads.now ≤ length pieces.old) }
    ensures { SearchAnswer (works_in rows.now) end.n result }
{
    blank(rows.graphs(), pieces);
    let first = Ticks::of(LONGEST as u64);
    match search(rows, Ticks::MAX, end, first, glance, pieces) {
        Ok(found) => found,
        Err(Open) => unreachable!(),
    }
}

// The search with a table, if there is one.
fn far(rows: &Rows, end: Ticks, pieces: &mut [Known]) -> Option<Ticks>
    requires { (end.n ≤ max_ticks) × (length rows.now.heads.now ≤ length pieces.old) }
    ensures { SearchAnswer (works_in rows.now) end.n result }
{
    let mut floors = [0; LONGEST];
    match ease(rows, pieces, &mut floors) {
        Some(mut table) => search_all(rows, end, &mut table, pieces),
        None => search_all(rows, end, &mut Nothing, pieces),
    }
}

// The smallest late length. Scratch: `pieces`, one for each graph.
pub fn late(weighted: &Weighted, frame: Ticks, load: Ticks, pieces: &mut [Known]) -> Option<Ticks>
    requires lent { Frame (length weighted.now.rows.now.heads.now) (λ i. (work_in weighted.now.rows.now i).period) frame.n × (frame.n ≤ max_ticks) × (load.n ≡ load_of (works_in weighted.now.rows.now) frame.n) × (load.n ≤ frame.n) }
    requires scratch { length weighted.now.rows.now.heads.now ≤ length pieces.old }
    ensures { LateAnswer (works_in weighted.now.rows.now) result }
{
    let rows = weighted.rows;
    let end = search_end(weighted, frame, load);
    let first = first_window(rows.heads);
    blank(rows.graphs(), pieces);
    match search(rows, LOOKS, end, first, &mut Whole { weighted }, pieces) {
        Ok(found) => found,
        Err(Open) => far(rows, end, pieces),
    }
}
