// 01, answer 21: no length from the end on can be late.
ghost use Rattle.std.specs.Prelude.{◌≡◌, ◌<◌, ◌≤◌, length};
ghost use Rattle.sdf.specs.Sum.{sum_to};
ghost use Rattle.units.specs.Bounds.{max_ticks};
ghost use Rattle.edf.specs.Demand.{load as load_of};
ghost use Rattle.edf.specs.Frame.{CommonMultiple};
ghost use Rattle.demand.specs.Rows.{works_in, work_in};
ghost use Rattle.late.specs.Search.{busy_period, Carries, graph_surplus, End, SearchEnd};

use demand::frame::{Weighted, common, frame_load};
use units::{Count, Ticks};

// Whether some graph's iteration takes no time. Only the time of the search hangs on it.
fn idle(weighted: &Weighted) -> bool {
    let weight = &weighted.weight[..weighted.rows.graphs()];
    weight.iter().any(|w| w.count() == 0)
}

// The period of graph i, or 1 where its iteration takes no time.
fn busy_period(weighted: &Weighted, i: usize) -> Ticks
    requires { i < length weighted.now.rows.now.heads.now }
    ensures { result.n ≡ busy_period (works_in weighted.now.rows.now) i }
{
    if weighted.weight[i].count() == 0 {
        return Ticks::of(1);
    }
    weighted.rows.heads[i].period
}

// A graph whose iteration takes no time adds nothing to demand at any length, but its period may stretch the frame: the search
// needs the frame of the others alone.
fn busy(weighted: &Weighted, frame: Ticks) -> Ticks
    requires { CommonMultiple (length weighted.now.rows.now.heads.now) (λ i. (work_in weighted.now.rows.now i).period) frame.n }
    ensures { Carries (works_in weighted.now.rows.now) frame.n result.n }
{
    if !idle(weighted) {
        return frame;
    }
    let mut so_far = Ticks::of(1);
    for i in 0..weighted.rows.graphs() {
        let Some(next) = common(so_far, busy_period(weighted, i)) else {
            return frame;
        };
        so_far = next;
    }
    so_far
}

// The load of the frame of the search, which most often is the frame itself.
fn busy_load(weighted: &Weighted, frame: Ticks, load: Ticks, span: Ticks) -> Ticks
    requires { (span.n ≤ max_ticks) × (load.n ≡ load_of (works_in weighted.now.rows.now) frame.n) }
    ensures { result.n ≡ load_of (works_in weighted.now.rows.now) span.n }
{
    if span == frame {
        return load;
    }
    frame_load(weighted, span)
}

// By how much frame × demand of graph i may be above its share × length.
fn graph_surplus(weighted: &Weighted, frame: Ticks, i: usize) -> u64
    requires { (i < length weighted.now.rows.now.heads.now) × (load_of (works_in weighted.now.rows.now) frame.n ≤ max_ticks) }
    ensures { result ≡ graph_surplus (works_in weighted.now.rows.now) frame.n i }
{
    let period = weighted.rows.heads[i].period.count();
    let deadline = weighted.rows.heads[i].deadline.count();
    frame.count() / period * weighted.weight[i].count() * period.saturating_sub(deadline)
}

// By how much frame × demand may be above load × length.
fn surplus_of(weighted: &Weighted, frame: Ticks) -> u64
    requires { load_of (works_in weighted.now.rows.now) frame.n ≤ max_ticks }
    ensures { result ≡ sum_to (graph_surplus (works_in weighted.now.rows.now) frame.n) (length weighted.now.rows.now.heads.now) }
{
    let mut sum = 0;
    for i in 0..weighted.rows.graphs() {
        sum += graph_surplus(weighted, frame, i);
    }
    sum
}

// The length from which on none can be late.
fn end_of(frame: Ticks, load: Ticks, surplus: u64) -> Ticks
    requires { (0 < frame.n) × (frame.n ≤ max_ticks) × (load.n ≤ frame.n) }
    ensures { End frame.n load.n surplus result.n }
{
    let f = frame.count();
    let l = load.count();
    if surplus < f {
        return Ticks::of(0);
    }
    if l == f {
        return frame;
    }
    Ticks::of(f.min((surplus - f) / (f - l) + 1))
}

// The same for the sheet, by the frame that the search needs.
pub fn search_end(weighted: &Weighted, frame: Ticks, load: Ticks) -> Ticks
    requires { CommonMultiple (length weighted.now.rows.now.heads.now) (λ i. (work_in weighted.now.rows.now i).period) frame.n × (frame.n ≤ max_ticks) × (load.n ≡ load_of (works_in weighted.now.rows.now) frame.n) × (load.n ≤ frame.n) }
    ensures { SearchEnd (works_in weighted.now.rows.now) result.n }
{
    let span = busy(weighted, frame);
    let share = busy_load(weighted, frame, load, span);
    end_of(span, share, surplus_of(weighted, span))
}
