// 01, Bounds: the frame, the least common multiple of the periods; and the frame load.
ghost use Rattle.std.specs.Prelude.{◌≡◌, ℕ, ◌*◌, ◌/◌, ◌<◌, ◌≤◌, length, get_or};
ghost use Rattle.units.specs.Bounds.{max_ticks};
ghost use Rattle.edf.specs.Demand.{iteration, load};
ghost use Rattle.demand.specs.Lent.{no_head, Weighed};
ghost use Rattle.demand.specs.Rows.{works_in, work_in};
ghost use Rattle.demand.specs.Answers.{FrameAnswer, MultipleAnswer};

use super::rows::{Head, Rows};
use units::{Count, Firings, Ticks};

// The least common multiple of a and b, found among the multiples of the larger, or that it is above the bound.
pub fn common(a: Ticks, b: Ticks) -> Option<Ticks>
    requires { (0 < a.n) × (a.n ≤ max_ticks) × (0 < b.n) × (b.n ≤ max_ticks) }
    ensures { MultipleAnswer a.n b.n result }
{
    if a < b {
        multiple(b, a)
    } else {
        multiple(a, b)
    }
}

// The least multiple of a that b divides.
fn multiple(a: Ticks, b: Ticks) -> Option<Ticks>
    requires { (0 < a.n) × (a.n ≤ max_ticks) × (0 < b.n) }
    ensures { MultipleAnswer a.n b.n result }
{
    let step = a.count();
    let by = b.count();
    for k in 1..=Ticks::MAX / step {
        let m = k * step;
        if m.is_multiple_of(by) {
            return Some(Ticks::of(m));
        }
    }
    None
}

// A running multiple is enough: it divides the frame.
pub fn frame(heads: &[Head]) -> Option<Ticks>
    requires { (i : ℕ) → i < length heads.now → (0 < (get_or heads.now i no_head).period.n) × ((get_or heads.now i no_head).period.n ≤ max_ticks) }
    ensures { FrameAnswer (length heads.now) (λ i. (get_or heads.now i no_head).period.n) result }
{
    let mut so_far = Ticks::of(1);
    for head in heads {
        so_far = common(so_far, head.period)?;
    }
    Some(so_far)
}

// Each graph's weight, the time of its iteration.
pub fn weigh(rows: &Rows, weight: &mut [Ticks])
    requires { length rows.now.heads.now ≤ length weight.old }
    ensures { Weighed (works_in rows.now) weight.new }
{
    for i in 0..rows.graphs() {
        weight[i] = rows.iteration(i);
    }
}

// The graphs with their weights, the time of an iteration of each.
#[derive(Drop)]
pub struct Weighted<'a> {
    pub rows: &'a Rows<'a>,
    pub weight: &'a [Ticks],
    pub ghost weighed: { Weighed (works_in rows.now) weight.now },
}

// What graph i adds to the frame load.
fn graph_load(weighted: &Weighted, i: usize, frame: Ticks) -> Ticks
    requires { (i < length weighted.now.rows.now.heads.now) × (frame.n ≤ max_ticks) }
    ensures { result.n ≡ frame.n / (work_in weighted.now.rows.now i).period * iteration (work_in weighted.now.rows.now i) }
{
    let iterations = Firings::of(frame.count() / weighted.rows.heads[i].period.count());
    weighted.weight[i].times(iterations)
}

// 01, Frame load.
pub fn frame_load(weighted: &Weighted, frame: Ticks) -> Ticks
    requires { frame.n ≤ max_ticks }
    ensures { result.n ≡ load (works_in weighted.now.rows.now) frame.n }
{
    let mut sum = Ticks::of(0);
    for i in 0..weighted.rows.graphs() {
        sum = sum.plus(graph_load(weighted, i, frame));
    }
    sum
}
