// 01, answer 21: what is tried at a length before demand itself, which looks at every graph.
ghost use Rattle.std.specs.Prelude.{◌≡◌, ◌≤◌};
ghost use Rattle.units.specs.Bounds.{max_ticks};
ghost use Rattle.edf.specs.Demand.{demand};
ghost use Rattle.demand.specs.Rows.{works_in};
ghost use Rattle.demand.specs.declared.rows.Rows.{Rows};
ghost use Rattle.late.specs.Search.{Glanced};

use demand::frame::Weighted;
use demand::rows::Rows;
use units::{Count, Ticks};

pub trait Glance {
    // What it holds is right for the graphs in these rows.
    ghost serves: { Self → Rows → Type 0 };

    // A length from which on to this one none is late, found without a look at every graph; or one above this where that does not tell.
    fn glance(&mut self, rows: &Rows, length: Ticks) -> Ticks
        requires { serves self.old rows.now × (length.n ≤ max_ticks) }
        ensures { serves self.new rows.now × Glanced (works_in rows.now) length.n result.n };
}

// Demand at a length as if nothing were skipped: at least demand, and without a look at an actor.
fn without_skips(weighted: &Weighted, length: Ticks) -> Ticks
    requires { length.n ≤ max_ticks }
    ensures { demand (works_in weighted.now.rows.now) length.n ≤ result.n }
{
    let mut sum = Ticks::of(0);
    for i in 0..weighted.rows.graphs() {
        sum = sum.plus(weighted.weight[i].times(weighted.rows.blocks(i, length)));
    }
    sum
}

// For few looks: demand without skips, from the weights.
#[derive(Drop)]
pub struct Whole<'a> {
    pub weighted: &'a Weighted<'a>,
}

impl Glance for Whole<'_> {
    ghost serves = { λ g rows. g.weighted.now.rows.now ≡ rows };

    fn glance(&mut self, _rows: &Rows, length: Ticks) -> Ticks {
        without_skips(self.weighted, length)
    }
}

// For many looks, where demand without skips is as dear as demand.
#[derive(Drop)]
pub struct Nothing;

impl Glance for Nothing {
    ghost serves = { λ _ _. Unit {0} };

    fn glance(&mut self, _rows: &Rows, length: Ticks) -> Ticks {
        Ticks::of(length.count() + 1)
    }
}
