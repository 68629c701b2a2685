// Answer 6: every field of every graph within its bounds. In the unpacked form no number is cut: 257 is not 1.
ghost use Rattle.std.specs.Prelude.{◌≡◌, true, ◌/◌, ◌<◌, ◌≤◌, length, Ok};
ghost use Rattle.std.specs.List.{list_all};
ghost use Rattle.units.specs.Bounds.{max_time};
ghost use Rattle.units.specs.Within.{between};
ghost use Rattle.sheet.specs.Layout.{fixed_part, channel_part, times, in_numbers};
ghost use Rattle.sheet.specs.Fields.{in_range};
ghost use Rattle.sheet.specs.Check.{actor_count, first_walk};
ghost use Rattle.sheet.specs.Forms.{layout_of, range_walk, check_numbers};

use super::Refusal;
use super::graph::Graph;
use super::layout::CHANNEL;
use units::{Count, Ticks, Tokens};

fn within(low: u64, high: u64, n: u64) -> bool
    ensures { result ≡ between low high n }
{
    (low..=high).contains(&n)
}

// The fixed part behind the counts.
#[tactic(auto, using(crate::proofs::Ranges::fixed_range))]
fn fixed(graph: &Graph) -> bool
    ensures { result ≡ in_range (fixed_part (actor_count graph.now.numbers.now)) graph.now.numbers.now }
{
    let last = graph.actors() as u64 - 1;
    let ends = within(0, last, graph.input() as u64) & within(0, last, graph.output() as u64);
    ends & within(1, Ticks::MAX, graph.period().count())
        & within(1, Ticks::MAX, graph.deadline().count())
}

// Worst-case times.
fn times(l: &[u32]) -> bool
    ensures { result ≡ list_all (between 0 max_time) l.now }
{
    l.iter()
        .all(|&time| within(0, Ticks::MAX_TIME, time as u64))
}

// One channel of a graph with that many actors.
#[tactic(auto, using(crate::proofs::Ranges::channel_range))]
fn channel(l: &[u32], actors: u64) -> bool
    requires { (0 < actors) × (5 ≤ length l.now) }
    ensures { result ≡ in_range (channel_part actors) l.now }
{
    let last = actors - 1;
    let ends = within(0, last, l[0] as u64) & within(0, last, l[1] as u64);
    let rates = within(1, Tokens::MAX_RATE, l[2] as u64) & within(1, Tokens::MAX_RATE, l[3] as u64);
    ends & rates & within(0, Tokens::MAX_INITIAL, l[4] as u64)
}

// Channels, one after the other.
fn channels(l: &[u32], actors: u64) -> bool
    requires { 0 < actors }
    ensures { result ≡ in_range (times (length l.now / 5) (channel_part actors)) l.now }
{
    l.chunks_exact(CHANNEL).all(|c| channel(c, actors))
}

#[tactic(auto, using(crate::proofs::Ranges::graph_parts))]
impl<'a> Graph<'a> {
    // Each of its fields is within its bounds.
    pub fn in_range(&self) -> bool
        ensures { result ≡ in_range (layout_of self.now.numbers.now) self.now.numbers.now }
    {
        fixed(self) && times(self.times()) && channels(self.channels(), self.actors() as u64)
    }
}

// So many graphs, which the first walk has passed.
#[tactic(auto, using(crate::proofs::Ranges::ranges_no, crate::proofs::Ranges::ranges_end))]
fn walk(l: &[u32], graphs: u64) -> Result<(), Refusal>
    requires { first_walk in_numbers graphs 0 l.now ≡ Ok tt }
    ensures { result ≡ range_walk graphs 0 l.now }
{
    let mut rest = l;
    for k in 0..graphs {
        let graph = Graph { numbers: rest };
        if !graph.in_range() {
            return Err(Refusal::Range(k));
        }
        rest = graph.behind();
    }
    Ok(())
}

// Answers 3 to 6 for the unpacked form.
#[tactic(auto, using(crate::proofs::Ranges::list_passed, crate::proofs::Ranges::numbers_no, crate::proofs::Ranges::numbers_ranges))]
pub fn numbers(l: &[u32]) -> Result<(), Refusal>
    ensures { result ≡ check_numbers l.now }
{
    super::check::list(l)?;
    walk(&l[1..], l[0] as u64)
}
