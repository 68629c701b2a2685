// The numbers of one graph: reach, repetition numbers, trial run, at rest, skips (01, answers 7 to 11). It knows
// no sheet, and takes up to 64 actors and 256 channels: a set of actors is the bits of one word.
#![tactic(auto)]

ghost use Rattle.std.specs.Prelude.{◌≡◌, ◌+◌, ◌*◌, ◌/◌, ◌<◌, ◌≤◌, length};
ghost use Rattle.sets.specs.Decides.{Decides};
ghost use Rattle.sdf.specs.Order.{AtRest};
ghost use Rattle.trial.specs.Net.{net_graph};
ghost use Rattle.repeat.specs.Words.{KeptBack, Unskipped};
ghost use Rattle.repeat.specs.Repetition.{BalanceAnswer};
ghost use Rattle.graph.specs.Judged.{Judged, fault_of};

use knot::Waiting;
use repeat::chart::Chart;
use repeat::draw::Neighbours;
use repeat::repetition::Unnumbered;
use repeat::{draw, repetition};
use sets::{covers, with};
use trial::net::Net;

pub mod reach; // 01, answer 7
pub mod skip; // 01, Skip numbers

// 01, answers 7 to 11.
#[derive(Clone, Copy, PartialEq, Eq)]
pub enum Fault {
    Reach,
    Balance,
    NotOnce,
    Deadlock,
    Restless,
}

impl From<Unnumbered> for Fault {
    ghost from_gives = { λ e f. f ≡ fault_of e };

    fn from(e: Unnumbered) -> Fault {
        match e {
            Unnumbered::Unreached => Fault::Reach,
            Unnumbered::Unbalanced => Fault::Balance,
        }
    }
}

// Answers 7 and 8, or the repetition numbers in q. That the input reaches every actor comes with the numbers, and is looked at for
// itself only where there are none. `zero` holds actors that reach the output; `met` is lent to note an order in.
fn balance(
    chart: &Chart,
    zero: u64,
    q: &mut [u64],
    awaits: &mut [u64],
    met: &mut [u64],
) -> Result<(), Unnumbered>
    requires unskipped { Unskipped (net_graph chart.now.net.now) zero }
    requires actors_in_bounds { (chart.now.net.now.actors ≤ length q.old) × (chart.now.net.now.actors * chart.now.net.now.actors ≤ length chart.now.between.now) × (chart.now.net.now.actors ≤ length awaits.old) }
    ensures { BalanceAnswer (net_graph chart.now.net.now) result q.new awaits.new }
{
    if !reach::to_output(chart, zero) {
        return Err(Unnumbered::Unreached);
    }
    match repetition::repetition(chart, q, awaits, met) {
        Ok(()) => Ok(()),
        Err(Unnumbered::Unreached) => Err(Unnumbered::Unreached),
        Err(Unnumbered::Unbalanced) if reach::from_input(chart) => Err(Unnumbered::Unbalanced),
        Err(Unnumbered::Unbalanced) => Err(Unnumbered::Unreached),
    }
}

// 01, answer 11: whether before anything arrives no actor but the input may fire. `back` holds those that a channel keeps from it.
fn at_rest(net: &Net, back: u64) -> bool
    requires { KeptBack (net_graph net.now) back }
    ensures { Decides result (AtRest (net_graph net.now)) }
{
    covers(with(back, net.input, true), net.actors)
}

// The first of answers 7 to 11 that applies. Without one the repetition numbers stand in q and the skips in s. The slices after these
// are lent to work in: `neighbours` one for each actor, `between` one for each pair of them.
pub fn numbers(
    net: &Net,
    q: &mut [u64],
    s: &mut [u64],
    neighbours: &mut [Neighbours],
    between: &mut [u8],
    awaits: &mut [u64],
    kept: &mut [u32],
    tokens: &mut [u64],
    left: &mut [u64],
    ready: &mut [u64],
    into: &mut [u64],
    out: &mut [u64],
    hints: &mut [u64],
) -> Result<(), Fault>
    requires drawn { (net.now.actors ≤ length neighbours.old) × (net.now.actors * net.now.actors ≤ length between.old) }
    requires actors_in_bounds { (net.now.actors ≤ length q.old) × (net.now.actors ≤ length s.old) × (net.now.actors ≤ length awaits.old) × (length net.now.channels.now / 5 ≤ length kept.old / 5) }
    requires channels_in_bounds { (length net.now.channels.now / 5 ≤ length tokens.old) × (net.now.actors ≤ length left.old) × (net.now.actors ≤ length ready.old) }
    requires channels_in_bounds_2 { (net.now.actors + length net.now.channels.now / 5 ≤ length into.old) × (net.now.actors + length net.now.channels.now / 5 ≤ length out.old) × (0 < length hints.old) }
    ensures { Judged (net_graph net.now) result q.new s.new }
{
    let back = draw::draw(net, neighbours, between);
    let chart = Chart {
        net,
        neighbours,
        between,
    };
    let zero = reach::unskipped(&chart);
    balance(&chart, zero, q, awaits, left)?;
    if q[net.input] != 1 || q[net.output] != 1 {
        return Err(Fault::NotOnce);
    }
    let waiting = Waiting {
        net: chart.net,
        q,
        awaits,
    };
    if !knot::lives(&waiting, kept, s, tokens, left, ready, into, out, hints) {
        return Err(Fault::Deadlock);
    }
    if !at_rest(net, back) {
        return Err(Fault::Restless);
    }
    skip::skips(&chart, zero, into, q, s);
    Ok(())
}
