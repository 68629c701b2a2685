// 01, Skip numbers: found from above, in one vector. Every actor starts at more than it can skip, those that cannot skip at 0, and
// each channel lowers its tail to what it allows until none does. The channels into an actor are looked at again only after its
// skip fell.
ghost use Rattle.std.specs.Prelude.{◌≡◌, ℕ, ◌+◌, ◌*◌, ◌-◌, ◌/◌, ◌^◌, ◌<◌, ◌≤◌, length, get_or};
ghost use Rattle.units.specs.Bounds.{engine_actors, max_tokens, max_repetition};
ghost use Rattle.sdf.specs.Graph.{Reached};
ghost use Rattle.sdf.specs.Skip.{Skips, allowed as allows};
ghost use Rattle.trial.specs.Flat.{vector};
ghost use Rattle.trial.specs.Net.{net_graph, LinkedInto};
ghost use Rattle.trial.specs.Read.{seen};
ghost use Rattle.sets.specs.Decides.{Decides};
ghost use Rattle.repeat.specs.Repetition.{Repeats};
ghost use Rattle.graph.specs.Skip.{Highest, Falling, Entries, Lowered};
ghost use Rattle.repeat.specs.Words.{Unskipped};

use repeat::chart::Chart;
use sets::{common, covers, greatest, has, joined, minus, with, without};
use trial::along::Along;
use trial::channel::Channel;
use trial::links::{End, link};
use trial::net::Net;
use units::{Count, Firings, Tokens};

// The tokens that a channel leaves its tail to skip, given its head's skip.
fn spare(e: Channel, skip: Firings) -> Tokens
    requires { e.tokens.n + skip.n * e.consume.n < 2 ^ 64 }
    ensures { result.n ≡ e.tokens.n + skip.n * e.consume.n }
{
    e.tokens.plus(skip.tokens(e.consume))
}

// What a channel allows its tail, given its head's skip.
fn allowed(e: Channel, skip: Firings) -> Firings
    requires { (0 < e.produce.n) × (e.tokens.n + skip.n * e.consume.n < 2 ^ 64) }
    ensures { result.n ≡ allows (seen e) skip.n }
{
    spare(e, skip).firings(e.produce)
}

// Whether a channel allows its tail less than this. It is asked of every channel, so without a division.
fn lowers(e: Channel, skip: Firings, from: Firings) -> bool
    requires { (0 < e.produce.n) × (e.tokens.n + skip.n * e.consume.n < 2 ^ 64) × (from.n * e.produce.n < 2 ^ 64) }
    ensures { Decides result (allows (seen e) skip.n < from.n) }
{
    spare(e, skip) < from.tokens(e.produce)
}

// At least what an actor of this repetition number can skip.
fn above(actors: usize, repetition: Firings) -> Firings
    requires { (actors ≤ engine_actors) × (repetition.n ≤ max_repetition) }
    ensures { result.n ≡ actors * max_tokens * repetition.n }
{
    let most = actors as u64 * Tokens::MAX_INITIAL;
    Firings::of(most).times(repetition)
}

// Actors in `zero` start at 0, the others at more than they can skip.
fn start(actors: usize, zero: u64, q: &[u64], s: &mut [u64])
    requires { (actors ≤ engine_actors) × (actors ≤ length q.now) × (actors ≤ length s.old) × ((v : ℕ) → v < actors → get_or q.now v 0 ≤ max_repetition) }
    ensures { Highest actors zero (vector q.now) (vector s.new) }
{
    for (v, skip) in s[..actors].iter_mut().enumerate() {
        *skip = if has(zero, v) == 0 {
            above(actors, Firings::of(q[v])).count()
        } else {
            0
        };
    }
}

// The channels into actor h lower their tails to what they allow. Returns the tails that fell.
fn lower(net: &Net, into: &[u64], zero: u64, h: usize, s: &mut [u64]) -> u64
    requires drawn { LinkedInto net.now into.now × (h < net.now.actors) × (net.now.actors ≤ length s.old) }
    requires falling { Falling (net_graph net.now) zero (vector s.old) }
    ensures { Lowered (net_graph net.now) zero h result s.old s.new }
{
    let mut fell = 0;
    for c in Along::of(into, net.actors, h) {
        let e = Channel::at(net.channels, c);
        let skip = Firings::of(s[h]);
        if lowers(e, skip, Firings::of(s[e.tail])) {
            s[e.tail] = allowed(e, skip).count();
            fell = with(fell, e.tail, true);
        }
    }
    fell
}

// Those of `zero` with a tail outside it: only the channels into them may lower a tail at first.
fn entries(chart: &Chart, zero: u64) -> u64
    ensures { Entries (net_graph chart.now.net.now) zero result }
{
    let mut set = 0;
    for v in 0..chart.net.actors {
        set = with(set, v, minus(chart.neighbours[v].tails, zero) != 0);
    }
    common(set, zero)
}

// `into` is lent to work in.
pub fn skips(chart: &Chart, zero: u64, into: &mut [u64], q: &[u64], s: &mut [u64])
    requires drawn { (Reached (net_graph chart.now.net.now)) × (chart.now.net.now.actors ≤ length q.now) × (chart.now.net.now.actors ≤ length s.old) × (Repeats (net_graph chart.now.net.now) q.now) }
    requires unskipped { Unskipped (net_graph chart.now.net.now) zero × (chart.now.net.now.actors + length chart.now.net.now.channels.now / 5 ≤ length into.old) }
    ensures { Skips (net_graph chart.now.net.now) (vector s.new) }
{
    let net = chart.net;
    start(net.actors, zero, q, s);
    if covers(zero, net.actors) {
        return;
    }
    link(net, End::Head, into);
    let mut todo = entries(chart, zero);
    while todo != 0 {
        let h = greatest(todo);
        let fell = lower(net, into, zero, h, s);
        todo = joined(without(todo, h), fell);
    }
}
