// 01, answer 8: the repetition numbers, grown along the channels from the input. Each actor that gets a number makes all numbers
// so far the least multiples that leave its own whole; so every balanced vector is a multiple of them, and no number ever
// has to be corrected.
ghost use Rattle.std.specs.Prelude.{◌≡◌, true, ℕ, ◌*◌, ◌/◌, ◌%◌, ◌<◌, ◌≤◌, length};
ghost use Rattle.units.specs.Bounds.{max_rate, max_repetition};
ghost use Rattle.sdf.specs.Balance.{AtMost};
ghost use Rattle.trial.specs.Flat.{vector};
ghost use Rattle.trial.specs.Net.{net_graph};
ghost use Rattle.trial.specs.Read.{Read, seen};
ghost use Rattle.sets.specs.Decides.{Decides};
ghost use Rattle.trial.specs.Links.{heads, tails};
ghost use Rattle.trial.specs.Knot.{enough, Awaits};
ghost use Rattle.repeat.specs.Repetition.{LeastFactor, ScaleAnswer, Grown, Extends, GrowAnswer, SettleAnswer, RepetitionAnswer};

use super::chart::Chart;
use sets::{clear, common, covers, joined, least, mark, minus, only, with};
use trial::channel::Channel;
use trial::net::Net;
use units::{Count, Firings, Tokens};

// Why there are no numbers: no balanced vector within the bound, or an actor that the input does not reach.
#[derive(Clone, Copy, PartialEq, Eq)]
pub enum Unnumbered {
    Unbalanced,
    Unreached,
}

// Channel c of the graph.
fn read(net: &Net, c: usize) -> Channel
    requires { (c < length net.now.channels.now / 5) }
    ensures { Read (net_graph net.now) c (seen result) }
{
    Channel::at(net.channels, c)
}

// What so many firings move on a channel of this rate.
fn moved(firings: u64, rate: Tokens) -> Tokens
    requires { (firings ≤ max_repetition) × (rate.n ≤ max_rate) }
    ensures { result.n ≡ firings * rate.n }
{
    Firings::of(firings).tokens(rate)
}

// What c leaves of n, where n is below twice c.
fn left(n: u64, c: u64) -> u64
    requires { n < 2 * c }
    ensures { result ≡ n % c }
{
    if n < c { n } else { n - c }
}

// The least k for which `consume` divides k × `tokens`.
fn factor(tokens: Tokens, consume: Tokens) -> u64
    requires { (0 < consume.n) × (consume.n ≤ max_rate) }
    ensures { LeastFactor tokens.n consume.n result }
{
    let m = tokens.count();
    let c = consume.count();
    let step = m % c;
    let mut rest = step;
    let mut k = 1;
    while rest != 0 {
        rest = left(rest + step, c);
        k += 1;
    }
    k
}

// All numbers k times as large, unless one would pass the bound.
fn scale(actors: usize, k: u64, q: &mut [u64]) -> Result<(), Unnumbered>
    requires { (actors ≤ length q.old) × (k ≤ max_rate) × ((v : ℕ) → v < actors → vector q.old v ≤ max_repetition) }
    ensures { ScaleAnswer actors k result q.old q.new }
{
    if k == 1 {
        return Ok(());
    }
    for number in &mut q[..actors] {
        let n = *number * k;
        if Firings::MAX_REPETITION < n {
            return Err(Unnumbered::Unbalanced);
        }
        *number = n;
    }
    Ok(())
}

// Channel c, from an actor with a number to one without: all numbers get as large as its head's has to be whole, and its head gets
// one, unless one would pass the bound.
fn uneven(net: &Net, c: usize, q: &mut [u64]) -> Result<(), Unnumbered>
    requires drawn { (net.now.actors ≤ length q.old) × Grown (net_graph net.now) (vector q.old) × (c < length net.now.channels.now / 5) }
    requires nonzero { (0 < vector q.old (tails net.now.channels.now c)) × (vector q.old (heads net.now.channels.now c) ≡ 0) }
    ensures { Extends (net_graph net.now) c result q.old q.new }
{
    let e = read(net, c);
    let k = factor(moved(q[e.tail], e.produce), e.consume);
    scale(net.actors, k, q)?;
    let n = moved(q[e.tail], e.produce).firings(e.consume).count();
    if Firings::MAX_REPETITION < n {
        return Err(Unnumbered::Unbalanced);
    }
    q[e.head] = n;
    Ok(())
}

// The same, and most often the head's number is whole as it is.
fn extend(net: &Net, c: usize, q: &mut [u64]) -> Result<(), Unnumbered>
    requires drawn { (net.now.actors ≤ length q.old) × Grown (net_graph net.now) (vector q.old) × (c < length net.now.channels.now / 5) }
    requires nonzero { (0 < vector q.old (tails net.now.channels.now c)) × (vector q.old (heads net.now.channels.now c) ≡ 0) }
    ensures { Extends (net_graph net.now) c result q.old q.new }
{
    let e = read(net, c);
    let put = moved(q[e.tail], e.produce).count();
    let consume = e.consume.count();
    let n = put / consume;
    if n * consume != put {
        return uneven(net, c, q);
    }
    if Firings::MAX_REPETITION < n {
        return Err(Unnumbered::Unbalanced);
    }
    q[e.head] = n;
    Ok(())
}

// Actor v, met as number n. Where there is no room it is left out.
fn note(met: &mut [u64], n: usize, v: usize) -> usize {
    let Some(place) = met.get_mut(n) else {
        return n;
    };
    *place = v as u64;
    n + 1
}

// Numbers for all actors that the input reaches, from 1 at the input. They come into `met` in the order in which they are met.
fn grow(chart: &Chart, q: &mut [u64], met: &mut [u64]) -> Result<(), Unnumbered>
    requires { (chart.now.net.now.actors ≤ length q.old) × (chart.now.net.now.actors * chart.now.net.now.actors ≤ length chart.now.between.now) }
    ensures { GrowAnswer (net_graph chart.now.net.now) result q.new }
{
    let net = chart.net;
    let neighbours = chart.neighbours;
    clear(net.actors, q);
    q[net.input] = 1;
    let mut known = only(net.input);
    let mut todo = minus(neighbours[net.input].heads, known);
    let mut n = note(met, 0, net.input);
    while todo != 0 {
        let head = least(todo);
        let tail = least(common(neighbours[head].tails, known));
        let c = chart.between[net.actors * tail + head] as usize;
        extend(net, c, q)?;
        n = note(met, n, head);
        known = with(known, head, true);
        todo = minus(joined(todo, neighbours[head].heads), known);
    }
    if !covers(known, net.actors) {
        return Err(Unnumbered::Unreached);
    }
    Ok(())
}

// With so many tokens channel e lets its head fire all of q without its tail.
fn enough(e: Channel, put: Tokens) -> Tokens
    ensures { (q : ℕ → ℕ) → put.n ≡ q e.tail * e.produce.n → result.n ≡ enough (seen e) q }
{
    if e.tail == e.head { e.consume } else { put }
}

// 01, Balanced: on every channel tail's number × produce = head's number × consume. Then each actor's word holds those that it has to
// wait for.
fn settle(net: &Net, q: &[u64], awaits: &mut [u64]) -> Result<(), Unnumbered>
    requires { (net.now.actors ≤ length q.now) × AtMost (net_graph net.now) (vector q.now) (λ _. max_repetition) × (net.now.actors ≤ length awaits.old) }
    ensures { SettleAnswer (net_graph net.now) result q.now awaits.new }
{
    clear(net.actors, awaits);
    for c in 0..net.channel_count() {
        let e = read(net, c);
        let put = moved(q[e.tail], e.produce);
        if put != moved(q[e.head], e.consume) {
            return Err(Unnumbered::Unbalanced);
        }
        mark(awaits, e.head, e.tail, e.tokens < enough(e, put));
    }
    Ok(())
}

// The repetition numbers, into q. That the input reaches every actor comes with them, and for whom each actor has to wait.
pub fn repetition(
    chart: &Chart,
    q: &mut [u64],
    awaits: &mut [u64],
    met: &mut [u64],
) -> Result<(), Unnumbered>
    requires { (chart.now.net.now.actors ≤ length q.old) × (chart.now.net.now.actors * chart.now.net.now.actors ≤ length chart.now.between.now) × (chart.now.net.now.actors ≤ length awaits.old) }
    ensures { RepetitionAnswer (net_graph chart.now.net.now) result q.new awaits.new }
{
    grow(chart, q, met)?;
    settle(chart.net, q, awaits)
}
