// Graphs on both sides of each line of answers 7 to 11 (01), through the engine: a line for each, with the answer and, where that
// is 0, the repetition numbers and the skips.
#![tactic(auto)]

ghost use Rattle.trial.specs.Flat.{graph_of};
ghost use Rattle.trial.specs.Net.{net_graph};
ghost use Rattle.graphs.specs.Small.{Small};

use graph::Fault;
use repeat::draw::Neighbours;
use std::io;
use trial::net::Net;

// 01's number of the answer.
fn number(answer: Result<(), Fault>) -> u64 {
    match answer {
        Ok(()) => 0,
        Err(Fault::Reach) => 7,
        Err(Fault::Balance) => 8,
        Err(Fault::NotOnce) => 9,
        Err(Fault::Deadlock) => 10,
        Err(Fault::Restless) => 11,
    }
}

// A graph that is written out below.
#[tactic(auto, using(crate::proofs::Small::small_drawn))]
fn net(actors: usize, input: usize, output: usize, channels: &[u32]) -> Net<'_>
    requires { Small (graph_of actors input output channels.now) }
    ensures { Small (net_graph result) }
{
    Net {
        actors,
        input,
        output,
        channels,
    }
}

fn print(rt: &impl Print, values: &[u64]) -> io::Result<()> {
    for value in values {
        print!(rt; " {value}")?;
    }
    Ok(())
}

fn judge(rt: &impl Print, net: &Net) -> io::Result<()>
    requires { Small (net_graph net.now) }
{
    let mut q = [0u64; 3];
    let mut s = [0u64; 3];
    let mut neighbours = [Neighbours::NOBODY; 3];
    let mut between = [0u8; 9];
    let mut awaits = [0u64; 3];
    let mut kept = [0u32; 10];
    let mut tokens = [0u64; 2];
    let mut left = [0u64; 3];
    let mut ready = [0u64; 3];
    let mut into = [0u64; 5];
    let mut out = [0u64; 5];
    let mut hints = [0u64; 1];
    let answer = graph::numbers(
        net,
        &mut q,
        &mut s,
        &mut neighbours,
        &mut between,
        &mut awaits,
        &mut kept,
        &mut tokens,
        &mut left,
        &mut ready,
        &mut into,
        &mut out,
        &mut hints,
    );
    print!(rt; "{}", number(answer))?;
    if answer.is_ok() {
        print(rt, &q[..net.actors])?;
        print(rt, &s[..net.actors])?;
    }
    println!(rt;)
}

// Actors, input, output; then the channels: tail, head, produce, consume, tokens.
fn main(rt: HostRuntime) -> io::Result<()> {
    judge(&rt, &net(3, 0, 2, &[0, 1, 3, 1, 0, 1, 2, 1, 3, 0]))?; // the chain
    judge(&rt, &net(3, 0, 2, &[0, 1, 3, 1, 0, 1, 2, 1, 3, 2]))?; // C1
    judge(&rt, &net(3, 0, 2, &[0, 1, 3, 1, 0, 1, 2, 1, 3, 3]))?; // C3
    judge(&rt, &net(2, 0, 1, &[0, 1, 1, 1, 0, 1, 0, 1, 1, 0]))?; // E1
    judge(&rt, &net(2, 0, 1, &[0, 1, 1, 1, 0, 1, 0, 1, 1, 1]))?; // E2
    judge(&rt, &net(2, 0, 1, &[0, 1, 1, 1, 0, 0, 1, 2, 1, 0]))?; // F1
    judge(&rt, &net(2, 0, 1, &[0, 1, 2, 3, 0]))?; // F2
    judge(&rt, &net(3, 0, 2, &[0, 1, 4096, 1, 0, 1, 2, 1, 4096, 0]))?; // F3
    judge(&rt, &net(3, 0, 2, &[0, 1, 4096, 1, 0, 1, 2, 2, 1, 0]))?; // F4
    judge(&rt, &net(2, 0, 1, &[]))?; // F5
    judge(&rt, &net(2, 0, 1, &[0, 1, 1, 1, 0, 0, 1, 1, 1, 0]))?; // two equal channels
    judge(&rt, &net(2, 0, 1, &[0, 1, 1, 1, 0, 1, 1, 2, 2, 0]))?; // a self-loop without tokens
    judge(&rt, &net(2, 0, 1, &[0, 1, 1, 1, 0, 1, 1, 2, 2, 2]))?; // and with
    judge(&rt, &net(1, 0, 0, &[]))?; // one actor, no channel
    judge(&rt, &net(2, 0, 0, &[0, 1, 2, 1, 0, 1, 0, 1, 2, 2]))?; // a ring, input and output one actor
    Ok(())
}
