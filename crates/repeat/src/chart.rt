// A graph with what `draw` fills in.
ghost use Rattle.trial.specs.Net.{net_graph};
ghost use Rattle.repeat.specs.Words.{Words, Between};

use super::draw::Neighbours;
use trial::net::Net;

// A graph, each actor's neighbours, and for each pair of actors that a channel joins such a channel. `words` says that the sets are
// right, but not which channel put an actor in: the proofs look for one.
#[derive(Drop)]
pub struct Chart<'a> {
    pub net: &'a Net<'a>,
    pub neighbours: &'a [Neighbours],
    pub between: &'a [u8],
    pub ghost words: { ∥ Words (net_graph net.now) neighbours.now ∥₁ },
    pub ghost channels: { Between (net_graph net.now) neighbours.now between.now },
}
