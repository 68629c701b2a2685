// 01, answer 7: every actor is reached from the input along channels and reaches the output.
ghost use Rattle.std.specs.Prelude.{◌≡◌, length};
ghost use Rattle.sets.specs.Decides.{Decides};
ghost use Rattle.trial.specs.Net.{net_graph};
ghost use Rattle.repeat.specs.Words.{AllFrom, AllTo, Unskipped};

use repeat::chart::Chart;
use sets::{covers, only, spread};

// Whether the input reaches every actor.
pub fn from_input(chart: &Chart) -> bool
    ensures { Decides result (AllFrom (net_graph chart.now.net.now) chart.now.net.now.input) }
{
    let met = spread(
        chart.net.actors,
        |v| chart.neighbours[v].heads,
        only(chart.net.input),
    );
    covers(met, chart.net.actors)
}

// Actors that cannot skip: the output, and the tails that are tied to one of them.
pub fn unskipped(chart: &Chart) -> u64
    ensures { Unskipped (net_graph chart.now.net.now) result }
{
    spread(
        chart.net.actors,
        |v| chart.neighbours[v].tied,
        only(chart.net.output),
    )
}

// Whether every actor reaches the output. Those in `zero` do.
pub fn to_output(chart: &Chart, zero: u64) -> bool
    requires { Unskipped (net_graph chart.now.net.now) zero }
    ensures { Decides result (AllTo (net_graph chart.now.net.now) chart.now.net.now.output) }
{
    if covers(zero, chart.net.actors) {
        return true;
    }
    let met = spread(chart.net.actors, |v| chart.neighbours[v].tails, zero);
    covers(met, chart.net.actors)
}
