// One graph of the unpacked form: the fixed part, a worst-case time for each actor, five numbers for each channel.
ghost use Rattle.std.specs.Prelude.{◌≡◌, true, ◌*◌, ◌≤◌, length, get_or, drop};
ghost use Rattle.units.specs.Bounds.{max_actors, max_channels};
ghost use Rattle.sheet.specs.Layout.{in_numbers};
ghost use Rattle.sheet.specs.Check.{actor_count, channel_count, times_of, channels_of, sized, stretch};

use super::layout::{CHANNEL, FIXED, Form};
use units::{Count, Ticks};

// It stands at the start of these numbers. `counts` and `whole` say that its counts are within bounds and that all of it is there
// (01, answers 4 and 5).
#[derive(Drop)]
pub struct Graph<'a> {
    pub numbers: &'a [u32],
    pub ghost counts: { sized numbers.now ≡ true },
    pub ghost whole: { stretch in_numbers numbers.now ≤ length numbers.now },
}

#[tactic(auto, using(crate::proofs::Ranges::graph_there))]
impl<'a> Graph<'a> {
    pub fn actors(&self) -> usize
        ensures { (result ≡ actor_count self.now.numbers.now) × (1 ≤ result) × (result ≤ max_actors) }
    {
        self.numbers[0] as usize
    }

    fn channel_count(&self) -> usize
        ensures { (result ≡ channel_count self.now.numbers.now) × (result ≤ max_channels) }
    {
        self.numbers[1] as usize
    }

    pub fn input(&self) -> usize
        ensures { result ≡ get_or self.now.numbers.now 2 0 }
    {
        self.numbers[2] as usize
    }

    pub fn output(&self) -> usize
        ensures { result ≡ get_or self.now.numbers.now 3 0 }
    {
        self.numbers[3] as usize
    }

    pub fn period(&self) -> Ticks
        ensures { result.n ≡ get_or self.now.numbers.now 4 0 }
    {
        Ticks::of(self.numbers[4] as u64)
    }

    pub fn deadline(&self) -> Ticks
        ensures { result.n ≡ get_or self.now.numbers.now 5 0 }
    {
        Ticks::of(self.numbers[5] as u64)
    }

    // Worst-case times, one for each actor.
    pub fn times(&self) -> &'a [u32]
        ensures { (result.now ≡ times_of self.now.numbers.now) × (length result.now ≡ actor_count self.now.numbers.now) }
    {
        &self.numbers[FIXED..FIXED + self.actors()]
    }

    // Five numbers for each channel.
    pub fn channels(&self) -> &'a [u32]
        ensures { (result.now ≡ channels_of self.now.numbers.now) × (length result.now ≤ 5 * max_channels) }
    {
        let first = FIXED + self.actors();
        &self.numbers[first..first + CHANNEL * self.channel_count()]
    }

    // How many numbers it has.
    #[tactic(auto, unfolding(crate::specs::Check::stretch))]
    fn stretch(&self) -> usize
        ensures { result ≡ stretch in_numbers self.now.numbers.now }
    {
        <&[u32]>::room(self.actors(), self.channel_count())
    }

    // The numbers behind it.
    pub fn behind(&self) -> &'a [u32]
        ensures { result.now ≡ drop (stretch in_numbers self.now.numbers.now) self.now.numbers.now }
    {
        &self.numbers[self.stretch()..]
    }
}
