// One form made of the other: each part of a graph by itself, and from them the graphs.
ghost use Rattle.std.specs.Prelude.{◌≡◌, true, ◌++◌, ◌≤◌, ℕ, List, length, drop, Ok};
ghost use Rattle.units.specs.Bounds.{max_graphs};
ghost use Rattle.sheet.specs.Field.{Field};
ghost use Rattle.sheet.specs.Layout.{fixed_part, actor_part, channel_part};
ghost use Rattle.sheet.specs.Check.{sized, stretch, first_walk};
ghost use Rattle.sheet.specs.Forms.{layout_of};
ghost use Rattle.sheet.proofs.Parts.{Makes, OneByOne};

use sheet::layout::Form;

pub(crate) trait Turn: Form {
    type To: Form;

    type Entry;

    // What stands in the other form for fields, and for n graphs.
    ghost made: { List Field → List ℕ → List Self.Entry };

    ghost all: { ℕ → List ℕ → List Self.Entry };

    fn fixed(self, out: &mut [Self::Entry])
        requires { (Self.fixed ≤ length (Self.entries self)) × (Self.To.fixed ≤ length out.old) }
        ensures { out.new ≡ made (fixed_part 0) (Self.entries self) ++ drop Self.To.fixed out.old };

    // One worst-case time.
    fn time(self, out: &mut [Self::Entry])
        requires { (Self.actor ≤ length (Self.entries self)) × (Self.To.actor ≤ length out.old) }
        ensures { out.new ≡ made actor_part (Self.entries self) ++ drop Self.To.actor out.old };

    fn channel(self, out: &mut [Self::Entry])
        requires { (Self.channel ≤ length (Self.entries self)) × (Self.To.channel ≤ length out.old) }
        ensures { out.new ≡ made (channel_part 0) (Self.entries self) ++ drop Self.To.channel out.old };

    ghost parts: { Makes made Self.size Self.To.size };

    ghost one_by_one: { OneByOne made Self.size all };

    // The graph at the start of its stretch, into the first places of the other form.
    final fn graph(self, out: &mut [Self::Entry])
        requires { (sized (Self.entries self) ≡ true) × (stretch Self.size (Self.entries self) ≤ length (Self.entries self)) × (stretch Self.To.size (Self.entries self) ≤ length out.old) }
        ensures { out.new ≡ made (layout_of (Self.entries self)) (Self.entries self) ++ drop (stretch Self.To.size (Self.entries self)) out.old }
    {
        let actors = self.at(0);
        let channels = self.at(1);
        self.fixed(out);
        for k in 0..actors {
            self.from(Self::room(k, 0))
                .time(&mut out[Self::To::room(k, 0)..]);
        }
        for k in 0..channels {
            self.from(Self::room(actors, k))
                .channel(&mut out[Self::To::room(actors, k)..]);
        }
    }

    // How much n graphs take in the other form.
    final fn count(self, n: u64) -> usize
        requires { (n ≤ max_graphs) × (first_walk Self.size n 0 (Self.entries self) ≡ Ok tt) }
        ensures { result ≡ length (all n (Self.entries self)) }
    {
        let mut rest = self;
        let mut sum = 0;
        for _ in 0..n {
            let actors = rest.at(0);
            let channels = rest.at(1);
            sum += Self::To::room(actors, channels);
            rest = rest.from(Self::room(actors, channels));
        }
        sum
    }

    // n graphs, one after the other.
    final fn graphs(self, n: u64, out: &mut [Self::Entry])
        requires { (first_walk Self.size n 0 (Self.entries self) ≡ Ok tt) × (length (all n (Self.entries self)) ≤ length out.old) }
        ensures { out.new ≡ all n (Self.entries self) ++ drop (length (all n (Self.entries self))) out.old }
    {
        let mut rest = self;
        let mut to = 0;
        for _ in 0..n {
            rest.graph(&mut out[to..]);
            let actors = rest.at(0);
            let channels = rest.at(1);
            to += Self::To::room(actors, channels);
            rest = rest.from(Self::room(actors, channels));
        }
    }
}
