// The channels of one actor's list, one after the other.
ghost use Rattle.std.specs.Prelude.{◌≡◌, ℕ, ◌+◌, ◌<◌, length, get_or, MatchOption};
ghost use Rattle.std.specs.Iterator.{at_most};
ghost use Rattle.trial.specs.Falling.{Falling};

// The channels of one actor's list, from a link on.
#[derive(Drop)]
pub struct Along<'a> {
    links: &'a [u64],
    actors: usize,
    at: u64,
    ghost falling: { Falling links.now actors at },
}

impl<'a> Along<'a> {
    // The channels of actor v's list.
    pub fn of(links: &'a [u64], actors: usize, v: usize) -> Along<'a>
        requires { (v < length links.now) × Falling links.now actors (get_or links.now v 0) }
        ensures { (result.links.now ≡ links.now) × (result.actors ≡ actors) × (result.at ≡ get_or links.now v 0) }
    {
        Along {
            links,
            actors,
            at: links[v],
        }
    }
}

impl<'a> Iterator for Along<'a> {
    type Item = usize;

    ghost next_gives = { λ s r t. (t.links.now ≡ s.links.now) × (t.actors ≡ s.actors) × MatchOption r (s.at ≡ 0) (λ c. (s.at ≡ c + 1) × (t.at ≡ get_or s.links.now (s.actors + c) 0)) };

    ghost remaining = { λ s. at_most s.at };

    fn next(&mut self) -> Option<usize> {
        let c = self.at.checked_sub(1)? as usize;
        self.at = self.links[self.actors + c];
        Some(c)
    }
}
