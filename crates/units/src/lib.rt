// Ticks, firings and tokens: three counts that never stand for one another. The bounds of document 01 stand here once, each
// with the count that it bounds.
#![tactic(auto)]

ghost use Rattle.std.specs.Prelude.{◌≡◌, refl, ℕ, ◌+◌, ◌-◌, ◌*◌, ◌/◌, ◌^◌, ◌<◌};
ghost use Rattle.units.specs.Bounds.{max_ticks, max_time, max_repetition, max_outputs, max_rate, max_tokens};
ghost use Rattle.units.specs.Within.{within, ticks_within, firings_within, tokens_within};

// What the three have in common: a number, and the count of that number.
pub trait Count: Copy {
    ghost number: { Self → ℕ };

    ghost counted: { ℕ → Self };

    fn of(n: u64) -> Self
        ensures { result ≡ counted n };

    fn count(self) -> u64
        ensures { result ≡ number self };

    ghost same: { (n : ℕ) → number (counted n) ≡ n };

    final fn plus(self, other: Self) -> Self
        requires { number self + number other < 2 ^ 64 }
        ensures { number result ≡ number self + number other }
    {
        Self::of(self.count() + other.count())
    }

    // So many times this count: what firings of this time each take, say, or what they move on a channel of this rate.
    final fn times(self, k: Firings) -> Self
        requires { number self * k.n < 2 ^ 64 }
        ensures { number result ≡ number self * k.n }
    {
        Self::of(self.count() * k.count())
    }
}

// The count of n, if n is from low to high.
fn checked<C: Count>(low: u64, high: u64, n: u64) -> Option<C>
    ensures { result ≡ within C.counted low high n }
{
    if (low..=high).contains(&n) {
        Some(C::of(n))
    } else {
        None
    }
}

#[derive(Clone, Copy, PartialEq, Eq, PartialOrd, Ord)]
pub struct Ticks {
    n: u64,
}

#[derive(Clone, Copy, PartialEq, Eq, PartialOrd, Ord)]
pub struct Firings {
    n: u64,
}

#[derive(Clone, Copy, PartialEq, Eq, PartialOrd, Ord)]
pub struct Tokens {
    n: u64,
}

impl Count for Ticks {
    ghost number = { λ t. t.n };

    ghost counted = { λ n. record { n = n } };

    ghost same = { λ n. refl };

    fn of(n: u64) -> Self
        ensures { result.n ≡ n }
    {
        Self { n }
    }

    fn count(self) -> u64
        ensures { result ≡ self.n }
    {
        self.n
    }
}

impl Count for Firings {
    ghost number = { λ k. k.n };

    ghost counted = { λ n. record { n = n } };

    ghost same = { λ n. refl };

    fn of(n: u64) -> Self
        ensures { result.n ≡ n }
    {
        Self { n }
    }

    fn count(self) -> u64
        ensures { result ≡ self.n }
    {
        self.n
    }
}

impl Count for Tokens {
    ghost number = { λ m. m.n };

    ghost counted = { λ n. record { n = n } };

    ghost same = { λ n. refl };

    fn of(n: u64) -> Self
        ensures { result.n ≡ n }
    {
        Self { n }
    }

    fn count(self) -> u64
        ensures { result ≡ self.n }
    {
        self.n
    }
}

impl Ticks {
    // 01, Bounds: period and deadline; frame; interval length in a question.
    pub const MAX: u64 = 10_000_000;
    // 01, Bounds: worst-case time.
    pub const MAX_TIME: u64 = 100_000;

    // A period or a deadline.
    pub fn span(n: u64) -> Option<Self>
        ensures { result ≡ ticks_within 1 max_ticks n }
    {
        checked(1, Self::MAX, n)
    }

    // A frame, or the length in a question.
    pub fn length(n: u64) -> Option<Self>
        ensures { result ≡ ticks_within 0 max_ticks n }
    {
        checked(0, Self::MAX, n)
    }

    // A worst-case time.
    pub fn time(n: u64) -> Option<Self>
        ensures { result ≡ ticks_within 0 max_time n }
    {
        checked(0, Self::MAX_TIME, n)
    }
}

impl Firings {
    // 01, Bounds: repetition number.
    pub const MAX_REPETITION: u64 = 4_096;
    // 01, Bounds: K in a question.
    pub const MAX_OUTPUTS: u64 = 10_000_000;

    pub fn repetition(n: u64) -> Option<Self>
        ensures { result ≡ firings_within 1 max_repetition n }
    {
        checked(1, Self::MAX_REPETITION, n)
    }

    pub fn outputs(n: u64) -> Option<Self>
        ensures { result ≡ firings_within 0 max_outputs n }
    {
        checked(0, Self::MAX_OUTPUTS, n)
    }

    // 01, Fewest firings: 0 where the difference is negative.
    pub fn less(self, other: Firings) -> Firings
        ensures { result.n ≡ self.n - other.n }
    {
        Firings {
            n: self.n.saturating_sub(other.n),
        }
    }

    // What these firings move on a channel of this rate.
    pub fn tokens(self, rate: Tokens) -> Tokens
        requires { self.n * rate.n < 2 ^ 64 }
        ensures { result.n ≡ self.n * rate.n }
    {
        rate.times(self)
    }
}

impl Tokens {
    // 01, Bounds: produce and consume rate.
    pub const MAX_RATE: u64 = 4_096;
    // 01, Bounds: initial tokens.
    pub const MAX_INITIAL: u64 = 65_535;

    pub fn rate(n: u64) -> Option<Self>
        ensures { result ≡ tokens_within 1 max_rate n }
    {
        checked(1, Self::MAX_RATE, n)
    }

    pub fn initial(n: u64) -> Option<Self>
        ensures { result ≡ tokens_within 0 max_tokens n }
    {
        checked(0, Self::MAX_INITIAL, n)
    }

    // The firings at this rate that these tokens allow: rounded down, as skips are.
    pub fn firings(self, rate: Tokens) -> Firings
        requires { 0 < rate.n }
        ensures { result.n ≡ self.n / rate.n }
    {
        Firings { n: self.n / rate.n }
    }

    // The firings at this rate that these tokens ask for.
    pub fn firings_up(self, rate: Tokens) -> Firings
        requires { (0 < rate.n) × (self.n + (rate.n - 1) < 2 ^ 64) }
        ensures { result.n ≡ (self.n + (rate.n - 1)) / rate.n }
    {
        Firings {
            n: (self.n + (rate.n - 1)) / rate.n,
        }
    }
}
