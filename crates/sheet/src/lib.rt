// The two forms of a load sheet, and answers 1 to 6 for both. Any bytes, any numbers.
#![tactic(auto)]

ghost use Rattle.std.specs.Prelude.{◌≡◌};
ghost use Rattle.sheet.specs.Answer.{number_of, place_of};

pub mod layout; // the two forms, and the room of a graph in each
pub mod check; // answers 1 to 5
pub mod graph; // one graph of the unpacked form that has passed them
pub mod range; // answer 6

// The refusals of document 01, with the graph's number where it gives a place.
#[derive(Clone, Copy, PartialEq, Eq)]
pub enum Refusal {
    Length,
    Version,
    Count,
    Cut(u64),
    Size(u64),
    Range(u64),
    Reach(u64),
    Balance(u64),
    NotOnce(u64),
    Deadlock(u64),
    Restless(u64),
    Frame,
    Question,
    Room,
    Number,
}

impl Refusal {
    pub fn number(self) -> u64
        ensures { result ≡ number_of self }
    {
        match self {
            Refusal::Length => 1,
            Refusal::Version => 2,
            Refusal::Count => 3,
            Refusal::Cut(_) => 4,
            Refusal::Size(_) => 5,
            Refusal::Range(_) => 6,
            Refusal::Reach(_) => 7,
            Refusal::Balance(_) => 8,
            Refusal::NotOnce(_) => 9,
            Refusal::Deadlock(_) => 10,
            Refusal::Restless(_) => 11,
            Refusal::Frame => 12,
            Refusal::Question => 13,
            Refusal::Room => 14,
            Refusal::Number => 15,
        }
    }

    pub fn place(self) -> u64
        ensures { result ≡ place_of self }
    {
        match self {
            Refusal::Cut(k)
            | Refusal::Size(k)
            | Refusal::Range(k)
            | Refusal::Reach(k)
            | Refusal::Balance(k)
            | Refusal::NotOnce(k)
            | Refusal::Deadlock(k)
            | Refusal::Restless(k) => k,
            _ => 0,
        }
    }
}
