// Why a call is refused, and the number that stands for each reason. The reasons are listed in the order in which they are looked at.
#![tactic(auto)]

ghost use Rattle.std.specs.Prelude.{◌≡◌};
ghost use Rattle.refusals.specs.Numbers.{number_of};

#[derive(Clone, Copy, Debug, PartialEq, Eq)]
pub enum Refusal {
    // The length of a slice is none of those listed.
    Unlisted,
    // The store isn't sound.
    Unsound,
    // Hashes aren't whole or too many, or a build's lists don't fit together.
    Malformed,
    // A setting is beyond its limit.
    Setting,
    // No recording can be of the set, or no query ask for it.
    Set,
    // The recording to be replaced isn't live.
    NotLive,
    // No row is free.
    NoRow,
    // There is no room for the postings.
    NoPostings,
    // There is no room for the keys that would be stopped.
    NoStops,
    // The scratch doesn't hold the votes.
    NoScratch,
}

impl Refusal {
    pub fn number(self) -> u32
        ensures { result ≡ number_of self }
    {
        match self {
            Refusal::Unlisted => 1,
            Refusal::Unsound => 2,
            Refusal::Malformed => 3,
            Refusal::Setting => 4,
            Refusal::Set => 9,
            Refusal::NotLive => 10,
            Refusal::NoRow => 5,
            Refusal::NoPostings => 6,
            Refusal::NoStops => 7,
            Refusal::NoScratch => 8,
        }
    }
}
