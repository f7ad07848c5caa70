// What a call refuses, by the rules of docs/RULES.md, with its place. The answer of a call is `Result<(), Refusal>`.
#![tactic(auto)]

ghost use Rattle.std.specs.Prelude.{◌≡◌, ◌<◌};
ghost use Rattle.verdict.specs.Verdict.{number_of, place_of, refusal_number, refusal_place, coded};

use std::fmt;

// A case for each refusal of docs/RULES.md, in the order of their numbers. Each case's number and place are those of specs/Verdict.antt.
#[derive(Clone, Copy, Debug, PartialEq, Eq)]
pub enum Refusal {
    BadLength,
    BadEdition,
    BadAreaCount,
    BadDate,
    BadPeakHours,
    BadContents { word: usize },
    BadBodyHead { word: usize },
    BadCoordinator { place: usize },
    OutOfRange { place: usize },
    RunningDemandTooLarge { place: usize },
    PriceWithoutQuantity { place: usize },
    AmountWithoutDemand { place: usize },
    RoomTooShort { needed: usize },
    BadRecord,
    AmountBeyondRange,
    TooFewIntervals { place: usize },
    DayNotAfter,
    TooManyAreas,
    BadBook { word: usize },
    DaysDoNotFit,
    DateThereOrAbsent,
    BadBasis,
    PaymentRoomTooShort { needed: usize },
}

impl Refusal {
    // The number of the refusal (docs/RULES.md, section 10).
    pub fn number(self) -> u32
        ensures { result ≡ refusal_number self }
    {
        match self {
            Refusal::BadLength => 1,
            Refusal::BadEdition => 2,
            Refusal::BadAreaCount => 3,
            Refusal::BadDate => 4,
            Refusal::BadPeakHours => 5,
            Refusal::BadContents { .. } => 6,
            Refusal::BadBodyHead { .. } => 7,
            Refusal::BadCoordinator { .. } => 8,
            Refusal::OutOfRange { .. } => 9,
            Refusal::RunningDemandTooLarge { .. } => 10,
            Refusal::PriceWithoutQuantity { .. } => 11,
            Refusal::AmountWithoutDemand { .. } => 12,
            Refusal::RoomTooShort { .. } => 13,
            Refusal::BadRecord => 14,
            Refusal::AmountBeyondRange => 15,
            Refusal::TooFewIntervals { .. } => 16,
            Refusal::DayNotAfter => 18,
            Refusal::TooManyAreas => 19,
            Refusal::BadBook { .. } => 20,
            Refusal::DaysDoNotFit => 21,
            Refusal::DateThereOrAbsent => 22,
            Refusal::BadBasis => 23,
            Refusal::PaymentRoomTooShort { .. } => 24,
        }
    }

    // The place of the refusal (docs/RULES.md, section 10).
    pub fn place(self) -> usize
        ensures { result ≡ refusal_place self }
    {
        match self {
            Refusal::BadContents { word }
            | Refusal::BadBodyHead { word }
            | Refusal::BadBook { word } => word,
            Refusal::BadCoordinator { place }
            | Refusal::OutOfRange { place }
            | Refusal::RunningDemandTooLarge { place }
            | Refusal::PriceWithoutQuantity { place }
            | Refusal::AmountWithoutDemand { place }
            | Refusal::TooFewIntervals { place } => place,
            Refusal::RoomTooShort { needed } | Refusal::PaymentRoomTooShort { needed } => needed,
            Refusal::BadAreaCount => 2,
            Refusal::BadDate => 1,
            Refusal::BadPeakHours => 3,
            Refusal::BadLength
            | Refusal::BadEdition
            | Refusal::BadRecord
            | Refusal::AmountBeyondRange
            | Refusal::DayNotAfter
            | Refusal::TooManyAreas
            | Refusal::DaysDoNotFit
            | Refusal::DateThereOrAbsent
            | Refusal::BadBasis => 0,
        }
    }
}

// The number and the place, as the programs print them.
impl fmt::Display for Refusal {
    fn fmt<W: fmt::Write>(&self, f: &mut fmt::Formatter<W>) -> fmt::Result {
        write!(f, "{} {}", self.number(), self.place())
    }
}

// The number of a verdict: 0 where nothing is refused.
pub fn number(verdict: Result<(), Refusal>) -> u32
    ensures { result ≡ number_of verdict }
{
    match verdict {
        Ok(()) => 0,
        Err(refusal) => refusal.number(),
    }
}

// The place of a verdict: 0 where nothing is refused.
pub fn place(verdict: Result<(), Refusal>) -> usize
    ensures { result ≡ place_of verdict }
{
    match verdict {
        Ok(()) => 0,
        Err(refusal) => refusal.place(),
    }
}

// The answer as one number, from which both can be told. Every place that is coded is below 1,000,000.
pub fn code(verdict: Result<(), Refusal>) -> u64
    requires { place_of verdict < 1000000 }
    ensures { result ≡ coded verdict }
{
    1000000 * (number(verdict) as u64) + (place(verdict) as u64)
}
