// The ranges of docs/RULES.md, section 2, a name for each number, and the bounds that an edition of the day file sets. Whatever depends on an edition's bounds
// takes them as given numbers. specs/Ranges.antt and specs/Editions.antt have the same names.
#![tactic(auto)]

ghost use Rattle.std.specs.Prelude.{◌≡◌};
ghost use Rattle.limits.specs.Editions.{edition_one, limits_of, bytes_allowed};

// ---- ranges

pub const DAY_HOURS: usize = 24;
// an upward and a downward one for each hour
pub const DAY_PAYMENTS: usize = 2 * DAY_HOURS;

pub const MOST_DEFICIENCY: u32 = 2500000;

pub const MOST_REQUIREMENT: u32 = 50000000;
// of MEC and of an interval price, by its magnitude
pub const MOST_MARKET_PRICE: u32 = 20000000;
// of an interval
pub const MOST_QUANTITY: u32 = 10000000;
// of the 12 interval prices for each load point, where the hour's price is needed
pub const LEAST_PRESENT: usize = 9;
// of a coordinator, and of all in an hour
pub const MOST_DEMAND: u32 = 100000000;
// by its magnitude
pub const MOST_HUB_PRICE: u32 = 200000;

pub const MOST_DAYS: u32 = 30;
// of the record of failing days
pub const RECORDED_DAYS: u32 = 30;
// of an area in an hour, and of all areas together
pub const MOST_BASIS: u32 = 10000000;
// of an area and of a coordinator
pub const LARGEST_NUMBER: u32 = 2147483647;

pub const MOST_COORDINATORS: usize = 64;

pub const LEAST_BODY_WORDS: usize = 800;
// an amount to be shared, by its magnitude
pub const MOST_AMOUNT: i64 = 10000000000;

// ---- words that are no number

// hours ending 7 to 22
pub const PEAK_WORD: u32 = 4194240;
// an interval price that is missing: -2,147,483,648 as a word
pub const MISSING_PRICE: u32 = 2147483648;

// ---- room for every area: no edition has more

pub const PROVED_AREAS: usize = 32;

// ---- editions

// over all editions
pub const MOST_AREAS: usize = 8;
// by the record of failing days
pub const MOST_HELD: usize = MOST_AREAS;

pub const MOST_POINTS: usize = 2;

pub const MOST_BYTES: usize = 65536;

#[derive(Clone, Copy, PartialEq, Eq, Debug)]
pub struct Limits {
    // the most areas in a file
    pub areas: u32,
    // the most load points in an area
    pub points: u32,
    // the most words in a body
    pub words: u32,
    // the most bytes in a file; none: the contents alone bound them
    pub bytes: Option<usize>,
}

#[tactic(auto, unfolding(crate::specs::Editions::edition_one))]
pub fn edition_one() -> Limits
    ensures { result ≡ edition_one }
{
    Limits {
        areas: MOST_AREAS as u32,
        points: MOST_POINTS as u32,
        words: 2951,
        bytes: Some(MOST_BYTES),
    }
}

// The limits of a file by its first word. Edition 1 is the only one.
#[tactic(auto, unfolding(crate::specs::Editions::limits_of))]
pub fn limits_of(edition: u32) -> Limits
    ensures { result ≡ limits_of edition }
{
    edition_one()
}

pub fn allows(limits: Limits, bytes: usize) -> bool
    ensures { result ≡ bytes_allowed limits bytes }
{
    limits.bytes.is_none_or(|most| bytes <= most)
}
