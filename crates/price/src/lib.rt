// The load-weighted price of an hour: an average that is built up one interval at a time.
#![tactic(auto)]

ghost use Rattle.std.specs.Prelude.{◌≡◌, ◌+◌, ◌*◌, ◌^◌, ◌<◌, ◌≤◌, length, FitsSigned};
ghost use Rattle.std.specs.Int.{w64};
ghost use Rattle.limits.specs.Ranges.{proved_points, proved_intervals};
ghost use Rattle.price.specs.Price.{average_of, average_price, load_weighted_within, load_weighted, answer_number};
ghost use Rattle.price.specs.Price.{answer_place, answer_price, answer_count};
ghost use Rattle.price.specs.Ranged.{Ranged};
ghost use Rattle.price.specs.Sums.{empty_sums, with_raised, average_from};

use units::{CentsOver100000, MarketPrice, Quantity, RaisedCentsOver100000, RaisedPrice};

// The sum of quantity × price over the intervals whose price is present, the sum of the same quantities, and how many these intervals are.
#[derive(Clone, Copy)]
pub struct Average {
    pub value: CentsOver100000,
    pub quantity: Quantity,
    pub count: u32,
}

// The price of an hour, and how many of its intervals have one.
#[derive(Clone, Copy, PartialEq, Eq)]
pub struct Priced {
    pub price: MarketPrice,
    pub count: u32,
}

// Why there is no price: under no quantity, how many intervals have a price is still told.
#[derive(Clone, Copy, PartialEq, Eq)]
pub enum PriceRefusal {
    BadLength,
    OutOfRange { pair: usize },
    NoQuantity { count: u32 },
}

// What an average is built up from, one interval at a time. A price is taken 2^31 higher: then no product is below 0, and a missing price, the lowest of all words,
// comes to 0. So every interval is added alike, without a branch, and the compiler takes several at a time.
#[derive(Clone, Copy)]
pub struct Sums {
    pub value: RaisedCentsOver100000,
    pub quantity: Quantity,
    pub count: u32,
}

impl Sums {
    pub fn empty() -> Sums
        ensures { result ≡ empty_sums }
    {
        Sums {
            value: RaisedCentsOver100000(0),
            quantity: Quantity(0),
            count: 0,
        }
    }

    // One interval more: a missing price leaves its quantity out too.
    #[tactic(auto, unfolding(crate::specs::Sums::with_raised))]
    pub fn with_interval(mut self, quantity: u32, price: u32) -> Sums
        requires value_fits { self.value.0 + 4294967295 * quantity < 2 ^ 64 }
        requires quantity_and_count_fit { (self.quantity.0 + quantity < 2 ^ 32) × (self.count + 1 < 2 ^ 32) }
        ensures { result ≡ with_raised self quantity price }
    {
        let raised = RaisedPrice(price.wrapping_add(limits::MISSING_PRICE));
        self.value = self.value + Quantity(quantity).at_raised_price(raised);
        self.quantity = self.quantity + Quantity(hour::counted(quantity, price));
        self.count += hour::present(price);
        self
    }

    #[tactic(auto, unfolding(crate::specs::Sums::average_from))]
    pub fn average(self) -> Average
        requires { FitsSigned w64 (average_from self).value.0 }
        ensures { result ≡ average_from self }
    {
        Average {
            value: self.value.lowered(self.quantity),
            quantity: self.quantity,
            count: self.count,
        }
    }
}

// The average of the first n intervals.
fn averaged(pairs: &[u8], n: usize) -> Average
    requires pairs_there { (n ≤ proved_intervals) × (8 * n ≤ length pairs.now) }
    requires ranged { Ranged pairs.now n }
    ensures { result ≡ average_of pairs.now n }
{
    let mut sums = Sums::empty();
    for i in 0..n {
        sums = sums.with_interval(words::word(pairs, 2 * i), words::word(pairs, 2 * i + 1));
    }
    sums.average()
}

// The price of n intervals whose numbers are in range: of a file that the check accepts, or past the call's own check.
#[tactic(auto, unfolding(crate::specs::Price::answer_of))]
pub fn average_price(pairs: &[u8], n: usize) -> Result<Priced, PriceRefusal>
    requires pairs_there { (n ≤ proved_intervals) × (8 * n ≤ length pairs.now) }
    requires ranged { Ranged pairs.now n }
    ensures { result ≡ average_price pairs.now n }
{
    let average = averaged(pairs, n);
    if average.quantity.0 == 0 {
        return Err(PriceRefusal::NoQuantity {
            count: average.count,
        });
    }
    Ok(Priced {
        price: average.value.per(average.quantity),
        count: average.count,
    })
}

// The price of an hour with one to `most` load points.
#[tactic(auto, unfolding(crate::specs::Price::load_weighted_within))]
fn load_weighted_within(most: usize, pairs: &[u8]) -> Result<Priced, PriceRefusal>
    requires { most ≤ proved_points }
    ensures { result ≡ load_weighted_within most pairs.now }
{
    if pairs.len() % 96 != 0 {
        return Err(PriceRefusal::BadLength);
    }
    if pairs.len() < 96 {
        return Err(PriceRefusal::BadLength);
    }
    if 96 * most < pairs.len() {
        return Err(PriceRefusal::BadLength);
    }
    let n = pairs.len() / 8;
    hour::intervals(0, pairs, 0, n).map_err(|refusal| PriceRefusal::OutOfRange {
        pair: refusal.place() / 2,
    })?;
    average_price(pairs, n)
}

// The load-weighted price of an hour's interval pairs.
#[tactic(auto, unfolding(crate::specs::Price::load_weighted))]
pub fn load_weighted(pairs: &[u8]) -> Result<Priced, PriceRefusal>
    ensures { result ≡ load_weighted pairs.now }
{
    load_weighted_within(limits::MOST_POINTS, pairs)
}

// The number of the answer (docs/RULES.md, section 11).
pub fn number(answer: Result<Priced, PriceRefusal>) -> u32
    ensures { result ≡ answer_number answer }
{
    match answer {
        Ok(_) => 0,
        Err(PriceRefusal::BadLength) => 1,
        Err(PriceRefusal::OutOfRange { .. }) => 9,
        Err(PriceRefusal::NoQuantity { .. }) => 11,
    }
}

// The place of the answer (docs/RULES.md, section 11).
pub fn place(answer: Result<Priced, PriceRefusal>) -> usize
    ensures { result ≡ answer_place answer }
{
    match answer {
        Err(PriceRefusal::OutOfRange { pair }) => pair,
        _ => 0,
    }
}

// The price; 0 for a refusal.
pub fn price_of(answer: Result<Priced, PriceRefusal>) -> i32
    ensures { result ≡ answer_price answer }
{
    match answer {
        Ok(priced) => priced.price.0,
        Err(_) => 0,
    }
}

// How many intervals have a price; 0 for a refusal for length or range.
pub fn count_of(answer: Result<Priced, PriceRefusal>) -> u32
    ensures { result ≡ answer_count answer }
{
    match answer {
        Ok(priced) => priced.count,
        Err(PriceRefusal::NoQuantity { count }) => count,
        Err(_) => 0,
    }
}
