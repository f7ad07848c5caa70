// What the amounts of an hour rest on: the numbers that settling works out on its way and that no statement shows. Each is asked of the
// function that settling asks.
#![tactic(auto)]

ghost use Rattle.std.specs.Prelude.{◌≡◌, cond};
ghost use Rattle.exact.specs.Total.{total};
ghost use Rattle.body.specs.Layout.{hour_at, mec_at, demands_of};
ghost use Rattle.amounts.specs.Amounts.{downward_from, amount_at, price_answer_at};
ghost use Rattle.explaining.specs.Explaining.{multiplier_of, shortage_at, priced_of};

use amounts::DayHour;
use price::{PriceRefusal, Priced};
use units::{Cents, MarketPrice, Quantity};

// The shortage of an hour: U, Q and the tier, whether it is a peak hour and needs its price, and m in quarters. The two truth values are facts
// that are shown, each by itself, and no flags of another field.
#[derive(Clone, Copy)]
pub struct Shortage {
    pub upward: Quantity,
    pub requirement: Quantity,
    pub tier: u32,
    pub peak: bool,
    pub needed: bool,
    pub quarters: u32,
}

// The price of an hour, where it has one, and how many of its intervals have one.
#[derive(Clone, Copy)]
pub struct HourPrice {
    pub price: Option<MarketPrice>,
    pub count: u32,
}

// m of a tier in quarters; 0 under tier 0 and 1, where nothing is multiplied.
pub fn multiplier(tier: u32) -> u32
    ensures { result ≡ multiplier_of tier }
{
    if tier <= 1 {
        return 0;
    }
    surcharge::quarters_of(tier)
}

// The multiplier of the tier that an hour's amount goes by: the day's in a peak hour, its own in any other.
fn hour_multiplier(peak: bool, day: u32, tier: u32) -> u32
    ensures { result ≡ multiplier_of (cond peak day tier) }
{
    if peak {
        return multiplier(day);
    }
    multiplier(tier)
}

// The shortage of the hour.
#[tactic(auto, using(amounts::proofs::Hours::hour_there))]
pub fn hour_shortage(hour: DayHour) -> Shortage
    ensures { result ≡ shortage_at hour.entry.terms hour.entry.body.now hour.entry.h }
{
    let body = hour.body;
    let facts = amounts::hour_facts(true, body, hour.at);
    let tier = facts.tier;
    let requirement = Quantity(words::word(body, hour.at + 6));
    let peak = surcharge::peak_hour(hour.terms, hour.h);
    let needed = surcharge::price_needed(words::word(body, 1), peak, hour.day.tier, tier);
    let quarters = hour_multiplier(peak, hour.day.tier, tier);
    Shortage {
        upward: facts.upward,
        requirement,
        tier,
        peak,
        needed,
        quarters,
    }
}

fn priced_by(answer: Result<Priced, PriceRefusal>) -> HourPrice
    ensures { result ≡ priced_of answer }
{
    HourPrice {
        price: answer.ok().map(|priced| priced.price),
        count: price::count_of(answer),
    }
}

// The price of the hour.
#[tactic(auto, using(amounts::proofs::Hours::hour_there))]
pub fn hour_price(hour: DayHour) -> HourPrice
    ensures { result ≡ priced_of (price_answer_at hour.entry.body.now hour.entry.h) }
{
    priced_by(hour.price())
}

// A of the hour.
#[tactic(auto, using(amounts::proofs::AmountSizes::amount_is))]
pub fn hour_amount(hour: DayHour) -> Cents
    ensures { result.0 ≡ amount_at hour.entry.terms hour.entry.body.now hour.entry.h }
{
    amounts::amount_of(hour.amounts(hour.needed_price()))
}

// T of the hour.
#[tactic(auto, using(statement::proofs::Demands::demands_ranged))]
pub fn hour_demand(hour: DayHour) -> u32
    ensures { result ≡ total (demands_of hour.entry.body.now hour.entry.h) }
{
    let load = words::word(hour.body, 5) as usize;
    let count = words::word(hour.body, 6) as usize;
    shares::sum_of_words(hour.body, hour.at + 8 + 24 * load, count)
}

// W of the hour.
#[tactic(auto, using(amounts::proofs::Hours::hour_there))]
pub fn hour_downward(hour: DayHour) -> Quantity
    ensures { result.0 ≡ downward_from hour.entry.body.now (hour_at hour.entry.body.now hour.entry.h) }
{
    amounts::downward_quantity(hour.body, hour.at)
}

// MEC of the hour.
#[tactic(auto, using(amounts::proofs::Hours::hour_there))]
pub fn hour_mec(hour: DayHour) -> i32
    ensures { result ≡ mec_at hour.entry.body.now hour.entry.h }
{
    words::signed(words::word(hour.body, hour.at + 7))
}
