// The surcharge by its formulas: tiers, peak hours, S, the credit, and each amount, over plain numbers.
#![tactic(auto)]

ghost use Rattle.std.specs.Prelude.{◌≡◌, ◌≤◌, nat_abs};
ghost use Rattle.limits.specs.Ranges.{most_market_price, most_hub_price, most_upward};
ghost use Rattle.surcharge.specs.Surcharge.{tier_of, peak_hour, quarters, scaled_multiplier, surcharge_of, credit_of, on_peak_of, off_peak_of, downward_of};
ghost use Rattle.surcharge.specs.Surcharge.{surcharge_in_cents, credit_in_cents, greater_price, needs_price, day_of};
ghost use Rattle.surcharge.specs.Ranges.{TermsKept, DayRanged};

use units::{
    Cents, CentsOver, CentsOver400000, CentsOver40000000, HubPrice, MarketPrice, Quantity,
};

// Up to 10 MW a shortage is of tier 1.
const TIER_FLOOR: u32 = 10000;

// Up to 10 MW there is no downward amount.
const DOWNWARD_FLOOR: u32 = 10000;

// What an area's day is settled under: the file's peak word, and the area's persistent days d.
#[derive(Clone, Copy)]
pub struct Terms {
    pub peak: u32,
    pub days: u32,
}

// The facts of an area's day: day tier, M, and S, which every peak hour has: exact, and as it is shown.
#[derive(Clone, Copy)]
pub struct Day {
    pub tier: u32,
    pub most: Quantity,
    pub surcharge: CentsOver400000,
    pub shown: Cents,
}

// What a peak hour comes to, and the credit that was taken off: each rounded once, from what is exact.
#[derive(Clone, Copy)]
pub struct OnPeak {
    pub amount: Cents,
    pub credit: Cents,
}

// The tier of an hour; nothing is rounded.
// A tier stays a number, 0 to 3: that is what the clauses of these public functions promise, and the rules compare tiers as numbers.
pub fn tier(upward: Quantity, requirement: Quantity) -> u32
    requires { upward.0 ≤ most_upward }
    ensures { result ≡ tier_of upward.0 requirement.0 }
{
    let u = upward.0;
    let q = requirement.0;
    if u == 0 {
        return 0;
    }
    if u <= TIER_FLOOR {
        return 1;
    }
    if 100 * u <= q {
        return 1;
    }
    if 2 * u <= q {
        return 2;
    }
    3
}

pub fn peak_hour(terms: Terms, h: usize) -> bool
    ensures { result ≡ peak_hour terms h }
{
    if terms.peak == 0 {
        return false;
    }
    if h < 6 {
        return false;
    }
    h <= 21
}

// m in quarters.
pub fn quarters_of(tier: u32) -> u32
    ensures { result ≡ quarters tier }
{
    if tier == 2 {
        return 5;
    }
    8
}

// m × (1 + d/100), in four-hundredths.
fn scaled_multiplier(terms: Terms, tier: u32) -> u32
    requires { TermsKept terms }
    ensures { result ≡ scaled_multiplier terms tier }
{
    quarters_of(tier) * (100 + terms.days)
}

pub fn price_needed(flag: u32, peak: bool, day: u32, tier: u32) -> bool
    ensures { result ≡ needs_price flag peak day tier }
{
    if flag != 1 {
        return false;
    }
    if !peak {
        return 2 <= tier;
    }
    if day < 2 {
        return false;
    }
    tier == 0
}

// The terms do not enter into it.
#[tactic(auto, unfolding(crate::specs::Surcharge::downward_of))]
pub fn downward(terms: Terms, quantity: Quantity, mec: MarketPrice) -> Cents
    ensures { result.0 ≡ downward_of terms quantity.0 mec.0 }
{
    if quantity.0 <= DOWNWARD_FLOOR {
        return Cents(0);
    }
    quantity.at_market_price(mec).at_most_zero().rounded()
}

// Of the hour's own U and tier.
#[tactic(auto, unfolding(crate::specs::Surcharge::off_peak_of))]
pub fn off_peak(terms: Terms, upward: Quantity, tier: u32, price: MarketPrice) -> Cents
    requires terms_kept { TermsKept terms }
    requires in_range { (upward.0 ≤ most_upward) × (nat_abs price.0 ≤ most_market_price) }
    ensures { result.0 ≡ off_peak_of terms upward.0 tier price.0 }
{
    if tier <= 1 {
        return Cents(0);
    }
    let scaled: CentsOver40000000 = upward
        .at_market_price(price)
        .scaled(scaled_multiplier(terms, tier));
    scaled.at_least_zero().rounded()
}

// S, over 400,000.
#[tactic(auto, unfolding(crate::specs::Surcharge::surcharge_of))]
fn surcharge(terms: Terms, tier: u32, most: Quantity, hub: HubPrice) -> CentsOver400000
    requires { (TermsKept terms) × ((most.0 ≤ most_upward) × (nat_abs hub.0 ≤ most_hub_price)) }
    ensures { result.0 ≡ surcharge_of terms most.0 hub.0 tier }
{
    most.at_hub_price(hub)
        .scaled(scaled_multiplier(terms, tier))
        .at_least_zero()
}

// S as it is shown on a day of this tier.
#[tactic(auto, unfolding(crate::specs::Surcharge::surcharge_in_cents))]
fn surcharge_in_cents(surcharge: CentsOver400000, tier: u32) -> Cents
    ensures { result.0 ≡ surcharge_in_cents surcharge.0 tier }
{
    if tier <= 1 {
        return Cents(0);
    }
    surcharge.rounded()
}

// The facts of a day with this tier, M and P.
#[tactic(auto, unfolding(crate::specs::Surcharge::day_of))]
pub fn day_of(terms: Terms, tier: u32, most: Quantity, hub: HubPrice) -> Day
    requires { (TermsKept terms) × ((most.0 ≤ most_upward) × (nat_abs hub.0 ≤ most_hub_price)) }
    ensures { result ≡ day_of terms tier most.0 hub.0 }
{
    let surcharge = surcharge(terms, tier, most, hub);
    let shown = surcharge_in_cents(surcharge, tier);
    Day {
        tier,
        most,
        surcharge,
        shown,
    }
}

// The credit of a peak hour, over 400,000.
#[tactic(auto, unfolding(crate::specs::Surcharge::credit_of))]
fn credit(most: Quantity, tier: u32, price: MarketPrice) -> CentsOver400000
    requires { (most.0 ≤ most_upward) × (nat_abs price.0 ≤ most_market_price) }
    ensures { result.0 ≡ credit_of most.0 tier price.0 }
{
    if tier == 0 {
        return most.at_market_price(price).over_400000();
    }
    CentsOver(0)
}

#[tactic(auto, unfolding(crate::specs::Surcharge::on_peak_of, crate::specs::Surcharge::credit_in_cents))]
pub fn on_peak(day: Day, tier: u32, price: MarketPrice) -> OnPeak
    requires { (DayRanged day) × (nat_abs price.0 ≤ most_market_price) }
    ensures { (result.amount.0 ≡ on_peak_of day.surcharge.0 day.most.0 day.tier tier price.0)
        × (result.credit.0 ≡ credit_in_cents day.most.0 day.tier tier price.0) }
{
    if day.tier <= 1 {
        return OnPeak {
            amount: Cents(0),
            credit: Cents(0),
        };
    }
    let surcharge = day.surcharge;
    let credit = credit(day.most, tier, price);
    OnPeak {
        amount: (surcharge - credit).at_least_zero().rounded(),
        credit: credit.rounded(),
    }
}

pub fn greater_price(a: HubPrice, b: HubPrice) -> HubPrice
    ensures { result.0 ≡ greater_price a.0 b.0 }
{
    a.max(b)
}
