// The amounts of an area's hours, read from its body: the facts of its day, the amounts of an hour, and what a needed price refuses.
#![tactic(auto)]

ghost use Rattle.std.specs.Prelude.{◌≡◌, ◌+◌, ◌*◌, ◌≤◌, ◌<◌, max, ◌+ℤ◌, length};
ghost use Rattle.words.specs.Word.{word_at, signed_of};
ghost use Rattle.limits.specs.Ranges.{proved_points};
ghost use Rattle.body.specs.Kept.{Sound};
ghost use Rattle.surcharge.specs.Ranges.{TermsKept};
ghost use Rattle.surcharge.specs.Surcharge.{downward_of};
ghost use Rattle.amounts.specs.Amounts.{upward_from, downward_from, hour_facts, day_facts, amounts_of, day_tier, day_upward, hub_price, price_from};
ghost use Rattle.amounts.specs.Amounts.{price_needed, needed_price, usable_rule, price_rule};
ghost use Rattle.amounts.specs.Ranges.{HourRanged, PairsRanged, AtHour, AmountsRanged};

use price::{PriceRefusal, Priced};
use surcharge::{Day, Terms};
use units::{Cents, HubPrice, MarketPrice, Quantity};
use verdict::Refusal;

// U and the tier of an hour.
#[derive(Clone, Copy)]
pub struct Hour {
    pub upward: Quantity,
    pub tier: u32,
}

// The three amounts of an hour, and the S and the credit that it shows, which nobody is charged.
#[derive(Clone, Copy)]
pub struct Amounts {
    pub on: Cents,
    pub off: Cents,
    pub down: Cents,
    pub surcharge: Cents,
    pub credit: Cents,
}

// An hour of an area's day.
#[derive(Clone, Copy)]
pub struct DayHour<'a> {
    pub terms: Terms,
    // the facts of the day
    pub day: Day,
    pub body: &'a [u8],
    pub h: usize,
    // the word of the body at which the hour starts
    pub at: usize,
    ghost stands: { AtHour terms day body.now h at },
}

// U of the hour that starts at word `at`.
#[tactic(auto, unfolding(crate::specs::Amounts::upward_from))]
pub fn upward(body: &[u8], at: usize) -> Quantity
    requires { HourRanged body.now at }
    ensures { result.0 ≡ upward_from body.now at }
{
    let energy = Quantity(words::word(body, at));
    let regulation = Quantity(words::word(body, at + 1));
    let spin = Quantity(words::word(body, at + 2));
    let other = Quantity(words::word(body, at + 3));
    energy + regulation + spin + other
}

// W of the hour that starts at word `at`.
#[tactic(auto, unfolding(crate::specs::Amounts::downward_from))]
pub fn downward_quantity(body: &[u8], at: usize) -> Quantity
    requires { HourRanged body.now at }
    ensures { result.0 ≡ downward_from body.now at }
{
    let energy = Quantity(words::word(body, at + 4));
    let regulation = Quantity(words::word(body, at + 5));
    energy + regulation
}

// U and the tier of the hour that starts at word `at`, where it counts.
#[tactic(auto, using(crate::proofs::Quantities::upward_small), unfolding(crate::specs::Amounts::hour_facts))]
pub fn hour_facts(counts: bool, body: &[u8], at: usize) -> Hour
    requires { HourRanged body.now at }
    ensures { result ≡ hour_facts counts body.now at }
{
    if !counts {
        return Hour {
            upward: Quantity(0),
            tier: 0,
        };
    }
    let upward = upward(body, at);
    let tier = surcharge::tier(upward, Quantity(words::word(body, at + 6)));
    Hour { upward, tier }
}

// The highest U and the highest tier of the peak hours.
fn highest_hour(terms: Terms, body: &[u8]) -> Hour
    requires { Sound proved_points body.now }
    ensures { (result.upward.0 ≡ day_upward terms body.now) × (result.tier ≡ day_tier terms body.now) }
{
    let load = words::word(body, 5) as usize;
    let count = words::word(body, 6) as usize;
    let mut most = Quantity(0);
    let mut tier: u32 = 0;
    let mut at = body::first_hour(load, count);
    for h in 0..limits::DAY_HOURS {
        let facts = hour_facts(surcharge::peak_hour(terms, h), body, at);
        most = most.max(facts.upward);
        tier = tier.max(facts.tier);
        at = body::next_hour(load, count, h, at);
    }
    Hour { upward: most, tier }
}

#[tactic(auto, unfolding(crate::specs::Amounts::hub_price))]
pub fn hub_price(body: &[u8]) -> HubPrice
    requires { 20 ≤ length body.now }
    ensures { result.0 ≡ hub_price body.now }
{
    let a = HubPrice(words::signed(words::word(body, 3)));
    let b = HubPrice(words::signed(words::word(body, 4)));
    surcharge::greater_price(a, b)
}

// The facts of an area's day under its terms.
#[tactic(auto, using(crate::proofs::Hours::most_small, crate::proofs::Hours::hub_small), unfolding(crate::specs::Amounts::day_facts))]
pub fn day_facts(terms: Terms, body: &[u8]) -> Day
    requires { (TermsKept terms) × (Sound proved_points body.now) }
    ensures { result ≡ day_facts terms body.now }
{
    let highest = highest_hour(terms, body);
    surcharge::day_of(terms, highest.tier, highest.upward, hub_price(body))
}

// The price of an hour's interval pairs, which start at word `from`: that part of the body, uncopied.
#[tactic(auto, unfolding(crate::specs::Amounts::price_from))]
pub fn hour_price(body: &[u8], load: usize, from: usize) -> Result<Priced, PriceRefusal>
    requires { PairsRanged body.now load from }
    ensures { result ≡ price_from body.now from }
{
    let start = 4 * from;
    let end = start + 96 * load;
    price::average_price(&body[start..end], 12 * load)
}

impl<'a> DayHour<'a> {
    // Whether an amount of the hour asks for its price.
    #[tactic(auto, using(crate::proofs::Hours::hour_there))]
    fn price_asked(self) -> bool
        ensures { result ≡ price_needed self.entry.terms self.entry.body.now self.entry.h }
    {
        let facts = hour_facts(true, self.body, self.at);
        let peak = surcharge::peak_hour(self.terms, self.h);
        surcharge::price_needed(words::word(self.body, 1), peak, self.day.tier, facts.tier)
    }

    // The price of the hour's interval pairs.
    pub fn price(self) -> Result<Priced, PriceRefusal>
        ensures { result ≡ price_from self.entry.body.now (self.entry.at + 8) }
    {
        let load = words::word(self.body, 5) as usize;
        hour_price(self.body, load, self.at + 8)
    }

    // The price of the hour where an amount asks for it, and 0 where none does.
    #[tactic(auto, unfolding(crate::specs::Amounts::needed_price))]
    pub fn needed_price(self) -> MarketPrice
        ensures { result.0 ≡ needed_price self.entry.terms self.entry.body.now self.entry.h }
    {
        if !self.price_asked() {
            return MarketPrice(0);
        }
        MarketPrice(price::price_of(self.price()))
    }

    // What the price refuses, where it is needed, in the body that starts at word `start` of the file.
    #[tactic(auto, unfolding(crate::specs::Amounts::price_rule))]
    pub fn check_price(self, start: usize) -> Result<(), Refusal>
        requires { start < 4294967296 }
        ensures { result ≡ price_rule self.entry.terms start self.entry.body.now self.entry.h }
    {
        if !self.price_asked() {
            return Ok(());
        }
        let load = words::word(self.body, 5) as usize;
        usable(start + (self.at + 8), load, self.price())
    }

    // The amounts of the hour at its price.
    #[tactic(auto, using(crate::proofs::Hours::hour_there))]
    pub fn amounts(self, price: MarketPrice) -> Amounts
        requires { price.0 ≡ needed_price self.terms self.body.now self.h }
        ensures { result ≡ amounts_of self.entry.terms self.entry.body.now self.entry.h }
    {
        let flag = words::word(self.body, 1);
        if flag != 1 {
            return Amounts {
                on: Cents(0),
                off: Cents(0),
                down: Cents(0),
                surcharge: Cents(0),
                credit: Cents(0),
            };
        }
        let down = down_amount(self.terms, self.body, self.at);
        let facts = hour_facts(true, self.body, self.at);
        let upward = facts.upward;
        let tier = facts.tier;
        if surcharge::peak_hour(self.terms, self.h) {
            let on_peak = surcharge::on_peak(self.day, tier, price);
            return Amounts {
                on: on_peak.amount,
                off: Cents(0),
                down,
                surcharge: self.day.shown,
                credit: on_peak.credit,
            };
        }
        Amounts {
            on: Cents(0),
            off: surcharge::off_peak(self.terms, upward, tier, price),
            down,
            surcharge: Cents(0),
            credit: Cents(0),
        }
    }
}

fn down_amount(terms: Terms, body: &[u8], at: usize) -> Cents
    requires { HourRanged body.now at }
    ensures { result.0 ≡ downward_of terms (downward_from body.now at) (signed_of (word_at body.now (at + 7))) }
{
    let mec = MarketPrice(words::signed(words::word(body, at + 7)));
    surcharge::downward(terms, downward_quantity(body, at), mec)
}

// A, the hour's three amounts added.
pub fn amount_of(amounts: Amounts) -> Cents
    requires { AmountsRanged amounts }
    ensures { result.0 ≡ (amounts.on.0 +ℤ amounts.off.0) +ℤ amounts.down.0 }
{
    amounts.on + amounts.off + amounts.down
}

// Whether a needed price of `load` load points can be settled with. Its first interval word is at `place` of the file.
fn usable(place: usize, load: usize, answer: Result<Priced, PriceRefusal>) -> Result<(), Refusal>
    requires { load ≤ proved_points }
    ensures { result ≡ usable_rule place load answer }
{
    if (price::count_of(answer) as usize) < limits::LEAST_PRESENT * load {
        return Err(Refusal::TooFewIntervals { place });
    }
    if matches!(answer, Err(PriceRefusal::NoQuantity { .. })) {
        return Err(Refusal::PriceWithoutQuantity { place });
    }
    Ok(())
}
