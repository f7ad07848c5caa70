// The units of docs/RULES.md, section 1, each a struct of one number, so that megawatts, dollars a megawatt-hour and dollars stay apart.
// A quantity times a price is an amount over that product's own denominator; nothing here adds one unit to another.
#![tactic(auto)]

ghost use Rattle.std.specs.Prelude.{◌≡◌, ◌+◌, ◌*◌, ◌<◌, ◌^◌, pos, ◌+ℤ◌, ◌-ℤ◌, ◌*ℤ◌};
ghost use Rattle.std.specs.Int.{w32, w64};
ghost use Rattle.std.proofs.Common.{SFits};
ghost use Rattle.exact.specs.Round.{round_div};
ghost use Rattle.exact.specs.Floor.{at_least_zero, at_most_zero};

use std::ops::{Add, Sub};

// Thousandths of a MW or MWh.
#[derive(Clone, Copy, PartialEq, Eq, PartialOrd, Ord)]
pub struct Quantity(pub u32);

// Whole cents per MWh.
#[derive(Clone, Copy, PartialEq, Eq, PartialOrd, Ord)]
pub struct HubPrice(pub i32);

// $0.0001 per MWh.
#[derive(Clone, Copy, PartialEq, Eq, PartialOrd, Ord)]
pub struct MarketPrice(pub i32);

// A market price as a word, 2^31 higher: never below 0, and 0 where it is the lowest of all words.
#[derive(Clone, Copy)]
pub struct RaisedPrice(pub u32);

// A quantity at such a price: cents, over 100,000. No CentsOver: it is never below 0, holds twice as much, and only `lowered` leads on from it.
#[derive(Clone, Copy)]
pub struct RaisedCentsOver100000(pub u64);

// Whole cents, signed.
#[derive(Clone, Copy)]
pub struct Cents(pub i64);

// Cents over PARTS, signed.
#[derive(Clone, Copy)]
pub struct CentsOver<const PARTS: u32>(pub i64);

// A quantity at a hub price.
pub type CentsOver1000 = CentsOver<1000>;

// A quantity at a market price.
pub type CentsOver100000 = CentsOver<100000>;

// S or a credit: the one denominator of both.
pub type CentsOver400000 = CentsOver<400000>;

// A quantity at a market price, times a multiplier of so many four-hundredths.
pub type CentsOver40000000 = CentsOver<40000000>;

impl Add for Quantity {
    type Output = Quantity;

    ghost can_add = { λ x y. x.0 + y.0 < 2 ^ 32 };

    ghost add_gives = { λ x y sum. sum.0 ≡ x.0 + y.0 };

    fn add(self, more: Quantity) -> Quantity {
        Quantity(self.0 + more.0)
    }
}

impl Add for RaisedCentsOver100000 {
    type Output = RaisedCentsOver100000;

    ghost can_add = { λ x y. x.0 + y.0 < 2 ^ 64 };

    ghost add_gives = { λ x y sum. sum.0 ≡ x.0 + y.0 };

    fn add(self, more: RaisedCentsOver100000) -> RaisedCentsOver100000 {
        RaisedCentsOver100000(self.0 + more.0)
    }
}

impl Add for Cents {
    type Output = Cents;

    ghost can_add = { λ x y. SFits w64 (x.0 +ℤ y.0) };

    ghost add_gives = { λ x y sum. sum.0 ≡ x.0 +ℤ y.0 };

    fn add(self, more: Cents) -> Cents {
        Cents(self.0 + more.0)
    }
}

impl<const PARTS: u32> Sub for CentsOver<PARTS> {
    type Output = CentsOver<PARTS>;

    ghost can_sub = { λ x y. SFits w64 (x.0 -ℤ y.0) };

    ghost sub_gives = { λ x y difference. difference.0 ≡ x.0 -ℤ y.0 };

    fn sub(self, less: CentsOver<PARTS>) -> CentsOver<PARTS> {
        CentsOver(self.0 - less.0)
    }
}

impl Quantity {
    pub fn at_hub_price(self, price: HubPrice) -> CentsOver1000
        ensures { result.0 ≡ pos self.0 *ℤ price.0 }
    {
        CentsOver(exact::product(self.0, price.0))
    }

    pub fn at_market_price(self, price: MarketPrice) -> CentsOver100000
        ensures { result.0 ≡ pos self.0 *ℤ price.0 }
    {
        CentsOver(exact::product(self.0, price.0))
    }

    pub fn at_raised_price(self, price: RaisedPrice) -> RaisedCentsOver100000
        ensures { result.0 ≡ self.0 * price.0 }
    {
        RaisedCentsOver100000((self.0 as u64) * (price.0 as u64))
    }
}

impl RaisedCentsOver100000 {
    // What that quantity comes to at the prices themselves.
    pub fn lowered(self, quantity: Quantity) -> CentsOver100000
        requires { SFits w64 (pos self.0 -ℤ pos (2147483648 * quantity.0)) }
        ensures { result.0 ≡ pos self.0 -ℤ pos (2147483648 * quantity.0) }
    {
        let raise = 2147483648 * (quantity.0 as u64);
        if self.0 < raise {
            return CentsOver(0 - (raise - self.0) as i64);
        }
        CentsOver((self.0 - raise) as i64)
    }
}

impl<const PARTS: u32> CentsOver<PARTS> {
    // Times a multiplier of so many four-hundredths.
    pub fn scaled<const SCALED: u32>(self, multiplier: u32) -> CentsOver<SCALED>
        requires parts_scaled { SCALED ≡ 400 * PARTS }
        requires fits { SFits w64 (self.0 *ℤ pos multiplier) }
        ensures { result.0 ≡ self.entry.0 *ℤ pos multiplier }
    {
        CentsOver(exact::times(self.0, multiplier))
    }

    pub fn at_least_zero(self) -> CentsOver<PARTS>
        ensures { result.0 ≡ at_least_zero self.entry.0 }
    {
        CentsOver(exact::at_least_zero(self.0))
    }

    pub fn at_most_zero(self) -> CentsOver<PARTS>
        ensures { result.0 ≡ at_most_zero self.entry.0 }
    {
        CentsOver(exact::at_most_zero(self.0))
    }

    pub fn rounded(self) -> Cents
        requires { 0 < PARTS }
        ensures { result.0 ≡ round_div self.entry.0 PARTS }
    {
        Cents(exact::round_div(self.0, PARTS))
    }
}

impl CentsOver<100000> {
    // The same amount over the denominator of S.
    pub fn over_400000(self) -> CentsOver400000
        requires { SFits w64 (self.0 *ℤ pos 4) }
        ensures { result.0 ≡ self.0 *ℤ pos 4 }
    {
        CentsOver(exact::times(self.0, 4))
    }

    // The price of each MWh of a quantity that costs this.
    pub fn per(self, quantity: Quantity) -> MarketPrice
        requires quantity_nonzero { 0 < quantity.0 }
        requires price_fits { SFits w32 (round_div self.0 quantity.0) }
        ensures { result.0 ≡ round_div self.0 quantity.0 }
    {
        MarketPrice(exact::round_div(self.0, quantity.0) as i32)
    }
}
