// What the hours of an area come to, upward before downward: the amounts that are collected from it, and the basis that counts where it passes.
#![tactic(auto)]

ghost use Rattle.std.specs.Prelude.{◌≡◌, cond, ◌&&◌, ◌++◌, ◌≤◌, eqb, ◌+ℤ◌, length, drop};
ghost use Rattle.limits.specs.Ranges.{day_hours, day_payments, proved_points};
ghost use Rattle.body.specs.Kept.{Sound};
ghost use Rattle.surcharge.specs.Ranges.{TermsKept};
ghost use Rattle.amounts.specs.Ranges.{AmountsRanged};
ghost use Rattle.collecting.specs.Directions.{amount_in, basis_in, day_of};

use amounts::{Amounts, DayHour};
use surcharge::Terms;

// The upward amount of an hour: on-peak plus off-peak.
fn upward_amount(amounts: Amounts) -> i64
    requires { AmountsRanged amounts }
    ensures { result ≡ amounts.on.0 +ℤ amounts.off.0 }
{
    let upward = amounts.on + amounts.off;
    upward.0
}

// The amounts that are collected from an area, at the front of `collected`.
pub fn collect(terms: Terms, body: &[u8], collected: &mut [i64])
    requires { (TermsKept terms) × ((Sound proved_points body.now) × (day_payments ≤ length collected.old)) }
    ensures { collected.new ≡ day_of (amount_in terms body.now) ++ drop day_payments collected.old }
{
    let day = amounts::day_facts(terms, body);
    let load = words::word(body, 5) as usize;
    let count = words::word(body, 6) as usize;
    let mut at = body::first_hour(load, count);
    for h in 0..limits::DAY_HOURS {
        let hour = DayHour {
            terms,
            day,
            body,
            h,
            at,
        };
        let amounts = hour.amounts(hour.needed_price());
        collected[2 * h] = upward_amount(amounts);
        collected[2 * h + 1] = amounts.down.0;
        at = body::next_hour(load, count, h, at);
    }
}

// A basis where the area passes, and 0 where it does not: flag 1, and a deficiency of exactly 0.
fn where_passed(flag: u32, deficiency: u32, basis: u32) -> u32
    ensures { result ≡ cond (eqb flag 1 && eqb deficiency 0) basis 0 }
{
    if flag != 1 {
        return 0;
    }
    if deficiency != 0 {
        return 0;
    }
    basis
}

// The basis that counts in each of an area's hours and directions, at the front of `counted`.
pub fn count_basis(body: &[u8], basis: &[u32], counted: &mut [u32])
    requires { (Sound proved_points body.now) × ((day_hours ≤ length basis.now) × (day_payments ≤ length counted.old)) }
    ensures { counted.new ≡ day_of (basis_in body.now basis.now) ++ drop day_payments counted.old }
{
    let flag = words::word(body, 1);
    let load = words::word(body, 5) as usize;
    let count = words::word(body, 6) as usize;
    let mut at = body::first_hour(load, count);
    for h in 0..limits::DAY_HOURS {
        let upward = amounts::upward(body, at);
        let downward = amounts::downward_quantity(body, at);
        let own = basis[h];
        counted[2 * h] = where_passed(flag, upward.0, own);
        counted[2 * h + 1] = where_passed(flag, downward.0, own);
        at = body::next_hour(load, count, h, at);
    }
}
