// R (docs/RULES.md, section 1), the whole product of a quantity and a price, and the floors at 0, in 64 bits.
// The laws of whole numbers, of lists that are filled and of parts that are lent stand in proofs/.
#![tactic(auto)]

ghost use Rattle.std.specs.Prelude.{◌≡◌, ◌<◌, pos, nat_abs, ◌*ℤ◌};
ghost use Rattle.std.specs.Int.{w64};
ghost use Rattle.std.proofs.Common.{SFits};
ghost use Rattle.exact.specs.Round.{round_div};
ghost use Rattle.exact.specs.Floor.{at_least_zero, at_most_zero};

// R(a / b): the nearest whole number, halves away from zero. No product is formed of a, so every a will do.
pub fn round_div(a: i64, b: u32) -> i64
    requires { 0 < b }
    ensures { result ≡ round_div a b }
{
    let divisor = b as i64;
    let quotient = a / divisor;
    let twice = 2 * (a % divisor);
    if divisor <= twice {
        return quotient + 1;
    }
    if divisor + twice <= 0 {
        return quotient - 1;
    }
    quotient
}

// The whole product of two words: it always fits.
pub fn product(a: u32, b: i32) -> i64
    ensures { result ≡ pos a *ℤ b }
{
    i64::from(a) * i64::from(b)
}

pub fn times(z: i64, n: u32) -> i64
    requires { SFits w64 (z *ℤ pos n) }
    ensures { result ≡ z *ℤ pos n }
{
    z * i64::from(n)
}

pub fn at_least_zero(z: i64) -> i64
    ensures { result ≡ at_least_zero z }
{
    z.max(0)
}

pub fn at_most_zero(z: i64) -> i64
    ensures { result ≡ at_most_zero z }
{
    z.min(0)
}

// How far z is from 0.
pub fn absolute(z: i64) -> u64
    ensures { result ≡ nat_abs z }
{
    z.unsigned_abs()
}
