// An hour at a glance: where no price is missing and no number is near its bound, its intervals are judged by their words joined bit by bit, which is about
// half the work of gathering them.
#![tactic(auto)]

ghost use Rattle.std.specs.Prelude.{◌≡◌, ◌+◌, ◌*◌, ◌<◌, ◌≤◌, true, not, ◌&&◌, length, ◌==◌, nat_lt};
ghost use Rattle.hour.specs.Layout.{hour_words};
ghost use Rattle.hour_glance.specs.Joined.{JoinedFrom, near, small};
ghost use Rattle.hour_glance.specs.Told.{AcceptedPlain};

// So much higher prices near 0, of either sign, are small numbers: 2^24.
const RAISE: u32 = 16777216;
// A raised price below 2^25 is in range and not missing, and a quantity below 2^23 is in range.
const NEAR: u32 = 33554432;

const SMALL: u32 = 8388608;

// The quantities of some intervals, and their prices raised, each joined bit by bit.
#[derive(Clone, Copy)]
struct Joined {
    quantities: u32,
    prices: u32,
}

fn intervals_joined(body: &[u8], from: usize, count: usize) -> Joined
    requires { 4 * (from + 2 * count) ≤ length body.now }
    ensures { JoinedFrom body.now from count result.quantities result.prices }
{
    let mut quantities: u32 = 0;
    let mut prices: u32 = 0;
    for i in 0..count {
        let at = from + 2 * i;
        let quantity = words::word(body, at);
        let price = words::word(body, at + 1);
        quantities = quantities | quantity;
        prices = prices | std::num::wrapping_add_u32(price, RAISE);
    }
    Joined { quantities, prices }
}

// Whether all intervals are seen to be in range and to have a price, with some quantity.
fn usual(joined: Joined) -> bool
    ensures { result ≡ (not (joined.quantities == 0) && nat_lt joined.quantities small && nat_lt joined.prices near) }
{
    joined.quantities != 0 && joined.quantities < SMALL && joined.prices < NEAR
}

// Whether the hour that starts at word `at` is seen to be accepted and plain. Another may be both too: where a price is missing a glance tells nothing.
pub fn glance(kind: u32, body: &[u8], load: usize, count: usize, at: usize) -> bool
    requires { (count < 4294967296) × (4 * (at + hour_words load count) ≤ length body.now) }
    ensures { result ≡ true → AcceptedPlain body.now kind load count at }
{
    let numbers = hour::numbers_gathered(body, at);
    let joined = intervals_joined(body, at + 8, 12 * load);
    let demand = hour::demand_sum(body, at + 8 + 24 * load, count);
    hour::accepted(numbers, demand) && usual(joined) && kind as u64 <= demand
}
