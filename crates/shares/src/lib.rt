// Sharing one amount among coordinators by their running demands, over number slices and over words of a file.
#![tactic(auto)]

ghost use Rattle.std.specs.Prelude.{◌≡◌, ◌++◌, ◌+◌, ◌*◌, ◌/◌, ◌≤◌, ◌<◌, ◌^◌, IfSome, cond, ◌||◌, eqb, leb, ltb, nat_abs, ◌-ℤ◌, length, drop};
ghost use Rattle.exact.specs.Round.{half_up};
ghost use Rattle.exact.specs.Total.{total};
ghost use Rattle.words.specs.Bytes.{words_from};
ghost use Rattle.encoding.specs.Encoding.{encoded};
ghost use Rattle.limits.specs.Ranges.{most_demand};
ghost use Rattle.shares.specs.Shares.{up_to, shares};
ghost use Rattle.shares.specs.Rates.{rate_parts, rates_of};
ghost use Rattle.shares.specs.Carried.{Begun, carried_on};

// Into so many parts a rate divides a cent: 2^32, so that dividing by them is a shift.
const RATE_PARTS: u64 = 4294967296;

#[tactic(auto, using(crate::proofs::Running::total_sum))]
pub fn sum_of_demands(demands: &[u32]) -> u32
    requires { total demands.now < 2 ^ 32 }
    ensures { result ≡ total demands.now }
{
    demands.iter().sum()
}

// The sum of the demands in `count` words of a file, from word `from` on.
pub fn sum_of_words(bytes: &[u8], from: usize, count: usize) -> u32
    requires { (4 * (from + count) ≤ length bytes.now) × (total (words_from bytes.now from count) ≤ most_demand) }
    ensures { result ≡ total (words_from bytes.now from count) }
{
    let mut sum = 0;
    for i in 0..count {
        sum += words::word(bytes, from + i);
    }
    sum
}

// What an amount A comes to for each thousandth of a demand T: whole cents, what of A these leave over, and of that the 2^32ths of a cent. Two divisions
// for all of an hour's charges.
#[derive(Clone, Copy)]
pub struct Rates {
    pub each: u64,
    pub rest: u32,
    pub part: u32,
}

// Up to so many coordinators fewer divisions are left than the rates take: the last one's share needs none.
const DIVIDED_COORDINATORS: usize = 8;

// None where rates gain nothing, and each charge is divided. Most hours have no amount, and are spared the divisions.
fn rates_of(amount: i64, whole: u32, count: usize) -> Option<Rates>
    requires { whole ≤ most_demand }
    ensures { IfSome result (λ rates. rates ≡ rates_of amount whole) }
{
    if count <= DIVIDED_COORDINATORS || whole == 0 || amount == 0 {
        return None;
    }
    let size = exact::absolute(amount);
    let divisor = whole as u64;
    let rest = size % divisor;
    let part = rest * RATE_PARTS / divisor;
    Some(Rates {
        each: size / divisor,
        rest: rest as u32,
        part: part as u32,
    })
}

// 1 where a number has reached a bound, and 0 below it: no branch, since the processor could not foretell it.
fn reached(bound: u64, number: u64) -> u64
    ensures { (result ≡ cond (leb bound number) 1 0) × (result ≤ 1) }
{
    (bound <= number) as u64
}

// R(|A| × C / T) at running demand C, without a division by T: the whole cents, and a guess of what the rest comes to, which is at most one too small, so
// that half of T and three halves tell what it lacks. All factors but the whole cents have 32 bits, which the processor multiplies fastest.
fn nearest(whole: u32, rates: Rates, running: u32) -> u64
    requires whole_in_range { (0 < whole) × ((whole ≤ most_demand) × (running ≤ whole)) }
    requires rates_of_whole { (rates.each * whole < 2 ^ 63) × ((rates.rest < whole) × (rates.part ≡ rates.rest * rate_parts / whole)) }
    ensures { result ≡ rates.each * running + half_up (rates.rest * running) whole }
{
    let divisor = whole as u64;
    let demand = running as u64;
    let guess = rates.part as u64 * demand / RATE_PARTS;
    let twice = 2 * (rates.rest as u64 * demand - guess * divisor);
    rates.each * demand + (guess + reached(divisor, twice) + reached(3 * divisor, twice))
}

// R(A × C / T) at running demand C; 0 where there is no demand.
fn up_to(amount: i64, whole: u32, rates: Option<Rates>, running: u32) -> i64
    requires { IfSome rates (λ rates. rates ≡ rates_of amount whole) × ((running ≤ whole) × ((whole ≤ most_demand) × (nat_abs amount * whole < 2 ^ 63))) }
    ensures { result ≡ up_to amount whole running }
{
    if whole == 0 || amount == 0 {
        return 0;
    }
    if running == whole {
        return amount;
    }
    let Some(rates) = rates else {
        return exact::round_div(exact::times(amount, running), whole);
    };
    let next = nearest(whole, rates, running) as i64;
    if amount < 0 {
        return 0 - next;
    }
    next
}

// An amount on its way through the running demands.
#[derive(Clone, Copy)]
pub struct Carried {
    pub amount: i64,
    pub whole: u32,
    pub rates: Option<Rates>,
    pub running: u32,
    // R up to the running demand
    pub before: i64,
}

impl Carried {
    fn begin(amount: i64, whole: u32, count: usize) -> Carried
        requires { (whole ≤ most_demand) × (nat_abs amount * whole < 2 ^ 63) }
        ensures { (Begun result) × ((result.amount ≡ amount) × ((result.whole ≡ whole) × (result.running ≡ 0))) }
    {
        Carried {
            amount,
            whole,
            rates: rates_of(amount, whole, count),
            running: 0,
            before: 0,
        }
    }

    // One rounding a coordinator: the one up to the coordinator before is carried on.
    fn charge(&mut self, demand: u32) -> i64
        requires { (Begun self.old) × (self.old.running + demand ≤ self.old.whole) }
        ensures charged { result ≡ up_to self.old.amount self.old.whole (self.old.running + demand) -ℤ self.old.before }
        ensures carried_on { self.new ≡ carried_on self.old demand }
    {
        self.running += demand;
        let next = up_to(self.amount, self.whole, self.rates, self.running);
        let charge = next - self.before;
        self.before = next;
        charge
    }
}

pub fn share_demands(amount: i64, demands: &[u32], charges: &mut [i64])
    requires { (nat_abs amount * total demands.now < 2 ^ 63) × ((total demands.now ≤ most_demand) × (length demands.now ≤ length charges.old)) }
    ensures { charges.new ≡ shares amount demands.now ++ drop (length demands.now) charges.old }
{
    let mut carried = Carried::begin(amount, sum_of_demands(demands), demands.len());
    for (i, demand) in demands.iter().enumerate() {
        charges[i] = carried.charge(*demand);
    }
}

// The same over the demands in `count` words of a file, from word `from` on, the charges as bytes, eight a number.
pub fn share_words(amount: i64, bytes: &[u8], from: usize, count: usize, charges: &mut [u8])
    requires { (nat_abs amount * total (words_from bytes.now from count) < 2 ^ 63) × ((total (words_from bytes.now from count) ≤ most_demand)
        × ((4 * (from + count) ≤ length bytes.now) × (8 * count ≤ length charges.old))) }
    ensures { charges.new ≡ encoded (shares amount (words_from bytes.now from count)) ++ drop (8 * count) charges.old }
{
    let mut carried = Carried::begin(amount, sum_of_words(bytes, from, count), count);
    for i in 0..count {
        let charge = carried.charge(words::word(bytes, from + i));
        let to = 8 * i;
        encoding::put_number(charge, &mut charges[to..]);
    }
}

// A is 0, or T is not.
pub fn shareable(amount: i64, whole: u32) -> bool
    ensures { result ≡ (eqb (nat_abs amount) 0 || ltb 0 whole) }
{
    if amount == 0 {
        return true;
    }
    0 < whole
}
