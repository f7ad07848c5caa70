// The check of one hour of a body: its eight numbers, its intervals and its demands, the first word that breaks its rule, or whether the hour is plain.
// Most hours are accepted: an hour is judged without a branch first, and word by word only where it is not accepted.
#![tactic(auto)]

ghost use Rattle.std.specs.Prelude.{◌≡◌, ℕ, ◌+◌, ◌*◌, ◌<◌, ◌≤◌, not, ◌&&◌, ◌||◌, leb, length, if◌then◌else◌, ◌==◌, nat_le, unsigned_abs, IfOk};
ghost use Rattle.exact.specs.Total.{total};
ghost use Rattle.words.specs.Word.{signed_of};
ghost use Rattle.words.specs.Bytes.{words_from};
ghost use Rattle.limits.specs.Ranges.{most_market_price, most_demand, least_present, proved_points, proved_intervals};
ghost use Rattle.verdict.specs.Verdict.{verdict_in};
ghost use Rattle.hour.specs.Layout.{hour_words, missing};
ghost use Rattle.hour.specs.Gathered.{Gathered, GatheredFrom};
ghost use Rattle.hour.specs.Plain.{plain_hour};
ghost use Rattle.hour.specs.Check.{range_rule, pair_rule, demand_rule, deficiencies_rule, intervals_rule, demands_rule, numbers_rule, hour_rule};

use verdict::Refusal;

fn range(place: usize, most: u32, number: u32) -> Result<(), Refusal>
    ensures { result ≡ range_rule place most number }
{
    if most < number {
        return Err(Refusal::OutOfRange { place });
    }
    Ok(())
}

fn deficiencies(start: usize, body: &[u8], at: usize) -> Result<(), Refusal>
    requires { (start < 4294967296) × (4 * (at + 6) ≤ length body.now) }
    ensures { result ≡ deficiencies_rule start body.now at }
{
    for i in 0..6 {
        range(
            start + (at + i),
            limits::MOST_DEFICIENCY,
            words::word(body, at + i),
        )?;
    }
    Ok(())
}

// An interval's quantity, with its place, and price, with the next place.
fn pair(place: usize, next: usize, quantity: u32, price: u32) -> Result<(), Refusal>
    ensures { result ≡ pair_rule place next quantity price }
{
    if limits::MOST_QUANTITY < quantity {
        return Err(Refusal::OutOfRange { place });
    }
    if price == limits::MISSING_PRICE {
        return Ok(());
    }
    if limits::MOST_MARKET_PRICE < words::magnitude(price) {
        return Err(Refusal::OutOfRange { place: next });
    }
    Ok(())
}

// `count` intervals from word `from` on.
pub fn intervals(start: usize, body: &[u8], from: usize, count: usize) -> Result<(), Refusal>
    requires { (start < 4294967296) × (4 * (from + 2 * count) ≤ length body.now) }
    ensures { result ≡ intervals_rule start body.now from count }
{
    for i in 0..count {
        let at = from + 2 * i;
        let quantity = words::word(body, at);
        let price = words::word(body, at + 1);
        pair(start + at, start + (at + 1), quantity, price)?;
    }
    Ok(())
}

pub fn demand(place: usize, before: u32, demand: u32) -> Result<(), Refusal>
    requires { before ≤ most_demand }
    ensures { result ≡ demand_rule place before demand }
{
    if limits::MOST_DEMAND < demand {
        return Err(Refusal::OutOfRange { place });
    }
    if limits::MOST_DEMAND < before + demand {
        return Err(Refusal::RunningDemandTooLarge { place });
    }
    Ok(())
}

fn demands(start: usize, body: &[u8], from: usize, count: usize) -> Result<(), Refusal>
    requires { (start < 4294967296) × (4 * (from + count) ≤ length body.now) }
    ensures { result ≡ demands_rule start body.now from count }
{
    let mut running: u32 = 0;
    for i in 0..count {
        let next = words::word(body, from + i);
        demand(start + (from + i), running, next)?;
        running += next;
    }
    Ok(())
}

// The first eight numbers of the hour that starts at word `at`.
fn numbers(start: usize, body: &[u8], at: usize) -> Result<(), Refusal>
    requires { (start < 4294967296) × (4 * (at + 8) ≤ length body.now) }
    ensures { result ≡ numbers_rule start body.now at }
{
    deficiencies(start, body, at)?;
    range(
        start + (at + 6),
        limits::MOST_REQUIREMENT,
        words::word(body, at + 6),
    )?;
    let mec = words::magnitude(words::word(body, at + 7));
    range(start + (at + 7), limits::MOST_MARKET_PRICE, mec)
}

// ---- gathered without a branch, so that the compiler takes several words at a time: 0 exactly if the rule accepts

// 1 for a number out of range, 0 for one within it.
fn outside(most: u32, number: u32) -> u32
    ensures { result ≡ (if leb number most then 0 else 1) }
{
    u32::from(most < number)
}

// 0 for a missing price, 1 for any other.
pub fn present(price: u32) -> u32
    ensures { result ≡ (if missing price then 0 else 1) }
{
    u32::from(price != limits::MISSING_PRICE)
}

// 1 for an interval price out of range; a missing one is not. So much higher as the lowest price is below 0, the prices in range are the words up to twice as much.
fn price_outside(price: u32) -> u32
    ensures { result ≡ (if missing price || nat_le (unsigned_abs (signed_of price)) most_market_price then 0 else 1) }
{
    let higher = std::num::wrapping_add_u32(price, limits::MOST_MARKET_PRICE);
    present(price) & outside(2 * limits::MOST_MARKET_PRICE, higher)
}

// An interval's quantity where its price is present; else 0.
pub fn counted(quantity: u32, price: u32) -> u32
    ensures { result ≡ (if missing price then 0 else quantity) }
{
    if price != limits::MISSING_PRICE {
        return quantity;
    }
    0
}

fn deficiencies_gathered(body: &[u8], at: usize) -> u32
    requires { 4 * (at + 6) ≤ length body.now }
    ensures { (start : ℕ) → Gathered (deficiencies_rule start body.now at) result }
{
    let mut gathered: u32 = 0;
    for i in 0..6 {
        gathered = gathered | outside(limits::MOST_DEFICIENCY, words::word(body, at + i));
    }
    gathered
}

// The first eight numbers of the hour that starts at word `at`.
pub fn numbers_gathered(body: &[u8], at: usize) -> u32
    requires { 4 * (at + 8) ≤ length body.now }
    ensures { (start : ℕ) → Gathered (numbers_rule start body.now at) result }
{
    let first = deficiencies_gathered(body, at);
    let second = outside(limits::MOST_REQUIREMENT, words::word(body, at + 6));
    let mec = words::magnitude(words::word(body, at + 7));
    first | (second | outside(limits::MOST_MARKET_PRICE, mec))
}

// What is gathered of some intervals: 0 exactly if all are in range, how many have a price, and the quantities of these joined bit by bit.
#[derive(Clone, Copy)]
struct Gathering {
    outside: u32,
    present: u32,
    quantities: u32,
}

// `count` intervals from word `from` on.
fn intervals_gathered(body: &[u8], from: usize, count: usize) -> Gathering
    requires { (count ≤ proved_intervals) × (4 * (from + 2 * count) ≤ length body.now) }
    ensures { GatheredFrom body.now from count result.outside result.present result.quantities }
{
    let mut gathered: u32 = 0;
    let mut priced: u32 = 0;
    let mut quantities: u32 = 0;
    for i in 0..count {
        let at = from + 2 * i;
        let quantity = words::word(body, at);
        let price = words::word(body, at + 1);
        gathered = gathered | (outside(limits::MOST_QUANTITY, quantity) | price_outside(price));
        priced += present(price);
        quantities = quantities | counted(quantity, price);
    }
    Gathering {
        outside: gathered,
        present: priced,
        quantities,
    }
}

// No demand is below 0: where all together keep the bound, so does each, and so does each running demand. Fewer than 2^32 words add up in 64 bits.
pub fn demand_sum(body: &[u8], from: usize, count: usize) -> u64
    requires { (count < 4294967296) × (4 * (from + count) ≤ length body.now) }
    ensures { result ≡ total (words_from body.now from count) }
{
    let mut sum: u64 = 0;
    for i in 0..count {
        sum += words::word(body, from + i) as u64;
    }
    sum
}

// Whether an hour is plain, by what is gathered of its intervals and by its demand.
fn plain(kind: u32, load: usize, intervals: Gathering, demand: u64) -> bool
    requires { load ≤ proved_points }
    ensures { result ≡ (nat_le (least_present * load) intervals.present && not (intervals.quantities == 0) && nat_le kind demand) }
{
    limits::LEAST_PRESENT * load <= intervals.present as usize
        && intervals.quantities != 0
        && kind as u64 <= demand
}

// The first word that breaks its rule, word by word.
fn first_broken(
    start: usize,
    body: &[u8],
    load: usize,
    count: usize,
    at: usize,
) -> Result<(), Refusal>
    requires { (start < 4294967296) × ((count < 4294967296) × (4 * (at + hour_words load count) ≤ length body.now)) }
    ensures { result ≡ hour_rule start body.now load count at }
{
    numbers(start, body, at)?;
    intervals(start, body, at + 8, 12 * load)?;
    demands(start, body, at + 8 + 24 * load, count)
}

// Whether an hour is accepted, by what is gathered of its numbers and intervals and by its demand.
pub fn accepted(gathered: u32, demand: u64) -> bool
    ensures { result ≡ (gathered == 0 && nat_le demand most_demand) }
{
    gathered == 0 && demand <= limits::MOST_DEMAND as u64
}

// The hour that starts at word `at`, of an area of that kind whose body starts at word `start` of the file: the first word that breaks its rule, or whether the
// hour is plain.
pub fn check(
    start: usize,
    kind: u32,
    body: &[u8],
    load: usize,
    count: usize,
    at: usize,
) -> Result<bool, Refusal>
    requires { (load ≤ proved_points) × ((start < 4294967296) × ((count < 4294967296) × (4 * (at + hour_words load count) ≤ length body.now))) }
    ensures answer_value { verdict_in result ≡ hour_rule start body.now load count at }
    ensures plain_value { IfOk result (λ plain. plain ≡ plain_hour body.now kind load count at) }
{
    let numbers = numbers_gathered(body, at);
    let intervals = intervals_gathered(body, at + 8, 12 * load);
    let demand = demand_sum(body, at + 8 + 24 * load, count);
    if !accepted(numbers | intervals.outside, demand) {
        first_broken(start, body, load, count, at)?;
    }
    Ok(plain(kind, load, intervals, demand))
}
