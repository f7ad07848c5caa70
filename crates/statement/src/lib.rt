// Writes the statement of one area into lent bytes, eight a number: its hours, each its amounts and its charges.
#![tactic(auto)]

ghost use Rattle.std.specs.Prelude.{◌≡◌, ◌++◌, ◌+◌, ◌*◌, ◌≤◌, nat_abs, length, drop};
ghost use Rattle.exact.specs.Total.{total};
ghost use Rattle.words.specs.Bytes.{words_from};
ghost use Rattle.limits.specs.Ranges.{most_demand, most_coordinators, most_amount, proved_points};
ghost use Rattle.encoding.specs.Encoding.{encoded};
ghost use Rattle.body.specs.Layout.{kind_of, points_of, coordinators_of};
ghost use Rattle.body.specs.Kept.{Sound};
ghost use Rattle.surcharge.specs.Ranges.{TermsKept};
ghost use Rattle.amounts.specs.Ranges.{AmountsRanged};
ghost use Rattle.statement.specs.Ranges.{DemandsRanged};
ghost use Rattle.statement.specs.Block.{charges_from, shown_of, hour_block, block, amounts_shown, hour_numbers, area_numbers};

use amounts::{Amounts, DayHour};
use surcharge::Terms;

// How many numbers an hour has before its charges.
pub const AMOUNTS_SHOWN: usize = 5;

// How many numbers an hour has, with so many coordinators.
pub fn hour_numbers(count: usize) -> usize
    requires { count ≤ most_coordinators }
    ensures { result ≡ hour_numbers count }
{
    AMOUNTS_SHOWN + count
}

// How many numbers an area has, with so many coordinators.
pub fn area_numbers(count: usize) -> usize
    requires { count ≤ most_coordinators }
    ensures { result ≡ area_numbers count }
{
    limits::DAY_HOURS * hour_numbers(count)
}

// The charges of an hour at the front of a block.
fn write_charges(kind: u32, amount: i64, body: &[u8], from: usize, count: usize, charges: &mut [u8])
    requires amount_and_room { (nat_abs amount ≤ most_amount) × ((1 ≤ count) × (8 * count ≤ length charges.old)) }
    requires demands_in_body { (4 * (from + count) ≤ length body.now) × (total (words_from body.now from count) ≤ most_demand) }
    requires one_unless_ciso { (kind ≡ 1 → ⊥) → count ≡ 1 }
    ensures { charges.new ≡ encoded (charges_from kind amount body.now from count) ++ drop (8 * count) charges.old }
{
    if kind != 1 {
        encoding::put_number(amount, charges);
        return;
    }
    shares::share_words(amount, body, from, count, charges);
}

// The amounts of an hour at the front of a block.
fn put_amounts(amounts: Amounts, block: &mut [u8])
    requires { (AmountsRanged amounts) × (8 * amounts_shown ≤ length block.old) }
    ensures { block.new ≡ encoded (shown_of amounts) ++ drop (8 * amounts_shown) block.old }
{
    let Amounts {
        on,
        off,
        down,
        surcharge,
        credit,
    } = amounts;
    let shown = [on.0, off.0, down.0, surcharge.0, credit.0];
    encoding::put_numbers(&shown, block);
}

// The charges of the hour that starts at word `at`, at the front of a block.
fn hour_charges(amount: i64, body: &[u8], at: usize, charges: &mut [u8])
    requires { (nat_abs amount ≤ most_amount) × ((DemandsRanged body.now at) × (8 * coordinators_of body.now ≤ length charges.old)) }
    ensures { charges.new
        ≡ encoded (charges_from (kind_of body.now) amount body.now (at + 8 + 24 * points_of body.now)
        (coordinators_of body.now)) ++ drop (8 * coordinators_of body.now) charges.old }
{
    let kind = words::word(body, 0);
    let load = words::word(body, 5) as usize;
    let count = words::word(body, 6) as usize;
    write_charges(kind, amount, body, at + 8 + 24 * load, count, charges);
}

// An hour at the front of a block.
fn write_hour(hour: DayHour, block: &mut [u8])
    requires { 8 * hour_numbers (coordinators_of hour.body.now) ≤ length block.old }
    ensures { block.new ≡ encoded (hour_block hour.entry.terms hour.entry.body.now hour.entry.h)
        ++ drop (8 * hour_numbers (coordinators_of hour.entry.body.now)) block.old }
{
    let amounts = hour.amounts(hour.needed_price());
    put_amounts(amounts, block);
    let amount = amounts::amount_of(amounts);
    hour_charges(
        amount.0,
        hour.body,
        hour.at,
        &mut block[8 * AMOUNTS_SHOWN..],
    );
}

// The 24 hours of an area at the front of its part of the statement, each hour lent its own part of that.
pub fn write_area(terms: Terms, body: &[u8], statement: &mut [u8])
    requires terms_and_body { (TermsKept terms) × (Sound proved_points body.now) }
    requires area_fits { 8 * area_numbers (coordinators_of body.now) ≤ length statement.old }
    ensures { statement.new ≡ encoded (block terms body.now)
        ++ drop (8 * area_numbers (coordinators_of body.now)) statement.old }
{
    let day = amounts::day_facts(terms, body);
    let load = words::word(body, 5) as usize;
    let count = words::word(body, 6) as usize;
    let mut at = body::first_hour(load, count);
    let mut to: usize = 0;
    for h in 0..limits::DAY_HOURS {
        let hour = DayHour {
            terms,
            day,
            body,
            h,
            at,
        };
        write_hour(hour, &mut statement[to..]);
        at = body::next_hour(load, count, h, at);
        to += 8 * hour_numbers(count);
    }
}
