// Settles a day file into a lent statement: the numbers needed, the first refusal, and the writing, which can refuse nothing.
#![tactic(auto)]

ghost use Rattle.std.specs.Prelude.{◌≡◌, ◌++◌, ◌*◌, ◌≤◌, ◌<◌, length, drop};
ghost use Rattle.limits.specs.Ranges.{most_coordinators, proved_points};
ghost use Rattle.body.specs.Layout.{coordinators_of};
ghost use Rattle.body.specs.Kept.{Sound};
ghost use Rattle.body.specs.Plain.{plain_area};
ghost use Rattle.dayfile.specs.Plain.{PlainTold};
ghost use Rattle.contents.specs.File.{areas_of, peak_of};
ghost use Rattle.surcharge.specs.Ranges.{TermsKept};
ghost use Rattle.statement.specs.Block.{block, area_numbers};
ghost use Rattle.settlement.specs.SoundFile.{SoundFile, Settleable};
ghost use Rattle.settlement.specs.Settlement.{needed_to, statement_to, terms_in, chargeable, charge_rule, hour_refusal, hours_refusal};
ghost use Rattle.settlement.specs.Settlement.{areas_refusal, listed, accepted_rule, after_with, settle_of, after};

use amounts::DayHour;
use surcharge::Terms;
use verdict::Refusal;

// The numbers of the longest area: one of CISO with the most coordinators.
const MOST_AREA_NUMBERS: usize = limits::DAY_HOURS
    * (statement::AMOUNTS_SHOWN + limits::MOST_COORDINATORS);

// The numbers of the longest statement of any edition: one area is CISO with the most coordinators, every other has one.
pub const MOST_NUMBERS: usize = MOST_AREA_NUMBERS
    + (limits::MOST_AREAS - 1) * (limits::DAY_HOURS * (statement::AMOUNTS_SHOWN + 1));

// How many numbers the statement of n areas takes.
pub fn numbers_needed(file: &[u8], n: usize) -> usize
    requires { (SoundFile file.now) × (n ≡ areas_of file.now) }
    ensures { result ≡ needed_to file.now n }
{
    let mut needed: usize = 0;
    for k in 0..n {
        let count = words::word(contents::body_at(file, k), 6) as usize;
        needed += statement::area_numbers(count);
    }
    needed
}

// What area k's day is settled under: its d stands in the list, or else in its body.
#[tactic(auto, unfolding(crate::specs::Settlement::days_in))]
fn terms_of(peak: u32, days: &[u32], k: usize, body: &[u8]) -> Terms
    requires { 28 ≤ length body.now }
    ensures { result ≡ terms_in peak days.now k body.now }
{
    if k < days.len() {
        return Terms {
            peak,
            days: days[k],
        };
    }
    Terms {
        peak,
        days: words::word(body, 2),
    }
}

// The statement of an area at the front of its part. It is written as bytes into `room` first, so that what writes an area stands once.
fn area_into_numbers(terms: Terms, body: &[u8], room: &mut [u8], statement: &mut [i64])
    requires terms_and_body { (TermsKept terms) × (Sound proved_points body.now) }
    requires rooms_long_enough { (8 * area_numbers most_coordinators ≤ length room.old) × (area_numbers (coordinators_of body.now) ≤ length statement.old) }
    ensures { statement.new ≡ block terms body.now
        ++ drop (area_numbers (coordinators_of body.now)) statement.old }
{
    statement::write_area(terms, body, room);
    let bytes = 8 * statement::area_numbers(words::word(body, 6) as usize);
    encoding::take_numbers(&room[..bytes], statement);
}

// The blocks of n areas, each lent its own part of the statement.
fn write_areas(peak: u32, days: &[u32], file: &[u8], n: usize, statement: &mut [i64])
    requires settleable { (Settleable days.now file.now) × ((n ≡ areas_of file.now) × (peak ≡ peak_of file.now)) }
    requires blocks_fit { needed_to file.now n ≤ length statement.old }
    ensures { statement.new ≡ statement_to (listed days.now file.now) file.now n
        ++ drop (needed_to file.now n) statement.old }
{
    let mut room = [0u8; 8 * MOST_AREA_NUMBERS];
    let mut to: usize = 0;
    for k in 0..n {
        let body = contents::body_at(file, k);
        let terms = terms_of(peak, days, k, body);
        area_into_numbers(terms, body, &mut room, &mut statement[to..]);
        to += statement::area_numbers(words::word(body, 6) as usize);
    }
}

// Whether there is somebody to charge for the hour. The amounts are only asked for where there is no demand.
fn chargeable_hour(hour: DayHour) -> bool
    ensures { result ≡ chargeable hour.entry.terms hour.entry.body.now hour.entry.h }
{
    let body = hour.body;
    if words::word(body, 0) != 1 {
        return true;
    }
    let load = words::word(body, 5) as usize;
    let count = words::word(body, 6) as usize;
    let demand = shares::sum_of_words(body, hour.at + 8 + 24 * load, count);
    if 0 < demand {
        return true;
    }
    let amount = amounts::amount_of(hour.amounts(hour.needed_price()));
    shares::shareable(amount.0, demand)
}

// What charging the hour refuses, in the body that starts at word `start` of the file.
fn check_charge(hour: DayHour, start: usize) -> Result<(), Refusal>
    requires { start < 4294967296 }
    ensures { result ≡ charge_rule hour.entry.terms start hour.entry.body.now hour.entry.h }
{
    if chargeable_hour(hour) {
        return Ok(());
    }
    let load = words::word(hour.body, 5) as usize;
    Err(Refusal::AmountWithoutDemand {
        place: start + (hour.at + 8 + 24 * load),
    })
}

// The first refusal of the hour, in the body that starts at word `start` of the file.
fn check_hour(hour: DayHour, start: usize) -> Result<(), Refusal>
    requires { start < 4294967296 }
    ensures { result ≡ hour_refusal hour.entry.terms start hour.entry.body.now hour.entry.h }
{
    hour.check_price(start)?;
    check_charge(hour, start)
}

// The first refusal among the hours of an area, one by one.
fn check_hours(terms: Terms, start: usize, body: &[u8]) -> Result<(), Refusal>
    requires { (TermsKept terms) × ((Sound proved_points body.now) × (start < 4294967296)) }
    ensures { result ≡ hours_refusal terms start body.now }
{
    let day = amounts::day_facts(terms, body);
    let load = words::word(body, 5) as usize;
    let count = words::word(body, 6) as usize;
    let mut at = body::first_hour(load, count);
    for h in 0..limits::DAY_HOURS {
        let hour = DayHour {
            terms,
            day,
            body,
            h,
            at,
        };
        check_hour(hour, start)?;
        at = body::next_hour(load, count, h, at);
    }
    Ok(())
}

// The first refusal among the hours of an area: none of a plain one.
#[tactic(auto, using(crate::proofs::NeverRefused::never_refused))]
fn check_area(plain: bool, terms: Terms, start: usize, body: &[u8]) -> Result<(), Refusal>
    requires terms_body_and_start { (TermsKept terms) × ((Sound proved_points body.now) × (start < 4294967296)) }
    requires plain_told { plain ≡ plain_area body.now }
    ensures { result ≡ hours_refusal terms start body.now }
{
    if plain {
        return Ok(());
    }
    check_hours(terms, start, body)
}

// The first refusal among areas and hours in order.
fn check_areas(
    plain: [bool; limits::PROVED_AREAS],
    peak: u32,
    days: &[u32],
    file: &[u8],
    n: usize,
) -> Result<(), Refusal>
    requires settleable { (Settleable days.now file.now) × ((n ≡ areas_of file.now) × (peak ≡ peak_of file.now)) }
    requires plain_told { PlainTold plain file.now n }
    ensures { result ≡ areas_refusal (listed days.now file.now) file.now }
{
    for k in 0..n {
        let start = words::word(file, 4 + 3 * k + 1) as usize;
        let body = contents::body_at(file, k);
        let terms = terms_of(peak, days, k, body);
        check_area(plain[k], terms, start, body)?;
    }
    Ok(())
}

// Past the check: 13, then areas and hours in order, for a statement of so many numbers.
fn answer_accepted(
    plain: [bool; limits::PROVED_AREAS],
    days: &[u32],
    file: &[u8],
    room: usize,
) -> Result<(), Refusal>
    requires { (Settleable days.now file.now) × (PlainTold plain file.now (areas_of file.now)) }
    ensures { result ≡ accepted_rule (listed days.now file.now) file.now room }
{
    let n = words::word(file, 2) as usize;
    let peak = words::word(file, 3);
    let needed = numbers_needed(file, n);
    if room < needed {
        return Err(Refusal::RoomTooShort { needed });
    }
    check_areas(plain, peak, days, file, n)
}

// Past the check, which told the plain areas, and where nothing is refused the statement. `days` has a d for each area, or is empty, and each area has its own.
pub fn settle_accepted(
    plain: [bool; limits::PROVED_AREAS],
    days: &[u32],
    file: &[u8],
    statement: &mut [i64],
) -> Result<(), Refusal>
    requires { (Settleable days.now file.now) × (PlainTold plain file.now (areas_of file.now)) }
    ensures value { result ≡ accepted_rule (listed days.now file.now) file.now (length statement.old) }
    ensures statement_after { statement.new
        ≡ after_with (listed days.now file.now) file.now result statement.old }
{
    answer_accepted(plain, days, file, statement.len())?;
    let n = words::word(file, 2) as usize;
    let peak = words::word(file, 3);
    write_areas(peak, days, file, n, statement);
    Ok(())
}

// What settling the file into a statement of so many numbers answers; nothing is written.
pub fn answer(file: &[u8], room: usize) -> Result<(), Refusal>
    ensures { result ≡ settle_of file.now room }
{
    let plain = dayfile::checked(file)?;
    let own = [0u32; 0];
    answer_accepted(plain, &own, file, room)
}

// Checks the whole file, then settles it into `statement`: area after area, 24 hours of its amounts and K charges each. A
// refusal leaves the statement as it was.
pub fn settle(file: &[u8], statement: &mut [i64]) -> Result<(), Refusal>
    ensures value { result ≡ settle_of file.now (length statement.old) }
    ensures statement_after { statement.new ≡ after result file.now statement.old }
{
    let plain = dayfile::checked(file)?;
    let own = [0u32; 0];
    settle_accepted(plain, &own, file, statement)
}
