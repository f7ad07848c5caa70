// The test of a record of failing days: whether accepted entries leave it, and whether a trading day comes after its last day.
#![tactic(auto)]

ghost use Rattle.std.specs.Prelude.{◌≡◌, true, ◌≤◌, drop, IfOk};
ghost use Rattle.limits.specs.Editions.{most_held};
ghost use Rattle.verdict.specs.Verdict.{number_of, verdict_in};
ghost use Rattle.calendar.specs.Date.{real_date};
ghost use Rattle.calendar.specs.DayNumber.{day_number};
ghost use Rattle.contents.specs.File.{areas_of};
ghost use Rattle.dayfile.specs.Plain.{PlainTold};
ghost use Rattle.recording.specs.Record.{entries};
ghost use Rattle.record_check.specs.Left.{marks_end, place_left, places_left, place_empty, unused_empty, last_left, record_left, record_rule, admit_rule, days_between};

use recording::{Place, Record};
use verdict::Refusal;

// The number of the last day entered; 0 before the first.
fn last_number(last: u32) -> u32
    requires { (last ≡ 0 → ⊥) → real_date last ≡ true }
    ensures { result ≡ day_number last }
{
    if last == 0 {
        return 0;
    }
    calendar::day_number(last)
}

// What the marks on the day of that number are below.
fn marks_end(day: u32) -> u32
    ensures { result ≡ marks_end day }
{
    if limits::RECORDED_DAYS - 1 <= day {
        return marks::MARKS_END;
    }
    marks::age(1, day + 1)
}

// An area held, of a number from `low` on.
#[tactic(auto, unfolding(crate::specs::Left::place_left))]
fn place_left(end: u32, low: u32, p: Place) -> bool
    ensures { result ≡ place_left end low p }
{
    low <= p.area && p.area <= limits::LARGEST_NUMBER && 1 <= p.marks && p.marks < end
}

#[tactic(auto, unfolding(crate::specs::Left::place_empty))]
fn place_empty(p: Place) -> bool
    ensures { result ≡ place_empty p }
{
    p.area == 0 && p.marks == 0
}

// The areas held rise, and each has marks that it may have.
fn places_left(given: Record, end: u32) -> bool
    requires { given.held ≤ most_held }
    ensures { result ≡ places_left end 1 (entries given) }
{
    let places = given.places;
    let held = &places[..given.held as usize];
    let mut low: u32 = 1;
    for p in held {
        if !place_left(end, low, *p) {
            return false;
        }
        low = p.area + 1;
    }
    true
}

// The places behind the areas held are 0, 0.
fn unused_empty(given: Record) -> bool
    requires { given.held ≤ most_held }
    ensures { result ≡ unused_empty (drop given.held given.places) }
{
    let places = given.places;
    let unused = &places[given.held as usize..];
    for p in unused {
        if !place_empty(*p) {
            return false;
        }
    }
    true
}

fn last_left(given: Record) -> bool
    ensures { result ≡ last_left given }
{
    if given.last == 0 {
        return given.held == 0;
    }
    calendar::real_date(given.last)
}

// Whether accepted entries leave the record.
fn record_left(given: Record) -> bool
    ensures { result ≡ record_left given }
{
    if (limits::MOST_HELD as u32) < given.held {
        return false;
    }
    if !last_left(given) {
        return false;
    }
    if !places_left(given, marks_end(last_number(given.last))) {
        return false;
    }
    unused_empty(given)
}

// 14, then 18, for a trading day.
#[tactic(auto, unfolding(crate::specs::Left::record_rule))]
fn judge(given: Record, date: u32) -> Result<(), Refusal>
    ensures { result ≡ record_rule given date }
{
    if !record_left(given) {
        return Err(Refusal::BadRecord);
    }
    if date <= given.last {
        return Err(Refusal::DayNotAfter);
    }
    Ok(())
}

// The check of a day file, which tells its plain areas, then the record judged for its trading day.
pub fn admit(given: Record, file: &[u8]) -> Result<[bool; limits::PROVED_AREAS], Refusal>
    ensures answer_value { verdict_in result ≡ admit_rule given file.now }
    ensures plain_told { IfOk result (λ plain. PlainTold plain file.now (areas_of file.now)) }
{
    let plain = dayfile::checked(file)?;
    judge(given, words::word(file, 1))?;
    Ok(plain)
}

// The calendar days between the last day entered and a trading day after it.
pub fn gap(given: Record, date: u32) -> u32
    requires { (real_date date ≡ true) × (number_of (record_rule given date) ≡ 0) }
    ensures { result ≡ days_between given date }
{
    let day = calendar::day_number(date);
    let before = last_number(given.last);
    day - before
}
