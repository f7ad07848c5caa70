// Runs the figures of documents 01 and 02 through the public calls, and prints a line for each: what is asked, then what the call
// gives. Amounts are cents, prices ten-thousandths of a dollar. A day here is one area of kind 0 with one coordinator: an
// hour is 33 words, the first hour's begin at word 15.
#![tactic(auto)]

use recording::Record;
use sharing::Row;
use std::io;
use verdict::Refusal;

// Words of an hour.
const UPWARD: u8 = 0;

const DOWNWARD: u8 = 4;

const REQUIREMENT: u8 = 6;

const MEC: u8 = 7;

// The words of the longest body of edition 1.
const LONGEST_BODY: u32 = 2951;

// The bytes of a file of one area, which has the longest body or, as a day here, the shortest.
const ROOM: usize = 4 * (7 + LONGEST_BODY as usize);

const DAY_BYTES: usize = 4 * (7 + limits::LEAST_BODY_WORDS);

// The numbers of an hour and of an area with one coordinator.
const HOUR_NUMBERS: usize = statement::AMOUNTS_SHOWN + 1;

const AREA_NUMBERS: usize = limits::DAY_HOURS * HOUR_NUMBERS;

// The word that says -n.
fn minus(n: u32) -> u32 {
    0u32.wrapping_sub(n)
}

// A file of one area, in room for the longest body. Hours are counted from 0.
#[derive(Clone, Copy)]
struct Day {
    bytes: [u8; ROOM],
}

impl Day {
    // The head, the contents and the head of the body with its first coordinator; every hour all 0.
    fn empty(peak: u32, words: u32, days: u32, hub_a: u32, hub_b: u32) -> Day {
        let mut day = Day { bytes: [0; ROOM] };
        let head = [
            1, 20260504, 1, peak, 7, 7, words, 0, 1, days, hub_a, hub_b, 1, 1, 12,
        ];
        for (word, value) in head.into_iter().enumerate() {
            day.put(word, value);
        }
        day
    }

    // A day without deficiencies, every price missing.
    fn quiet(peak: u32, days: u32, hub_a: u32, hub_b: u32) -> Day {
        let mut day = Day::empty(peak, limits::LEAST_BODY_WORDS as u32, days, hub_a, hub_b);
        for hour in 0..limits::DAY_HOURS as u8 {
            day.put_pairs(first_interval(hour), 12, 0, limits::MISSING_PRICE);
        }
        day
    }

    // A word past the end is not written.
    fn put(&mut self, word: usize, value: u32) {
        let (words, _) = self.bytes.as_chunks_mut();
        if let Some(place) = words.get_mut(word) {
            *place = value.to_le_bytes();
        }
    }

    fn set(&mut self, hour: u8, word: u8, value: u32) {
        self.put(15 + 33 * usize::from(hour) + usize::from(word), value);
    }

    // So many interval pairs alike, from a word on.
    fn put_pairs(&mut self, at: u16, count: u8, quantity: u32, price: u32) {
        for interval in 0..count {
            let word = usize::from(at) + 2 * usize::from(interval);
            self.put(word, quantity);
            self.put(word + 1, price);
        }
    }

    fn put_price(&mut self, hour: u8, price: u32) {
        self.put_pairs(first_interval(hour), 12, 1000, price);
    }

    fn put_deficiency(&mut self, hour: u8, upward: u32, requirement: u32) {
        self.set(hour, UPWARD, upward);
        self.set(hour, REQUIREMENT, requirement);
    }

    // The file of a day that has the shortest body.
    fn file(&self) -> &[u8] {
        &self.bytes[..DAY_BYTES]
    }
}

fn first_interval(hour: u8) -> u16 {
    23 + 33 * u16::from(hour)
}

fn show_verdict(rt: &impl Print, answer: Result<(), Refusal>) -> io::Result<()> {
    match answer {
        Ok(()) => print!(rt; " 0 0"),
        Err(refusal) => print!(rt; " {refusal}"),
    }
}

// The number and place of the settled day, and the hour's on-peak, off-peak and downward amount, S, credit and charge.
fn show_settled(
    rt: &impl Print,
    label: &str,
    answer: Result<(), Refusal>,
    statement: &[i64],
    hour: u8,
) -> io::Result<()> {
    let from = HOUR_NUMBERS * usize::from(hour);
    print!(rt; "{label}")?;
    show_verdict(rt, answer)?;
    show::numbers(rt, statement.get(from..from + HOUR_NUMBERS).unwrap_or(&[]))?;
    println!(rt)
}

fn settled(rt: &impl Print, label: &str, day: &Day, hour: u8) -> io::Result<()> {
    let mut statement = [0; AREA_NUMBERS];
    let answer = settlement::settle(day.file(), &mut statement);
    show_settled(rt, label, answer, &statement, hour)
}

fn off_peak(
    rt: &impl Print,
    label: &str,
    days: u32,
    upward: u32,
    requirement: u32,
    price: u32,
) -> io::Result<()> {
    let mut day = Day::quiet(0, days, 0, 0);
    day.put_deficiency(0, upward, requirement);
    day.put_price(0, price);
    settled(rt, label, &day, 0)
}

// At $1 and without persistent days a tier of 1 costs nothing, 2 costs 1.25 and 3 costs 2 dollars a MWh.
fn tier(rt: &impl Print, label: &str, upward: u32, requirement: u32) -> io::Result<()> {
    off_peak(rt, label, 0, upward, requirement, 10000)
}

fn tiers(rt: &impl Print) -> io::Result<()> {
    tier(rt, "T1 U 10.000, Q 600:", 10000, 600000)?;
    tier(rt, "T1 U 10.001, Q 600:", 10001, 600000)?;
    tier(rt, "T2 U 300.000, Q 600:", 300000, 600000)?;
    tier(rt, "T2 U 300.001, Q 600:", 300001, 600000)?;
    tier(rt, "T3 U 20.000, Q 2,000:", 20000, 2000000)?;
    tier(rt, "T3 U 20.001, Q 2,000:", 20001, 2000000)?;
    tier(rt, "T4 U 8.000, Q 10:", 8000, 10000)?;
    tier(rt, "T4 U 10.001, Q 10:", 10001, 10000)?;
    tier(rt, "T5 U 10.000, Q 1,000.050:", 10000, 1000050)?;
    tier(rt, "T5 U 10.001, Q 1,000.050:", 10001, 1000050)
}

// Hubs at 80.00 and 95.50, d 3, and M = 120 MW in the hour ending 8, of tier 2. The hour ending 9 is of tier 1.
fn failed_day() -> Day {
    let mut day = Day::quiet(limits::PEAK_WORD, 3, 8000, 9550);
    day.put_deficiency(7, 120000, 1000000);
    day.put_deficiency(8, 5000, 1000000);
    for hour in 6..22 {
        day.put_price(hour, 600000);
    }
    day
}

fn passed(rt: &impl Print, label: &str, price: u32) -> io::Result<()> {
    let mut day = failed_day();
    day.put_price(9, price);
    settled(rt, label, &day, 9)
}

fn on_peak(rt: &impl Print) -> io::Result<()> {
    let day = failed_day();
    settled(
        rt,
        "T6 failed hour (with d added to the multiplier it would be 1466880):",
        &day,
        7,
    )?;
    settled(rt, "T6 hour of tier 1:", &day, 8)?;
    passed(rt, "T7 passed hour at 60:", 600000)?;
    passed(rt, "T7 passed hour at 130:", 1300000)?;
    passed(rt, "T7 passed hour at -5:", minus(50000))
}

fn day_of_tier_1(rt: &impl Print) -> io::Result<()> {
    let mut day = failed_day();
    day.set(7, UPWARD, 5000);
    day.put_price(9, minus(50000));
    settled(
        rt,
        "Day of tier 1, passed hour at -5 (no credit out of nothing):",
        &day,
        9,
    )
}

// A day that fails in every hour: hours ending 7 to 22 are on-peak.
fn peak_hours(rt: &impl Print) -> io::Result<()> {
    let mut day = failed_day();
    day.put_deficiency(5, 120000, 1000000);
    day.put_price(5, 10000);
    day.put_deficiency(22, 120000, 1000000);
    day.put_price(22, 10000);
    settled(rt, "Hour ending 6:", &day, 5)?;
    settled(rt, "Hour ending 7:", &day, 6)?;
    settled(rt, "Hour ending 22:", &day, 21)?;
    settled(rt, "Hour ending 23:", &day, 22)
}

fn downward(rt: &impl Print, label: &str, deficiency: u32, mec: u32) -> io::Result<()> {
    let mut day = Day::quiet(0, 0, 0, 0);
    day.set(0, DOWNWARD, deficiency);
    day.set(0, MEC, mec);
    settled(rt, label, &day, 0)
}

fn downwards(rt: &impl Print) -> io::Result<()> {
    downward(rt, "T8 W 10.000 at MEC -100:", 10000, minus(1000000))?;
    downward(rt, "T8 W 10.001 at MEC -100:", 10001, minus(1000000))?;
    downward(
        rt,
        "T9 W 12.500 at MEC -0.01 (R of -12.5 is -13):",
        12500,
        minus(100),
    )?;
    downward(rt, "T9 W 12.500 at MEC 40:", 12500, 400000)
}

// 100 MWh at 30 and 300 at 50, and ten more intervals of the given quantity and price: the price, and how many intervals have one.
fn averaged(rt: &impl Print, label: &str, quantity: u32, price: u32) -> io::Result<()> {
    let mut day = Day { bytes: [0; ROOM] };
    day.put_pairs(0, 1, 100000, 300000);
    day.put_pairs(2, 1, 300000, 500000);
    day.put_pairs(4, 10, quantity, price);
    let answer = price::load_weighted(&day.bytes[..96]);
    println!(rt;
        "{label} {} {}",
        price::price_of(answer),
        price::count_of(answer)
    )
}

fn averages(rt: &impl Print) -> io::Result<()> {
    averaged(rt, "T10 ten missing:", 0, limits::MISSING_PRICE)?;
    averaged(
        rt,
        "T10 ten of 100 MWh missing:",
        100000,
        limits::MISSING_PRICE,
    )?;
    averaged(
        rt,
        "T10 ten of 100 MWh at 0 (what filling with 0 would give):",
        100000,
        0,
    )
}

// The coordinators from 1 on have these demands, of which there are at most 3.
fn shared(rt: &impl Print, label: &str, amount: i64, demands: &[u32]) -> io::Result<()> {
    let none = Row {
        coordinator: 0,
        demand: 0,
    };
    let mut rows = [none; sharing::ROWS_BY_VALUE];
    for ((row, coordinator), demand) in rows.iter_mut().zip(1..100).zip(demands) {
        *row = Row {
            coordinator,
            demand: *demand,
        };
    }
    let mut charges = [0i64; 3];
    let answer = sharing::share_array(amount, rows, demands.len(), &mut charges);
    print!(rt; "{label}")?;
    show_verdict(rt, answer)?;
    show::numbers(rt, charges.get(..demands.len()).unwrap_or(&[]))?;
    println!(rt)
}

fn sharing(rt: &impl Print) -> io::Result<()> {
    shared(rt, "T11 100 cents over 1, 1, 1:", 100, &[1, 1, 1])?;
    shared(rt, "T11 the first two merged:", 100, &[2, 1])?;
    shared(rt, "T11 -100 cents over 1, 1, 1:", -100, &[1, 1, 1])?;
    shared(rt, "T12 1 cent over 1, 0, 1:", 1, &[1, 0, 1])?;
    shared(rt, "-25 cents over 1, 1:", -25, &[1, 1])?;
    shared(rt, "10,000,000,000 cents:", limits::MOST_AMOUNT, &[1, 1])?;
    shared(
        rt,
        "10,000,000,001 cents:",
        limits::MOST_AMOUNT + 1,
        &[1, 1],
    )?;
    shared(
        rt,
        "-10,000,000,001 cents:",
        -limits::MOST_AMOUNT - 1,
        &[1, 1],
    )
}

// Case P has a price in one interval of its hour ending 3.
fn case_p_seen(rt: &impl Print, label: &str, count: u8) -> io::Result<Day> {
    let mut day = Day::quiet(limits::PEAK_WORD, 0, 0, 0);
    day.put_deficiency(2, 40000, 60000);
    day.put_pairs(first_interval(2), count, 1000, 250000);
    settled(rt, label, &day, 2)?;
    Ok(day)
}

fn case_p(rt: &impl Print) -> io::Result<()> {
    let day = case_p_seen(
        rt,
        "Case P, 807 words, hour ending 3, one price of twelve:",
        1,
    )?;
    case_p_seen(rt, "The same with eight prices:", 8)?;
    case_p_seen(rt, "The same with nine prices:", 9)?;
    let seven = dayfile::body_of(day.file(), 7).len();
    let eight = dayfile::body_of(day.file(), 8).len();
    println!(rt; "Area 7 of case P, in bytes: {seven}; area 8: {eight}")
}

fn off_peak_scaling(rt: &impl Print) -> io::Result<()> {
    off_peak(
        rt,
        "Request 2, U 40, Q 60, price 25, d 5 (with d added to the multiplier it would be 205000):",
        5,
        40000,
        60000,
        250000,
    )?;
    off_peak(rt, "The same with d 0:", 0, 40000, 60000, 250000)?;
    off_peak(rt, "The same with d 5, Q 80:", 5, 40000, 80000, 250000)?;
    off_peak(rt, "The same with d 5, U 10:", 5, 10000, 60000, 250000)
}

// Request 3: a day that is short of `upward` in the hour ending 3, at $25, and says d 30 of itself.
fn short_day(date: u32, upward: u32) -> Day {
    let mut day = Day::quiet(limits::PEAK_WORD, limits::MOST_DAYS, 0, 0);
    day.put(1, date);
    day.put_deficiency(2, upward, 60000);
    day.put_price(2, 250000);
    day
}

// The answer, and the record's last day, areas held, and first area with its marks.
fn entered(
    rt: &impl Print,
    label: &str,
    given: Record,
    date: u32,
    upward: u32,
) -> io::Result<Record> {
    let mut record = given;
    let answer = entering::enter(&mut record, short_day(date, upward).file());
    print!(rt; "{label}")?;
    show_verdict(rt, answer)?;
    show::numbers(rt, &record_words::words_of(record)[..4])?;
    println!(rt)?;
    Ok(record)
}

fn settled_with(rt: &impl Print, label: &str, given: Record, date: u32) -> io::Result<()> {
    let mut statement = [0; AREA_NUMBERS];
    let answer = recorded::settle_recorded(given, short_day(date, 40000).file(), &mut statement);
    show_settled(rt, label, answer, &statement, 2)
}

// The days of docs/FORMAT.md: marked on 28 February, 1 and 3 March 2024.
fn failing_days(rt: &impl Print) -> io::Result<()> {
    let none = recording::empty(0);
    let first = entered(rt, "Request 3, 28 February, U 40:", none, 20240228, 40000)?;
    let second = entered(rt, "29 February, U 10:", first, 20240229, 10000)?;
    let third = entered(rt, "1 March, U 10.001:", second, 20240301, 10001)?;
    let fourth = entered(rt, "3 March, U 40:", third, 20240303, 40000)?;
    settled_with(rt, "4 March, d 3:", fourth, 20240304)?;
    settled_with(rt, "29 March, d 3:", fourth, 20240329)?;
    settled_with(rt, "30 March, d 2:", fourth, 20240330)?;
    settled_with(rt, "2 April, d 1:", fourth, 20240402)?;
    settled_with(rt, "3 April, d 0:", fourth, 20240403)?;
    entered(rt, "3 March again:", fourth, 20240303, 40000)?;
    Ok(())
}

// The longest body: the most load points and the most coordinators.
fn longest_body(rt: &impl Print, label: &str, words: u32) -> io::Result<()> {
    let mut day = Day::empty(0, words, 0, 0, 0);
    day.put(7, 1);
    day.put(12, limits::MOST_POINTS as u32);
    day.put(13, limits::MOST_COORDINATORS as u32);
    for i in 0..limits::MOST_COORDINATORS {
        day.put(14 + i, 1 + (i as u32));
    }
    print!(rt; "{label}")?;
    show_verdict(rt, dayfile::check(&day.bytes))?;
    println!(rt)
}

fn run(rt: &impl Print) -> io::Result<()> {
    tiers(rt)?;
    on_peak(rt)?;
    day_of_tier_1(rt)?;
    peak_hours(rt)?;
    downwards(rt)?;
    averages(rt)?;
    sharing(rt)?;
    case_p(rt)?;
    off_peak_scaling(rt)?;
    failing_days(rt)?;
    longest_body(rt, "A body of 2,951 words:", LONGEST_BODY)?;
    longest_body(rt, "Its length said to be 2,952:", LONGEST_BODY + 1)
}

// What could not be written is said on standard error, and makes the exit status 1.
fn main(rt: HostRuntime) -> io::Result<()> {
    run(&rt)
}
