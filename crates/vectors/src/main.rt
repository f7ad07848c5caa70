// Runs the library's public calls on a stream of cases from standard input, and prints a line for each.
// A case is four words (the call, x, y, the number of payload bytes) and its payload; the stream ends where no whole case follows.
#![tactic(auto)]

use record_words::RECORD_WORDS;
use recording::Record;
use sharing::{ROWS_BY_VALUE, Row};
use std::io;
use verdict::Refusal;

// The most bytes of a payload: a month book of many days.
const PAYLOAD_ROOM: usize = 262144;

// The most numbers that are lent to a call: more than the longest statement needs.
const NUMBERS_ROOM: usize = 8192;

// The most words of a basis.
const BASIS_ROOM: usize = 1024;

// Why no more cases are run.
#[derive(Debug, Drop)]
enum Stop {
    End,
    BadCase,
    Failed(io::Error),
}

impl From<io::Error> for Stop {
    fn from(error: io::Error) -> Stop {
        Stop::Failed(error)
    }
}

// A whole number of a case as a count, and the payload behind it.
fn counted(payload: &[u8]) -> Result<(usize, &[u8]), Stop> {
    let (count, rest) = payload.split_at_checked(4).ok_or(Stop::BadCase)?;
    Ok((words::word(count, 0) as usize, rest))
}

// The words at the front of some bytes; 0 for each that is not there.
fn words_of<const COUNT: usize>(bytes: &[u8]) -> [u32; COUNT] {
    let mut numbers = [0; COUNT];
    for (number, word) in numbers.iter_mut().zip(bytes.chunks_exact(4)) {
        *number = words::word(word, 0);
    }
    numbers
}

fn digest(bytes: &[u8]) -> u32 {
    bytes.iter().fold(
        0,
        |sum: u32, byte| sum.wrapping_mul(31).wrapping_add(u32::from(*byte)),
    )
}

fn show_verdict(rt: &impl Print, answer: Result<(), Refusal>) -> io::Result<()> {
    match answer {
        Ok(()) => print!(rt; "0 0"),
        Err(refusal) => print!(rt; "{refusal}"),
    }
}

// The numbers that are lent to a call: what is printed of them shows whether the call touched them.
fn lend(numbers: &mut [i64]) {
    for (number, lent) in numbers.iter_mut().zip(-9000000000000000000..0) {
        *number = lent;
    }
}

// Lends x numbers of some room to a call, and prints its verdict and what it left in them.
fn with_numbers<F: FnOnce(&mut [i64]) -> Result<(), Refusal>>(
    rt: &impl Print,
    room: &mut [i64],
    x: usize,
    call: F,
) -> Result<(), Stop>
    requires { F.IsAlwaysCallable call }
{
    let numbers = room.get_mut(..x).ok_or(Stop::BadCase)?;
    lend(numbers);
    show_verdict(rt, call(numbers))?;
    show::numbers(rt, numbers)?;
    println!(rt)?;
    Ok(())
}

fn check(rt: &impl Print, file: &[u8]) -> Result<(), Stop> {
    show_verdict(rt, dayfile::check(file))?;
    println!(rt)?;
    Ok(())
}

fn settle(rt: &impl Print, file: &[u8], x: usize) -> Result<(), Stop> {
    with_numbers(
        rt,
        &mut [0; NUMBERS_ROOM],
        x,
        |statement| settlement::settle(file, statement),
    )
}

fn price(rt: &impl Print, pairs: &[u8]) -> Result<(), Stop> {
    let answer = price::load_weighted(pairs);
    let number = price::number(answer);
    let place = price::place(answer);
    println!(rt;
        "{number} {place} {} {}",
        price::price_of(answer),
        price::count_of(answer)
    )?;
    Ok(())
}

fn share(rt: &impl Print, payload: &[u8], x: usize) -> Result<(), Stop> {
    let (amount, pairs) = payload.split_at_checked(8).ok_or(Stop::BadCase)?;
    let n = pairs.len() / 8;
    if ROWS_BY_VALUE < n {
        return Err(Stop::BadCase);
    }
    let none = Row {
        coordinator: 0,
        demand: 0,
    };
    let mut rows = [none; ROWS_BY_VALUE];
    for (row, pair) in rows.iter_mut().zip(pairs.chunks_exact(8)) {
        *row = Row {
            coordinator: words::word(pair, 0),
            demand: words::word(pair, 1),
        };
    }
    let [low, high] = words_of::<2>(amount);
    let amount = (u64::from(high) << 32 | u64::from(low)).cast_signed();
    with_numbers(
        rt,
        &mut [0; 128],
        x,
        |charges| sharing::share_array(amount, rows, n, charges),
    )
}

fn lookup(rt: &impl Print, file: &[u8], area: u32) -> Result<(), Stop> {
    let body = dayfile::body_of(file, area);
    println!(rt; "{} {}", body.len(), digest(body))?;
    Ok(())
}

// Each byte that is lent is 165: what is printed of the bytes shows whether the call touched them.
fn c_call(rt: &impl Print, file: &[u8], x: usize) -> Result<(), Stop> {
    let mut room = [165; 65536];
    let statement = room.get_mut(..x).ok_or(Stop::BadCase)?;
    let answer = rse8080::rse8080_settle(file, statement);
    println!(rt; "{answer} {}", digest(statement))?;
    Ok(())
}

// The record whose words stand before a day file, and the file.
fn recorded_file(payload: &[u8]) -> Result<(Record, &[u8]), Stop> {
    let (words, file) = payload
        .split_at_checked(4 * RECORD_WORDS)
        .ok_or(Stop::BadCase)?;
    Ok((record_words::record_of(words_of(words)), file))
}

fn enter(rt: &impl Print, payload: &[u8]) -> Result<(), Stop> {
    let (mut record, file) = recorded_file(payload)?;
    show_verdict(rt, entering::enter(&mut record, file))?;
    show::numbers(rt, &record_words::words_of(record))?;
    println!(rt)?;
    Ok(())
}

fn settle_recorded(rt: &impl Print, payload: &[u8], x: usize) -> Result<(), Stop> {
    let (given, file) = recorded_file(payload)?;
    with_numbers(
        rt,
        &mut [0; NUMBERS_ROOM],
        x,
        |statement| recorded::settle_recorded(given, file, statement),
    )
}

// The places that are lent of a table are told by what is printed of them, as the numbers are.
fn settle_month(rt: &impl Print, payload: &[u8], x: usize) -> Result<(), Stop> {
    let (places, book) = counted(payload)?;
    let mut table_room = [0; 64];
    let table = table_room.get_mut(..places).ok_or(Stop::BadCase)?;
    for (place, lent) in table.iter_mut().zip(9000000000000000000..u64::MAX) {
        *place = lent;
    }
    let mut room = [0; NUMBERS_ROOM];
    let statement = room.get_mut(..x).ok_or(Stop::BadCase)?;
    lend(statement);
    show_verdict(rt, month::settle_month(book, statement, table))?;
    show::numbers(rt, table)?;
    show::numbers(rt, statement)?;
    println!(rt)?;
    Ok(())
}

fn show_book(rt: &impl Print, answer: Result<(), Refusal>, book: &[u8]) -> Result<(), Stop> {
    show_verdict(rt, answer)?;
    println!(rt; " {}", digest(book))?;
    Ok(())
}

// The book is copied out of the payload, so that the file stays beside it.
fn add_day(rt: &impl Print, payload: &[u8]) -> Result<(), Stop> {
    let (bytes, rest) = counted(payload)?;
    let (given, file) = rest.split_at_checked(bytes).ok_or(Stop::BadCase)?;
    let mut room = [0; PAYLOAD_ROOM];
    let book = room.get_mut(..bytes).ok_or(Stop::BadCase)?;
    book.copy_from_slice(given);
    let answer = keeping::add_day(book, file);
    show_book(rt, answer, book)
}

fn withdraw_day(rt: &impl Print, book: &mut [u8], date: u32) -> Result<(), Stop> {
    let answer = keeping::withdraw_day(book, date);
    show_book(rt, answer, book)
}

fn pay_out(rt: &impl Print, payload: &[u8], x: usize) -> Result<(), Stop> {
    let (count, rest) = counted(payload)?;
    if BASIS_ROOM < count {
        return Err(Stop::BadCase);
    }
    let (words, file) = rest.split_at_checked(4 * count).ok_or(Stop::BadCase)?;
    let basis = words_of::<BASIS_ROOM>(words);
    with_numbers(
        rt,
        &mut [0; NUMBERS_ROOM],
        x,
        |payments| payout::pay_out(file, &basis[..count], payments),
    )
}

// The one place that turns the number of a case, a word of the stream, into a call.
fn call(rt: &impl Print, number: u32, x: u32, payload: &mut [u8]) -> Result<(), Stop> {
    match number {
        1 => check(rt, payload),
        2 => settle(rt, payload, x as usize),
        3 => price(rt, payload),
        4 => share(rt, payload, x as usize),
        5 => lookup(rt, payload, x),
        6 => c_call(rt, payload, x as usize),
        7 => enter(rt, payload),
        8 => settle_recorded(rt, payload, x as usize),
        9 => settle_month(rt, payload, x as usize),
        10 => add_day(rt, payload),
        11 => withdraw_day(rt, payload, x),
        12 => pay_out(rt, payload, x as usize),
        _ => Err(Stop::BadCase),
    }
}

// Fills some room from the stream, which ends where it does not fill it.
fn fill(rt: &impl Input, room: &mut [u8]) -> Result<(), Stop> {
    if reading::read_full(rt, room)? < room.len() {
        return Err(Stop::End);
    }
    Ok(())
}

fn case(rt: &(impl Input + Print)) -> Result<(), Stop> {
    let mut head = [0u8; 16];
    fill(rt, &mut head)?;
    let [number, x, _, bytes] = words_of::<4>(&head);
    let mut room = [0; PAYLOAD_ROOM];
    let payload = room.get_mut(..bytes as usize).ok_or(Stop::BadCase)?;
    fill(rt, payload)?;
    call(rt, number, x, payload)
}

fn run(rt: &(impl Input + Print)) -> io::Result<()> {
    for _ in 0..1000000 {
        match case(rt) {
            Ok(()) => {}
            Err(Stop::End) => return Ok(()),
            Err(Stop::BadCase) => return println!(rt; "bad case"),
            Err(Stop::Failed(error)) => return Err(error),
        }
    }
    Ok(())
}

// What could not be read or written is said on standard error, and makes the exit status 1.
fn main(rt: HostRuntime) -> io::Result<()> {
    run(&rt)
}
