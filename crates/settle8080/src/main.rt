// The program: settles the day file on standard input and prints its charges, or why it is refused. All that is decided is
// decided by `settlement::settle`; here the file is read, and the statement is printed.
#![tactic(auto)]

ghost use Rattle.std.specs.Prelude.{◌≤◌};
ghost use Rattle.limits.specs.Ranges.{most_coordinators};
ghost use Rattle.limits.specs.Editions.{most_areas};

use std::io;

// N of a file. An accepted file has no more areas than its edition.
fn areas(file: &[u8]) -> usize
    ensures { result ≤ most_areas }
{
    locating::word(file, 2).min(limits::MOST_AREAS as u32) as usize
}

// K of an area. An accepted file says no more than the most of any.
fn coordinators(body: &[u8]) -> usize
    ensures { result ≤ most_coordinators }
{
    locating::word(body, 6).min(limits::MOST_COORDINATORS as u32) as usize
}

// The bytes of body k. An accepted file has them where its contents say.
fn body_at(file: &[u8], k: usize) -> &[u8]
    requires { k ≤ most_areas }
{
    let from = 4 * (locating::word(file, 5 + 3 * k) as usize);
    let to = from + 4 * (locating::word(file, 6 + 3 * k) as usize);
    file.get(from..to).unwrap_or(&[])
}

// Prints the charges of an hour, which stand behind its amounts, and adds them to the sum of those before. A charge of 0 is not printed.
// A charge is within limits::MOST_AMOUNT, and a statement has at most settlement::MOST_NUMBERS: the sum does not come near its bound.
fn with_hour(
    rt: &impl Print,
    before: i64,
    area: u32,
    body: &[u8],
    hour: usize,
    numbers: &[i64],
) -> io::Result<i64> {
    let mut total = before;
    for (i, charge) in numbers.iter().skip(statement::AMOUNTS_SHOWN).enumerate() {
        if *charge != 0 {
            let coordinator = locating::word(body, 7 + i);
            println!(rt; "{area} {coordinator} {hour} {charge}")?;
            total = total.saturating_add(*charge);
        }
    }
    Ok(total)
}

fn with_area(
    rt: &impl Print,
    before: i64,
    area: u32,
    body: &[u8],
    block: &[i64],
) -> io::Result<i64> {
    let mut total = before;
    let numbers_each = statement::hour_numbers(coordinators(body));
    for (h, numbers) in block.chunks(numbers_each).enumerate() {
        total = with_hour(rt, total, area, body, h + 1, numbers)?;
    }
    Ok(total)
}

// Prints the charges, and answers their sum. The areas follow each other in the statement.
fn show_charges(rt: &impl Print, file: &[u8], statement: &[i64]) -> io::Result<i64> {
    let mut total = 0;
    let mut rest = statement;
    for k in 0..areas(file) {
        let area = locating::word(file, 4 + 3 * k);
        let body = body_at(file, k);
        let numbers = statement::area_numbers(coordinators(body));
        let (block, others) = rest.split_at_checked(numbers).unwrap_or((&[], &[]));
        total = with_area(rt, total, area, body, block)?;
        rest = others;
    }
    Ok(total)
}

fn show_statement(rt: &impl Print, file: &[u8], statement: &[i64]) -> io::Result<()> {
    println!(rt;
        "8080 {} {}",
        locating::word(file, 1),
        locating::word(file, 2)
    )?;
    let total = show_charges(rt, file, statement)?;
    println!(rt; "total {total}")
}

// Prints the charges of a day that is settled, or why it is refused.
fn settle(rt: &impl Print, file: &[u8]) -> io::Result<()> {
    let mut statement = reading::statement_room();
    match settlement::settle(file, &mut statement) {
        Ok(()) => show_statement(rt, file, &statement),
        Err(refusal) => println!(rt; "refused {refusal}"),
    }
}

// Reads the file, and prints what it comes to.
fn run(rt: &(impl Input + Print)) -> io::Result<()> {
    let mut room = reading::file_room();
    let got = reading::read_full(rt, &mut room)?;
    settle(rt, &room[..got])
}

// What could not be read or written is said on standard error, and makes the exit status 1.
fn main(rt: HostRuntime) -> io::Result<()> {
    run(&rt)
}
