// Settles a month book into one statement: the call `settle_month`.
#![tactic(auto)]

ghost use Rattle.std.specs.Prelude.{◌≡◌, ◌++◌, ◌≤◌, min, length, drop};
ghost use Rattle.settlement.specs.Settlement.{settle_of};
ghost use Rattle.book.specs.Read.{count_of, days_of};
ghost use Rattle.book.specs.Sound.{Sound};
ghost use Rattle.month_rules.specs.Month.{numbers_taken, settled_day, places_of, settled_days, month_rule, statement_after, table_after};

use verdict::Refusal;

// The answer of a day, and how many of the numbers that were left it takes: all of them where they are too few.
#[derive(Clone, Copy)]
struct DayPart {
    answer: Result<(), Refusal>,
    numbers: usize,
}

// One day, at the front of what is left of the statement. A day that its check refuses takes no numbers.
fn settle_day(file: &[u8], statement: &mut [i64]) -> DayPart
    ensures answer_value { result.answer ≡ settle_of file.now (length statement.old) }
    ensures numbers_value { result.numbers ≡ min (numbers_taken file.now) (length statement.old) }
    ensures statement_after { statement.new ≡ settled_day file.now statement.old }
{
    let plain = match dayfile::checked(file) {
        Ok(plain) => plain,
        Err(refusal) => {
            return DayPart {
                answer: Err(refusal),
                numbers: 0,
            };
        }
    };
    let needed = settlement::numbers_needed(file, words::word(file, 2) as usize);
    let answer = settlement::settle_accepted(plain, &[], file, statement);
    DayPart {
        answer,
        numbers: needed.min(statement.len()),
    }
}

// The days of a checked book in order, each in the part of the statement behind those before it.
fn settle_days(book: &[u8], n: usize, statement: &mut [i64], table: &mut [u64])
    requires { (Sound book.now) × ((n ≡ count_of book.now) × (n ≤ length table.old)) }
    ensures statement_after { statement.new ≡ settled_days (days_of book.now) statement.old }
    ensures table_after { table.new ≡ places_of (length statement.old) (days_of book.now) ++ drop n table.old }
{
    let mut to: usize = 0;
    for i in 0..n {
        let part = settle_day(book::file_at(book, i), &mut statement[to..]);
        table[i] = verdict::code(part.answer);
        to += part.numbers;
    }
}

// The check of the book, then whether the table has a place for each day.
#[tactic(auto, using(verdict::proofs::First::in_order, book::proofs::Kept::sound_book, std::proofs::lemmas::Bool::Decides::nat_tests), unfolding(month_rules::specs::Month::month_rule))]
fn admit(book: &[u8], places: usize) -> Result<(), Refusal>
    ensures { result ≡ month_rule book.now places }
{
    book::check(book)?;
    if places < words::word(book, 1) as usize {
        return Err(Refusal::DaysDoNotFit);
    }
    Ok(())
}

// Checks the book, then settles its days one by one into `statement`, each behind the numbers of the days before it, and puts what each answers to its place of
// `table`. A refusal leaves both as they were.
pub fn settle_month(book: &[u8], statement: &mut [i64], table: &mut [u64]) -> Result<(), Refusal>
    ensures value { result ≡ month_rule book.now (length table.old) }
    ensures statement_after { statement.new ≡ statement_after book.now result statement.old }
    ensures table_after { table.new ≡ table_after book.now result (length statement.old) table.old }
{
    admit(book, table.len())?;
    let n = words::word(book, 1) as usize;
    settle_days(book, n, statement, table);
    Ok(())
}
