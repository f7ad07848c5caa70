// Adds a day to a month book in lent room, and withdraws one: the calls `add_day` and `withdraw_day`.
#![tactic(auto)]

ghost use Rattle.std.specs.Prelude.{◌≡◌, ◌<◌, ◌^◌};
ghost use Rattle.book.specs.Sound.{Sound};
ghost use Rattle.keeping.specs.Keeping.{day_rule, add_rule, with_day, withdraw_rule, without_day};

use verdict::Refusal;

// A first word is a word: no entry can say that a file begins behind so many words.
const MOST_BOOK_WORDS: usize = 4294967296;

// The date and the room, for a day whose file has `size` words.
#[tactic(auto, using(std::proofs::lemmas::Bool::Decides::nat_tests, crate::proofs::Rules::is_there_lem, crate::proofs::Rules::is_absent), unfolding(crate::specs::Keeping::day_rule))]
fn judge(book: &[u8], date: u32, size: usize) -> Result<(), Refusal>
    requires { (Sound book.now) × (size < 2 ^ 62) }
    ensures { result ≡ day_rule book.now date size }
{
    let n = words::word(book, 1) as usize;
    if keeping_places::find(book, n, date) < n {
        return Err(Refusal::DateThereOrAbsent);
    }
    if n == book::MOST_BOOK_DAYS {
        return Err(Refusal::DaysDoNotFit);
    }
    let end = book::due(book, n) + 3 + size;
    if book.len() / 4 < end || MOST_BOOK_WORDS < end {
        return Err(Refusal::DaysDoNotFit);
    }
    Ok(())
}

// 20, then the check of the new file, then 22 and 21.
#[tactic(auto, using(verdict::proofs::First::in_order, book::proofs::Kept::sound_book, crate::proofs::Rules::file_long), unfolding(crate::specs::Keeping::add_rule))]
fn admit(book: &[u8], file: &[u8]) -> Result<(), Refusal>
    ensures { result ≡ add_rule book.now file.now }
{
    book::check(book)?;
    dayfile::check(file)?;
    judge(book, words::word(file, 1), file.len() / 4)
}

// Checks the book and the new file, then puts the file to its place by date. A refusal leaves the book as it was.
#[tactic(auto, using(crate::proofs::Results::not_added, crate::proofs::Results::day_added))]
pub fn add_day(book: &mut [u8], file: &[u8]) -> Result<(), Refusal>
    ensures value { result ≡ add_rule book.old file.now }
    ensures book_after { book.new ≡ with_day book.old file.now }
{
    admit(book, file)?;
    let date = words::word(file, 1);
    let n = words::word(book, 1) as usize;
    let k = keeping_places::place(book, n, date);
    keeping_moves::add_at(book, k, date, file);
    Ok(())
}

// Checks the book, then takes out the day of that date. What is freed becomes 0, and a refusal leaves the book as it was.
#[tactic(auto, using(crate::proofs::Results::withdrawing), unfolding(crate::specs::Keeping::withdraw_rule))]
pub fn withdraw_day(book: &mut [u8], date: u32) -> Result<(), Refusal>
    ensures value { result ≡ withdraw_rule book.old date }
    ensures book_after { book.new ≡ without_day book.old date }
{
    book::check(book)?;
    let n = words::word(book, 1) as usize;
    let k = keeping_places::find(book, n, date);
    if k == n {
        return Err(Refusal::DateThereOrAbsent);
    }
    keeping_moves::withdraw_at(book, k);
    Ok(())
}
