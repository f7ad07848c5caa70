// The month book: its check, where a day's file is due, and a day's file as a part of the book.
#![tactic(auto)]

ghost use Rattle.std.specs.Prelude.{◌≡◌, ◌+◌, ◌*◌, ◌≤◌, ◌<◌, ◌^◌, length};
ghost use Rattle.verdict.specs.First.{scan};
ghost use Rattle.moving.specs.Written.{part};
ghost use Rattle.book.specs.Read.{count_of, date_at, start_at, size_at, due_at};
ghost use Rattle.book.specs.Check.{entry_rule, entry_rule_at, date_rule_at, book_rule};
ghost use Rattle.book.specs.Sound.{Sound};

use verdict::Refusal;

pub const MOST_BOOK_DAYS: usize = 31;

const LEAST_DAY_WORDS: usize = 4;

// An entry of the contents: a day's date, and where its file starts and how long it is, in words.
#[derive(Clone, Copy)]
struct Entry {
    date: u32,
    start: usize,
    size: usize,
}

impl Entry {
    // Entry k of the contents.
    fn read(book: &[u8], k: usize) -> Entry
        requires { 8 + 12 * k + 12 ≤ length book.now }
        ensures read { (result.date ≡ date_at book.now k) × ((result.start ≡ start_at book.now k) × (result.size ≡ size_at book.now k)) }
        ensures words { (result.start < 4294967296) × (result.size < 4294967296) }
    {
        let at = 2 + 3 * k;
        Entry {
            date: words::word(book, at),
            start: words::word(book, at + 1) as usize,
            size: words::word(book, at + 2) as usize,
        }
    }

    // The rule of an entry at word `at`, in a room of so many words.
    fn check(self, words: usize, at: usize, before: u32, due: usize) -> Result<(), Refusal>
        requires { (at < 2 ^ 62) × ((words < 2 ^ 62) × ((due ≤ words) × (self.size < 4294967296))) }
        ensures { result ≡ entry_rule words at before due self.date self.start self.size }
    {
        if !calendar::real_date(self.date) || self.date <= before {
            return Err(Refusal::BadBook { word: at });
        }
        if self.start != due {
            return Err(Refusal::BadBook { word: at + 1 });
        }
        if self.size < LEAST_DAY_WORDS || words < due + self.size {
            return Err(Refusal::BadBook { word: at + 2 });
        }
        Ok(())
    }
}

// The contents: n entries.
fn contents(book: &[u8], n: usize) -> Result<(), Refusal>
    requires { (n ≡ count_of book.now) × (8 + 12 * n ≤ length book.now) }
    ensures { result ≡ scan (entry_rule_at book.now) 0 n }
{
    let words = book.len() / 4;
    let mut before = 0;
    let mut due = 2 + 3 * n;
    for k in 0..n {
        let entry = Entry::read(book, k);
        entry.check(words, 2 + 3 * k, before, due)?;
        before = entry.date;
        due += entry.size;
    }
    Ok(())
}

// Word 1 of each of n files.
#[tactic(auto, using(verdict::proofs::First::in_order, crate::proofs::Places::file_within, std::proofs::lemmas::Bool::Decides::nat_tests), unfolding(crate::specs::Check::date_rule_at))]
fn dates(book: &[u8], n: usize) -> Result<(), Refusal>
    requires { (n ≡ count_of book.now) × (Sound book.now) }
    ensures { result ≡ scan (date_rule_at book.now) 0 n }
{
    for k in 0..n {
        let entry = Entry::read(book, k);
        let at = entry.start + 1;
        if words::word(book, at) != entry.date {
            return Err(Refusal::BadBook { word: at });
        }
    }
    Ok(())
}

// The first word of a book that breaks its rule. The days themselves are not checked.
#[tactic(auto, using(verdict::proofs::First::in_order, crate::proofs::Kept::sound_contents, std::proofs::lemmas::Bool::Decides::nat_tests), unfolding(crate::specs::Check::book_rule))]
pub fn check(book: &[u8]) -> Result<(), Refusal>
    ensures { result ≡ book_rule book.now }
{
    let words = book.len() / 4;
    if words < 2 || words::word(book, 0) != 1 {
        return Err(Refusal::BadBook { word: 0 });
    }
    let n = words::word(book, 1) as usize;
    if MOST_BOOK_DAYS < n || words < 2 + 3 * n {
        return Err(Refusal::BadBook { word: 1 });
    }
    contents(book, n)?;
    dates(book, n)
}

// The word at which the file of day k is due; for the number of days, where the book ends.
pub fn due(book: &[u8], k: usize) -> usize
    requires { (k ≤ count_of book.now) × Sound book.now }
    ensures { result ≡ due_at book.now k }
{
    if k == 0 {
        return 2 + 3 * (words::word(book, 1) as usize);
    }
    let before = Entry::read(book, k - 1);
    before.start + before.size
}

// The file of day k, a part of the book.
pub fn file_at(book: &[u8], k: usize) -> &[u8]
    requires { (k < count_of book.now) × Sound book.now }
    ensures { result.now ≡ part book.now (4 * start_at book.now k) (4 * size_at book.now k) }
{
    let entry = Entry::read(book, k);
    &book[4 * entry.start..4 * (entry.start + entry.size)]
}
