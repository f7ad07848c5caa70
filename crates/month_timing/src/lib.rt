// The calls of a month for a timing program in C. Each answers the number of its refusal, and leaves what the call itself leaves.
#![tactic(auto)]

ghost use Rattle.std.specs.Prelude.{◌≡◌, length};
ghost use Rattle.verdict.specs.Verdict.{number_of};
ghost use Rattle.keeping.specs.Keeping.{add_rule, with_day, withdraw_rule, without_day};
ghost use Rattle.month_rules.specs.Month.{month_rule, statement_after, table_after};

#[unsafe(no_mangle)]
pub extern "C" fn month_timing_settle(book: &[u8], statement: &mut [i64], table: &mut [u64]) -> u32
    ensures value { result ≡ number_of (month_rule book.now (length table.old)) }
    ensures statement_after { statement.new
        ≡ statement_after book.now (month_rule book.now (length table.old)) statement.old }
    ensures table_after { table.new
        ≡ table_after book.now (month_rule book.now (length table.old)) (length statement.old)
        table.old }
{
    verdict::number(month::settle_month(book, statement, table))
}

#[unsafe(no_mangle)]
pub extern "C" fn month_timing_add_day(book: &mut [u8], file: &[u8]) -> u32
    ensures value { result ≡ number_of (add_rule book.old file.now) }
    ensures book_after { book.new ≡ with_day book.old file.now }
{
    verdict::number(keeping::add_day(book, file))
}

#[unsafe(no_mangle)]
pub extern "C" fn month_timing_withdraw_day(book: &mut [u8], date: u32) -> u32
    ensures value { result ≡ number_of (withdraw_rule book.old date) }
    ensures book_after { book.new ≡ without_day book.old date }
{
    verdict::number(keeping::withdraw_day(book, date))
}
