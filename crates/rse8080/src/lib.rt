// Settles a day file for a host written in C, which crate rse8080_c hands the call to. The statement is bytes, eight little-endian
// bytes a number, two's complement.
#![tactic(auto)]

ghost use Rattle.std.specs.Prelude.{◌≡◌, ◌++◌, ◌*◌, ◌≤◌, length, drop};
ghost use Rattle.verdict.specs.Verdict.{coded};
ghost use Rattle.encoding.specs.Encoding.{encoded};
ghost use Rattle.contents.specs.File.{areas_of};
ghost use Rattle.settlement.specs.SoundFile.{SoundFile, DaysKept};
ghost use Rattle.settlement.specs.Settlement.{needed_to, statement_to, days_by, own_days};
ghost use Rattle.rse8080.specs.Call.{verdict_of, bytes_after};

use surcharge::Terms;

// The areas of a file, each lent its own part of the statement and settled with its own d.
fn put_areas(file: &[u8], bytes: &mut [u8])
    requires sound_file { (SoundFile file.now) × (DaysKept (days_by own_days file.now) file.now) }
    requires blocks_fit { 8 * needed_to file.now (areas_of file.now) ≤ length bytes.old }
    ensures { bytes.new ≡ encoded (statement_to (days_by own_days file.now) file.now (areas_of file.now))
        ++ drop (8 * needed_to file.now (areas_of file.now)) bytes.old }
{
    let n = words::word(file, 2) as usize;
    let peak = words::word(file, 3);
    let mut to: usize = 0;
    for k in 0..n {
        let body = contents::body_at(file, k);
        let terms = Terms {
            peak,
            days: words::word(body, 2),
        };
        statement::write_area(terms, body, &mut bytes[to..]);
        to += 8 * statement::area_numbers(words::word(body, 6) as usize);
    }
}

// The one call for a host in C; include/rse8080.h says what it promises.
pub fn rse8080_settle(file: &[u8], statement: &mut [u8]) -> u64
    ensures value { result ≡ coded (verdict_of file.now statement.old) }
    ensures statement_after { statement.new
        ≡ bytes_after (verdict_of file.now statement.old) file.now statement.old }
{
    let answer = settlement::answer(file, statement.len() / 8);
    if answer.is_ok() {
        put_areas(file, statement);
    }
    verdict::code(answer)
}
