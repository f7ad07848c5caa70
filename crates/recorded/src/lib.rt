// Settles a day file with the record of failing days: the call `settle_recorded`.
#![tactic(auto)]

ghost use Rattle.std.specs.Prelude.{◌≡◌, ℕ, ◌≤◌, ◌<◌, length, get_or};
ghost use Rattle.limits.specs.Editions.{most_held};
ghost use Rattle.verdict.specs.Verdict.{number_of};
ghost use Rattle.contents.specs.File.{day_of, areas_of, number_at};
ghost use Rattle.marks.specs.Marks.{counted};
ghost use Rattle.recording.specs.Record.{entries, marks_of};
ghost use Rattle.record_check.specs.Left.{admit_rule};
ghost use Rattle.dayfile.specs.Plain.{PlainTold};
ghost use Rattle.settlement.specs.SoundFile.{SoundFile};
ghost use Rattle.settlement.specs.Settlement.{days_by, accepted_rule};
ghost use Rattle.recorded.specs.Recorded.{record_days, settle_recorded, after_recorded};

use recording::Record;
use verdict::Refusal;

// The d of n areas on a day that is g days after the last day entered.
fn recorded_days(given: Record, g: u32, file: &[u8], n: usize) -> [u32; limits::PROVED_AREAS]
    requires { (SoundFile file.now) × (n ≡ areas_of file.now) × (given.held ≤ most_held) }
    ensures { (k : ℕ) → k < areas_of file.now → get_or result k 0 ≡ counted (marks_of (number_at file.now k) (entries given)) g }
{
    let mut days = [0u32; limits::PROVED_AREAS];
    for k in 0..n {
        let marks = recording::marks_of(given, words::word(file, 4 + 3 * k));
        days[k] = marks::count(marks, g);
    }
    days
}

// Past 18: 13, then areas and hours in order, and where nothing is refused the statement.
fn settle_after(
    plain: [bool; limits::PROVED_AREAS],
    given: Record,
    file: &[u8],
    statement: &mut [i64],
) -> Result<(), Refusal>
    requires { (number_of (admit_rule given file.now) ≡ 0) × (PlainTold plain file.now (areas_of file.now)) }
    ensures value { result ≡ accepted_rule (days_by (record_days given (day_of file.now)) file.now) file.now
        (length statement.old) }
    ensures statement_after { statement.new ≡ after_recorded given file.now result statement.old }
{
    let date = words::word(file, 1);
    let n = words::word(file, 2) as usize;
    let g = record_check::gap(given, date);
    let days = recorded_days(given, g, file, n);
    settlement::settle_accepted(plain, &days, file, statement)
}

// Checks the whole file and the record, then settles the file into `statement` with the d that the record counts. The record stays, and a refusal
// leaves the statement as it was.
pub fn settle_recorded(given: Record, file: &[u8], statement: &mut [i64]) -> Result<(), Refusal>
    ensures value { result ≡ settle_recorded given file.now (length statement.old) }
    ensures statement_after { statement.new ≡ after_recorded given file.now result statement.old }
{
    let plain = record_check::admit(given, file)?;
    settle_after(plain, given, file, statement)
}
