// Enters a day file into the record of failing days: the call `enter`.
#![tactic(auto)]

ghost use Rattle.std.specs.Prelude.{◌≡◌, ◌^◌};
ghost use Rattle.limits.specs.Ranges.{recorded_days};
ghost use Rattle.contents.specs.File.{areas_of};
ghost use Rattle.marking.specs.Marked.{marked_from};
ghost use Rattle.recording.specs.Record.{entries, marked_all, Sound, answered};
ghost use Rattle.settlement.specs.SoundFile.{SoundFile};
ghost use Rattle.entering.specs.Enter.{answer_with, enter_of, record_after, entered};

use recording::Record;
use verdict::Refusal;

// The day marked for each area of the file that failed, for all of them or for none.
fn mark_areas(given: Record, file: &[u8], n: usize) -> Option<Record>
    requires { (Sound (2 ^ recorded_days) given) × (SoundFile file.now) × (n ≡ areas_of file.now) }
    ensures { result ≡ answered given.last (marked_all (marked_from file.now 0 n) (entries given)) }
{
    let mut so_far = given;
    for k in 0..n {
        if marking::marked(contents::body_at(file, k)) {
            so_far = recording::mark(so_far, words::word(file, 4 + 3 * k))?;
        }
    }
    Some(so_far)
}

// Checks the whole file and the record, then enters the file: the record moves on by the days between, marks past the thirty days go, areas
// without a mark go, and areas that failed on the day come in. A refusal leaves the record as it was.
pub fn enter(given: &mut Record, file: &[u8]) -> Result<(), Refusal>
    ensures value { result ≡ enter_of given.old file.now }
    ensures record_after { given.new ≡ record_after given.old file.now result }
    ensures both { answer_with result given.new ≡ entered given.old file.now }
{
    record_check::admit(*given, file)?;
    let date = words::word(file, 1);
    let n = words::word(file, 2) as usize;
    let aged = recording::age_all(*given, date, record_check::gap(*given, date));
    let Some(after) = mark_areas(aged, file, n) else {
        return Err(Refusal::TooManyAreas);
    };
    *given = after;
    Ok(())
}
