// The day file: the check of all its words, which tells which of its areas are plain, and the lookup of an area's body.
#![tactic(auto)]

ghost use Rattle.std.specs.Prelude.{◌≡◌, ◌+◌, ◌*◌, ◌≤◌, ◌<◌, ◌^◌, length, IfOk};
ghost use Rattle.words.specs.Word.{word_at};
ghost use Rattle.verdict.specs.Verdict.{number_of, verdict_in};
ghost use Rattle.limits.specs.Ranges.{proved_areas};
ghost use Rattle.limits.specs.Editions.{Proved};
ghost use Rattle.contents.specs.File.{areas_of};
ghost use Rattle.contents.specs.BodyPart.{HandsBack};
ghost use Rattle.dayfile.specs.Plain.{PlainTold};
ghost use Rattle.dayfile.specs.Check.{file_head_rule, file_head_of, entry_rule, contents_rule, bodies_rule, check_within, check_of};
ghost use Rattle.dayfile.specs.Lookup.{part_from, lookup_of};

use limits::Limits;
use verdict::Refusal;

// The four head words, in a file of `size` words.
#[tactic(auto, unfolding(crate::specs::Check::file_head_rule))]
fn head_words(
    areas: u32,
    size: usize,
    edition: u32,
    day: u32,
    n: u32,
    peak: u32,
) -> Result<(), Refusal>
    ensures { result ≡ file_head_rule areas size edition day n peak }
{
    if edition != 1 {
        return Err(Refusal::BadEdition);
    }
    if !calendar::real_date(day) {
        return Err(Refusal::BadDate);
    }
    if n < 1 {
        return Err(Refusal::BadAreaCount);
    }
    if areas < n {
        return Err(Refusal::BadAreaCount);
    }
    if size < 4 + 3 * (n as usize) {
        return Err(Refusal::BadAreaCount);
    }
    if peak != 0 && peak != limits::PEAK_WORD {
        return Err(Refusal::BadPeakHours);
    }
    Ok(())
}

// The head words of a file, at most `areas` areas.
#[tactic(auto, unfolding(crate::specs::Check::file_head_of))]
fn head(areas: u32, file: &[u8]) -> Result<(), Refusal>
    requires { 16 ≤ length file.now }
    ensures { result ≡ file_head_of areas file.now }
{
    let edition = words::word(file, 0);
    let day = words::word(file, 1);
    let n = words::word(file, 2);
    let peak = words::word(file, 3);
    head_words(areas, file.len() / 4, edition, day, n, peak)
}

// Entry k of n, at word `at`.
fn entry(
    most: usize,
    size: usize,
    n: usize,
    k: usize,
    at: usize,
    before: u32,
    due: usize,
    number: u32,
    start: usize,
    words: usize,
) -> Result<(), Refusal>
    requires { (k < n) × ((at < 2 ^ 62) × ((start < 4294967296) × (words < 4294967296))) }
    ensures { result ≡ entry_rule most size n k at before due number start words }
{
    if number <= before {
        return Err(Refusal::BadContents { word: at });
    }
    if limits::LARGEST_NUMBER < number {
        return Err(Refusal::BadContents { word: at });
    }
    if start != due {
        return Err(Refusal::BadContents { word: at + 1 });
    }
    if words < limits::LEAST_BODY_WORDS {
        return Err(Refusal::BadContents { word: at + 2 });
    }
    if most < words {
        return Err(Refusal::BadContents { word: at + 2 });
    }
    if size < start + words {
        return Err(Refusal::BadContents { word: at + 2 });
    }
    if k + 1 == n && start + words != size {
        return Err(Refusal::BadContents { word: at + 2 });
    }
    Ok(())
}

// The contents: n entries of bodies of at most `most` words.
fn contents(most: usize, file: &[u8], n: usize) -> Result<(), Refusal>
    requires { 16 + 12 * n ≤ length file.now }
    ensures { result ≡ contents_rule most file.now n }
{
    let size = file.len() / 4;
    let mut before: u32 = 0;
    let mut due = 4 + 3 * n;
    for k in 0..n {
        let at = 4 + 3 * k;
        let number = words::word(file, at);
        let start = words::word(file, at + 1) as usize;
        let words = words::word(file, at + 2) as usize;
        entry(most, size, n, k, at, before, due, number, start, words)?;
        before = number;
        due = start + words;
    }
    Ok(())
}

// The bodies of n entries whose contents are accepted, each handed on as its part of the file.
fn bodies(limits: Limits, file: &[u8], n: usize) -> Result<[bool; limits::PROVED_AREAS], Refusal>
    requires proved { (Proved limits) × (n ≤ proved_areas) }
    requires contents_accepted { (1 ≤ n) × ((16 + 12 * n ≤ length file.now) × (number_of (contents_rule limits.words file.now n) ≡ 0)) }
    ensures answer_value { verdict_in result ≡ bodies_rule limits file.now n }
    ensures plain_told { IfOk result (λ plain. PlainTold plain file.now n) }
{
    let mut plain = [false; limits::PROVED_AREAS];
    let mut ciso: u32 = 0;
    for area in 0..n {
        let start = words::word(file, 4 + 3 * area + 1) as usize;
        let body = contents::body_at(file, area);
        let told = body::check(limits, ciso, start, body)?;
        plain[area] = told;
        ciso += words::word(body, 0);
    }
    Ok(plain)
}

// The check of a file of 16 bytes or more within given limits.
fn check_within(limits: Limits, file: &[u8]) -> Result<[bool; limits::PROVED_AREAS], Refusal>
    requires { (Proved limits) × (16 ≤ length file.now) }
    ensures answer_value { verdict_in result ≡ check_within limits file.now }
    ensures plain_told { IfOk result (λ plain. PlainTold plain file.now (areas_of file.now)) }
{
    if !limits::allows(limits, file.len()) {
        return Err(Refusal::BadLength);
    }
    if file.len() % 4 != 0 {
        return Err(Refusal::BadLength);
    }
    head(limits.areas, file)?;
    let n = words::word(file, 2) as usize;
    contents(limits.words as usize, file, n)?;
    bodies(limits, file, n)
}

// The first word of a day file that breaks its rule, or which of its areas are plain. The file's first word sets the limits.
pub fn checked(file: &[u8]) -> Result<[bool; limits::PROVED_AREAS], Refusal>
    ensures answer_value { verdict_in result ≡ check_of file.now }
    ensures plain_told { IfOk result (λ plain. PlainTold plain file.now (areas_of file.now)) }
{
    if file.len() < 16 {
        return Err(Refusal::BadLength);
    }
    check_within(limits::limits_of(words::word(file, 0)), file)
}

// The first word of a day file that breaks its rule.
pub fn check(file: &[u8]) -> Result<(), Refusal>
    ensures { result ≡ check_of file.now }
{
    checked(file)?;
    Ok(())
}

// The body of an area in an accepted file.
fn find(file: &[u8], area: u32) -> &[u8]
    requires { number_of (check_of file.now) ≡ 0 }
    ensures { HandsBack file.entry (part_from file.now area 0 (word_at file.now 2)) result }
{
    let n = words::word(file, 2) as usize;
    for k in 0..n {
        if words::word(file, 4 + 3 * k) == area {
            return contents::body_at(file, k);
        }
    }
    &file[..0]
}

// The bytes of an area's body, a part of the file; an empty part where the number is absent or the check refuses the file.
pub fn body_of(file: &[u8], area: u32) -> &[u8]
    ensures { HandsBack file.entry (lookup_of file.now area) result }
{
    if check(file).is_err() {
        return &file[..0];
    }
    find(file, area)
}
