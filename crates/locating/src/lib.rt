// Where a word of a day file stands: which area and hour it belongs to, and which number it is. So the place of a refusal is told.
#![tactic(auto)]

ghost use Rattle.std.specs.Prelude.{◌≡◌, ◌&&◌, ◌+◌, ◌/◌, ◌<◌, ◌≤◌, leb, ltb};
ghost use Rattle.locating.specs.Locating.{word_within, start_within, head_field, entry_field, body_field, number_field, interval_field, hour_field, holder_from, in_body};
ghost use Rattle.locating.specs.Locating.{place_of};

// Which number a word is; of coordinators, intervals and demands which one, from 1.
#[derive(Clone, Copy, Debug, PartialEq, Eq)]
pub enum Field {
    Edition,
    TradingDay,
    Areas,
    PeakWord,
    AreaNumber,
    FirstWord,
    Words,
    Kind,
    Flag,
    PersistentDays,
    HubPriceA,
    HubPriceB,
    LoadPoints,
    Coordinators,
    Coordinator { which: usize },
    UpwardEnergy,
    RegulationUp,
    Spin,
    NonSpin,
    DownwardEnergy,
    RegulationDown,
    Requirement,
    Mec,
    IntervalQuantity { which: usize },
    IntervalPrice { which: usize },
    Demand { which: usize },
    Nowhere,
}

// The place of a word: which entry of the contents, from 1, and the hour ending, each 0 where there is none.
#[derive(Clone, Copy, Debug, PartialEq, Eq)]
pub struct Place {
    pub entry: usize,
    pub hour: usize,
    pub field: Field,
}

// Word i of a file; 0 past its last whole word.
#[tactic(auto, unfolding(crate::specs::Locating::word_within))]
pub fn word(file: &[u8], i: usize) -> u32
    ensures { result ≡ word_within file.now i }
{
    if file.len() / 4 <= i {
        return 0;
    }
    words::word(file, i)
}

// A word of the head.
fn head_field(word: usize) -> Field
    ensures { result ≡ head_field word }
{
    match word {
        0 => Field::Edition,
        1 => Field::TradingDay,
        2 => Field::Areas,
        _ => Field::PeakWord,
    }
}

// A word of an entry.
fn entry_field(word: usize) -> Field
    ensures { result ≡ entry_field word }
{
    match word {
        0 => Field::AreaNumber,
        1 => Field::FirstWord,
        _ => Field::Words,
    }
}

// A word of a body's head.
fn body_field(word: usize) -> Field
    ensures { result ≡ body_field word }
{
    match word {
        0 => Field::Kind,
        1 => Field::Flag,
        2 => Field::PersistentDays,
        3 => Field::HubPriceA,
        4 => Field::HubPriceB,
        5 => Field::LoadPoints,
        _ => Field::Coordinators,
    }
}

// One of the eight numbers of an hour.
fn number_field(word: usize) -> Field
    ensures { result ≡ number_field word }
{
    match word {
        0 => Field::UpwardEnergy,
        1 => Field::RegulationUp,
        2 => Field::Spin,
        3 => Field::NonSpin,
        4 => Field::DownwardEnergy,
        5 => Field::RegulationDown,
        6 => Field::Requirement,
        _ => Field::Mec,
    }
}

// A word of the interval pairs.
fn interval_field(word: usize) -> Field
    ensures { result ≡ interval_field word }
{
    let which = word / 2 + 1;
    if word % 2 == 0 {
        Field::IntervalQuantity { which }
    } else {
        Field::IntervalPrice { which }
    }
}

// A word of an hour.
#[tactic(auto, unfolding(crate::specs::Locating::hour_field))]
fn hour_field(load: usize, word: usize) -> Field
    requires { load < 4294967296 }
    ensures { result ≡ hour_field load word }
{
    if word < 8 {
        return number_field(word);
    }
    let pairs = 8 + 24 * load;
    if word < pairs {
        return interval_field(word - 8);
    }
    Field::Demand {
        which: word - pairs + 1,
    }
}

// The hour ending of the word `behind` words behind the first hour's first, with so many words in an hour.
fn hour_ending(behind: usize, size: usize) -> usize
    requires { 2 ≤ size }
    ensures { result ≡ behind / size + 1 }
{
    let before = behind / size;
    before + 1
}

// Word `word` of the body of entry k, counted from its own start, with so many load points and coordinators.
#[tactic(auto, unfolding(crate::specs::Locating::in_body))]
fn in_body(k: usize, load: usize, count: usize, word: usize) -> Place
    requires { (k < 4294967296) × ((load < 4294967296) × (count < 4294967296)) }
    ensures { result ≡ in_body k load count word }
{
    if word < 7 {
        return Place {
            entry: k + 1,
            hour: 0,
            field: body_field(word),
        };
    }
    let number = word - 7;
    if number < count {
        return Place {
            entry: k + 1,
            hour: 0,
            field: Field::Coordinator { which: number + 1 },
        };
    }
    let size = 8 + 24 * load + count;
    let behind = number - count;
    Place {
        entry: k + 1,
        hour: hour_ending(behind, size),
        field: hour_field(load, behind % size),
    }
}

// Whether a body that starts at word `start` and has `size` words holds word `at` of the file.
fn holds(start: usize, size: usize, at: usize) -> bool
    requires { (start < 4294967296) × (size < 4294967296) }
    ensures { result ≡ (leb start at && ltb at (start + size)) }
{
    start <= at && at < start + size
}

// Of n entries the first whose body holds the word; n where none does.
fn holder(file: &[u8], n: usize, at: usize) -> usize
    requires { n < 4294967296 }
    ensures found { (result ≡ holder_from file.now at 0 n) × (result ≤ n) }
    ensures starts_before { (result ≡ n → ⊥) → start_within file.now result ≤ at }
{
    for k in 0..n {
        let start = word(file, 4 + 3 * k + 1) as usize;
        let size = word(file, 4 + 3 * k + 2) as usize;
        if holds(start, size, at) {
            return k;
        }
    }
    n
}

// The place of a word of a file.
pub fn find(file: &[u8], at: usize) -> Place
    ensures { result ≡ place_of file.now at }
{
    if at < 4 {
        return Place {
            entry: 0,
            hour: 0,
            field: head_field(at),
        };
    }
    let n = word(file, 2) as usize;
    if at < 4 + 3 * n {
        return Place {
            entry: (at - 4) / 3 + 1,
            hour: 0,
            field: entry_field((at - 4) % 3),
        };
    }
    let k = holder(file, n, at);
    if k == n {
        return Place {
            entry: 0,
            hour: 0,
            field: Field::Nowhere,
        };
    }
    let start = word(file, 4 + 3 * k + 1) as usize;
    let load = word(file, start + 5) as usize;
    let count = word(file, start + 6) as usize;
    in_body(k, load, count, at - start)
}
