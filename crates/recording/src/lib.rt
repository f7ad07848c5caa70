// The record of failing days: the last day entered, and for each area with a marked day its marks. It moves on by some days, and an area is
// marked in it.
#![tactic(auto)]

ghost use Rattle.std.specs.Prelude.{◌≡◌, [], ◌∷◌, ◌++◌, ◌+◌, ◌≤◌, ◌<◌, length, leb, eqb, find, position};
ghost use Rattle.limits.specs.Editions.{most_held};
ghost use Rattle.recording.specs.Record.{place, entries, record_of, pushed, kept, marked, marks_of, Sound, answered};

#[derive(Clone, Copy, PartialEq, Eq, Debug)]
pub struct Place {
    pub area: u32,
    pub marks: u32,
}

// Places behind the areas held are 0, 0. An array and a count, since any eighteen words are a record, good or not (`record_words`), also with a
// count that is too large.
#[derive(Clone, Copy, PartialEq, Eq, Debug)]
pub struct Record {
    // YYYYMMDD; 0 where no day was entered
    pub last: u32,
    pub held: u32,
    pub places: [Place; limits::MOST_HELD],
}

pub fn empty(last: u32) -> Record
    ensures { result ≡ record_of last [] }
{
    Record {
        last,
        held: 0,
        places: [Place { area: 0, marks: 0 }; limits::MOST_HELD],
    }
}

fn push(given: Record, added: Place) -> Record
    requires { given.held < most_held }
    ensures { result ≡ pushed given added }
{
    let mut longer = given;
    longer.places[given.held as usize] = added;
    longer.held += 1;
    longer
}

// Some places, pushed on a record.
fn extended(onto: Record, places: &[Place]) -> Record
    requires { (onto.held + length places.now ≤ most_held) × (onto ≡ record_of onto.last (entries onto)) }
    ensures { result ≡ record_of onto.last (entries onto ++ places.now) }
{
    let mut longer = onto;
    for p in places {
        longer = push(longer, *p);
    }
    longer
}

// A place between two runs of places.
fn between(last: u32, before: &[Place], added: Place, behind: &[Place]) -> Record
    requires { length before.now + 1 + length behind.now ≤ most_held }
    ensures { result ≡ record_of last (before.now ++ (added ∷ behind.now)) }
{
    extended(push(extended(empty(last), before), added), behind)
}

// The record g days later, on the day `date`, of which no area is marked.
pub fn age_all(given: Record, date: u32, g: u32) -> Record
    requires { given.held ≤ most_held }
    ensures { result ≡ record_of date (kept g (entries given)) }
{
    let mut out = empty(date);
    for p in &given.places[..given.held as usize] {
        let marks = marks::age(p.marks, g);
        if marks != 0 {
            let kept = Place {
                area: p.area,
                marks,
            };
            out = push(out, kept);
        }
    }
    out
}

// Where the first of some places stands whose area is not below an area.
fn place_of(places: &[Place], area: u32) -> Option<usize>
    ensures { result ≡ position (λ p. leb area p.area) places.now }
{
    places.iter().position(|p| area <= p.area)
}

// The first of some places with an area.
fn held(places: &[Place], area: u32) -> Option<Place>
    ensures { result ≡ find (λ p. eqb p.area area) places.now }
{
    places.iter().copied().find(|p| p.area == area)
}

// The last day entered marked for an area: bit 0, which ageing left clear. None where the record has no room for the area.
pub fn mark(given: Record, area: u32) -> Option<Record>
    requires { Sound 4294967295 given }
    ensures { result ≡ answered given.last (marked area (entries given)) }
{
    let places = &given.places[..given.held as usize];
    let k = place_of(places, area).unwrap_or(places.len());
    if let Some(p) = places.get(k) {
        if p.area == area {
            let more = Place {
                area,
                marks: p.marks + 1,
            };
            return Some(between(given.last, &places[..k], more, &places[k + 1..]));
        }
    }
    if places.len() == limits::MOST_HELD {
        return None;
    }
    Some(between(
        given.last,
        &places[..k],
        Place { area, marks: 1 },
        &places[k..],
    ))
}

// An area's marks; 0 where it is not held.
pub fn marks_of(given: Record, area: u32) -> u32
    requires { given.held ≤ most_held }
    ensures { result ≡ marks_of area (entries given) }
{
    held(&given.places[..given.held as usize], area).map_or(0, |p| p.marks)
}
