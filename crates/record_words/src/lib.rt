// The record of failing days as words, in which it is kept from one day to the next.
#![tactic(auto)]

ghost use Rattle.record_words.specs.Words.{Says};

use recording::{Place, Record};

// The last day entered, the number of areas held, and an area's number and its marks for each place.
pub const RECORD_WORDS: usize = 2 + 2 * limits::MOST_HELD;

// The record that some words say.
pub fn record_of(words: [u32; RECORD_WORDS]) -> Record
    ensures { Says words result }
{
    let mut places = [Place { area: 0, marks: 0 }; limits::MOST_HELD];
    for k in 0..limits::MOST_HELD {
        let area = words[2 + 2 * k];
        let marks = words[3 + 2 * k];
        places[k] = Place { area, marks };
    }
    Record {
        last: words[0],
        held: words[1],
        places,
    }
}

// The words that say a record.
pub fn words_of(given: Record) -> [u32; RECORD_WORDS]
    ensures { Says result given }
{
    let mut words = [0u32; RECORD_WORDS];
    words[0] = given.last;
    words[1] = given.held;
    for k in 0..limits::MOST_HELD {
        let p = given.places[k];
        words[2 + 2 * k] = p.area;
        words[3 + 2 * k] = p.marks;
    }
    words
}
