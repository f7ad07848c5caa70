// The check of one area's body: its head, its coordinators and its 24 hours, word by word, the first that breaks its rule, or whether the area is plain.
#![tactic(auto)]

ghost use Rattle.std.specs.Prelude.{◌≡◌, ◌+◌, ◌*◌, ◌≤◌, ◌<◌, ◌^◌, length, IfOk};
ghost use Rattle.verdict.specs.Verdict.{verdict_in};
ghost use Rattle.limits.specs.Ranges.{day_hours, proved_points};
ghost use Rattle.hour.specs.Layout.{hour_words};
ghost use Rattle.body.specs.Layout.{body_words, hour_start};
ghost use Rattle.body.specs.Check.{body_head_rule, most_of_kind, coordinator_count_rule, coordinator_rule, coordinators_rule, hours_rule, body_head_of};
ghost use Rattle.body.specs.Check.{front_rule, body_rule};
ghost use Rattle.body.specs.Plain.{plain_hours, plain_area, Behind};

use limits::Limits;
use verdict::Refusal;

// The first six words of the head, the hub prices A and B by their magnitude.
#[tactic(auto, unfolding(crate::specs::Check::body_head_rule))]
fn head_words(
    points: u32,
    ciso: u32,
    start: usize,
    kind: u32,
    flag: u32,
    days: u32,
    a: u32,
    b: u32,
    load: u32,
) -> Result<(), Refusal>
    requires { (ciso ≤ 1) × (start < 4294967296) }
    ensures { result ≡ body_head_rule points ciso start kind flag days a b load }
{
    if 1 < kind {
        return Err(Refusal::BadBodyHead { word: start });
    }
    if 1 < ciso + kind {
        return Err(Refusal::BadBodyHead { word: start });
    }
    if 1 < flag {
        return Err(Refusal::BadBodyHead { word: start + 1 });
    }
    if limits::MOST_DAYS < days {
        return Err(Refusal::BadBodyHead { word: start + 2 });
    }
    if limits::MOST_HUB_PRICE < a {
        return Err(Refusal::BadBodyHead { word: start + 3 });
    }
    if limits::MOST_HUB_PRICE < b {
        return Err(Refusal::BadBodyHead { word: start + 4 });
    }
    if load < 1 {
        return Err(Refusal::BadBodyHead { word: start + 5 });
    }
    if points < load {
        return Err(Refusal::BadBodyHead { word: start + 5 });
    }
    Ok(())
}

fn most_of_kind(kind: u32) -> usize
    ensures { result ≡ most_of_kind kind }
{
    if kind == 0 {
        return 1;
    }
    limits::MOST_COORDINATORS
}

// The word of K.
#[tactic(auto, unfolding(crate::specs::Check::coordinator_count_rule))]
fn count(start: usize, size: usize, most: usize, load: usize, count: usize) -> Result<(), Refusal>
    requires { (start < 4294967296) × ((load < 4294967296) × (count < 4294967296)) }
    ensures { result ≡ coordinator_count_rule start size most load count }
{
    if count < 1 {
        return Err(Refusal::BadBodyHead { word: start + 6 });
    }
    if most < count {
        return Err(Refusal::BadBodyHead { word: start + 6 });
    }
    if size != 7 + count + limits::DAY_HOURS * (8 + 24 * load + count) {
        return Err(Refusal::BadContents { word: start + 6 });
    }
    Ok(())
}

pub fn coordinator(place: usize, before: u32, number: u32) -> Result<(), Refusal>
    ensures { result ≡ coordinator_rule place before number }
{
    if number <= before {
        return Err(Refusal::BadCoordinator { place });
    }
    if limits::LARGEST_NUMBER < number {
        return Err(Refusal::BadCoordinator { place });
    }
    Ok(())
}

fn coordinators(start: usize, body: &[u8], count: usize) -> Result<(), Refusal>
    requires { (start < 4294967296) × (4 * (7 + count) ≤ length body.now) }
    ensures { result ≡ coordinators_rule start body.now count }
{
    let mut before: u32 = 0;
    for i in 0..count {
        let number = words::word(body, 7 + i);
        coordinator(start + (7 + i), before, number)?;
        before = number;
    }
    Ok(())
}

// ---- the walk over the hours

// Where the first hour starts.
#[tactic(auto, using(crate::proofs::HourPlaces::first_hour))]
pub fn first_hour(load: usize, count: usize) -> usize
    requires { 7 + count < 2 ^ 64 }
    ensures { result ≡ hour_start load count 0 }
{
    7 + count
}

// Where the hour behind hour h starts, which starts at word `at`.
#[tactic(auto, using(crate::proofs::HourPlaces::hour_next))]
pub fn next_hour(load: usize, count: usize, h: usize, at: usize) -> usize
    requires { (at ≡ hour_start load count h) × (at + hour_words load count < 2 ^ 64) }
    ensures { result ≡ hour_start load count (h + 1) }
{
    at + (8 + 24 * load + count)
}

// An hour, and where it starts.
#[derive(Clone, Copy)]
struct Reached {
    hour: usize,
    at: usize,
}

// The first hour that is not seen at a glance to be accepted and plain; behind the last where all are.
fn glance_hours(kind: u32, body: &[u8], load: usize, count: usize) -> Reached
    requires { (count < 4294967296) × (4 * body_words load count ≤ length body.now) }
    ensures { Behind body.now kind load count result.hour result.at }
{
    let mut at = first_hour(load, count);
    for h in 0..limits::DAY_HOURS {
        if !hour_glance::glance(kind, body, load, count, at) {
            return Reached { hour: h, at };
        }
        at = next_hour(load, count, h, at);
    }
    Reached {
        hour: limits::DAY_HOURS,
        at,
    }
}

// The hours from that one on: the first word that breaks its rule, or whether all are plain.
fn hours_from(
    first: Reached,
    start: usize,
    kind: u32,
    body: &[u8],
    load: usize,
    count: usize,
) -> Result<bool, Refusal>
    requires behind { Behind body.now kind load count first.hour first.at }
    requires sizes { (load ≤ proved_points) × ((start < 4294967296) × ((count < 4294967296) × (4 * body_words load count ≤ length body.now))) }
    ensures answer_value { verdict_in result ≡ hours_rule start body.now load count }
    ensures plain_value { IfOk result (λ plain. plain ≡ plain_hours body.now kind load count day_hours) }
{
    let mut plain = true;
    let mut at = first.at;
    for h in first.hour..limits::DAY_HOURS {
        let seen = hour::check(start, kind, body, load, count, at)?;
        plain = plain & seen;
        at = next_hour(load, count, h, at);
    }
    Ok(plain)
}

#[tactic(auto, unfolding(crate::specs::Check::body_head_of))]
fn head(points: u32, ciso: u32, start: usize, body: &[u8]) -> Result<(), Refusal>
    requires { (ciso ≤ 1) × ((start < 4294967296) × (28 ≤ length body.now)) }
    ensures { result ≡ body_head_of start body.now points ciso }
{
    let kind = words::word(body, 0);
    let flag = words::word(body, 1);
    let days = words::word(body, 2);
    let a = words::magnitude(words::word(body, 3));
    let b = words::magnitude(words::word(body, 4));
    let load = words::word(body, 5);
    head_words(points, ciso, start, kind, flag, days, a, b, load)
}

// The seven words of the head.
fn front(points: u32, ciso: u32, start: usize, body: &[u8]) -> Result<(), Refusal>
    requires { (ciso ≤ 1) × ((start < 4294967296) × (28 ≤ length body.now)) }
    ensures { result ≡ front_rule start body.now points ciso }
{
    head(points, ciso, start, body)?;
    let most = most_of_kind(words::word(body, 0));
    let load = words::word(body, 5) as usize;
    let k = words::word(body, 6) as usize;
    count(start, body.len() / 4, most, load, k)
}

// The first word of a body that breaks its rule, or whether the area is plain. `ciso` CISO areas stand before this one in the file.
pub fn check(limits: Limits, ciso: u32, start: usize, body: &[u8]) -> Result<bool, Refusal>
    requires { (limits.points ≤ proved_points) × ((ciso ≤ 1) × ((start < 4294967296) × (28 ≤ length body.now))) }
    ensures answer_value { verdict_in result ≡ body_rule start body.now limits ciso }
    ensures plain_value { IfOk result (λ plain. plain ≡ plain_area body.now) }
{
    front(limits.points, ciso, start, body)?;
    let kind = words::word(body, 0);
    let load = words::word(body, 5) as usize;
    let k = words::word(body, 6) as usize;
    coordinators(start, body, k)?;
    let reached = glance_hours(kind, body, load, k);
    hours_from(reached, start, kind, body, load, k)
}
