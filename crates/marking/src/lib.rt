// Whether a day is marked for an area: flag 1, and an hour of tier 2 or 3, peak or not.
#![tactic(auto)]

ghost use Rattle.std.specs.Prelude.{◌≡◌};
ghost use Rattle.limits.specs.Ranges.{proved_points, day_hours};
ghost use Rattle.body.specs.Kept.{Sound};
ghost use Rattle.marking.specs.Marked.{failed_before, marked_in};

// Whether an hour of the body is of tier 2 or 3.
fn failed(body: &[u8]) -> bool
    requires { Sound proved_points body.now }
    ensures { result ≡ failed_before body.now day_hours }
{
    let load = words::word(body, 5) as usize;
    let count = words::word(body, 6) as usize;
    let mut at = body::first_hour(load, count);
    for h in 0..limits::DAY_HOURS {
        let facts = amounts::hour_facts(true, body, at);
        if 2 <= facts.tier {
            return true;
        }
        at = body::next_hour(load, count, h, at);
    }
    false
}

#[tactic(auto, unfolding(crate::specs::Marked::marked_in))]
pub fn marked(body: &[u8]) -> bool
    requires { Sound proved_points body.now }
    ensures { result ≡ marked_in body.now }
{
    if words::word(body, 1) != 1 {
        return false;
    }
    failed(body)
}
