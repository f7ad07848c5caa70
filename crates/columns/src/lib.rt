// An amount shared over two columns, coordinators and demands, which are checked first.
#![tactic(auto)]

ghost use Rattle.std.specs.Prelude.{◌≡◌, ◌≤◌, leb, nat_abs, length};
ghost use Rattle.limits.specs.Ranges.{most_demand, most_amount};
ghost use Rattle.columns.specs.Columns.{row_rule, rows_rule, charges_rule, columns_rule, SharedColumns};

use verdict::Refusal;

#[tactic(auto, using(verdict::proofs::First::in_order))]
fn check_row(
    place: usize,
    before: u32,
    running: u32,
    coordinator: u32,
    demand: u32,
) -> Result<(), Refusal>
    requires { running ≤ most_demand }
    ensures { result ≡ row_rule place before running coordinator demand }
{
    body::coordinator(place, before, coordinator)?;
    hour::demand(place, running, demand)
}

#[tactic(auto, using(verdict::proofs::First::in_order), unfolding(crate::specs::Columns::rows_rule))]
fn check_rows(coordinators: &[u32], demands: &[u32]) -> Result<(), Refusal>
    requires { length coordinators.now ≡ length demands.now }
    ensures { result ≡ rows_rule coordinators.now demands.now }
{
    let mut before: u32 = 0;
    let mut running: u32 = 0;
    for (i, demand) in demands.iter().enumerate() {
        let coordinator = coordinators[i];
        check_row(i, before, running, coordinator, *demand)?;
        before = coordinator;
        running += *demand;
    }
    Ok(())
}

fn within(amount: i64) -> bool
    ensures { result ≡ leb (nat_abs amount) most_amount }
{
    exact::absolute(amount) <= limits::MOST_AMOUNT as u64
}

fn check_charges(amount: i64, whole: u32, count: usize, room: usize) -> Result<(), Refusal>
    ensures { result ≡ charges_rule amount whole count room }
{
    if room < count {
        return Err(Refusal::RoomTooShort { needed: count });
    }
    if !shares::shareable(amount, whole) {
        return Err(Refusal::AmountWithoutDemand { place: 0 });
    }
    Ok(())
}

#[tactic(auto, using(verdict::proofs::First::in_order, std::proofs::lemmas::Bool::Decides::nat_tests, std::proofs::lemmas::Int::ints), unfolding(crate::specs::Columns::columns_rule))]
fn check_columns(
    amount: i64,
    coordinators: &[u32],
    demands: &[u32],
    room: usize,
) -> Result<(), Refusal>
    requires { length coordinators.now ≡ length demands.now }
    ensures { result ≡ columns_rule amount coordinators.now demands.now room }
{
    if !within(amount) {
        return Err(Refusal::AmountBeyondRange);
    }
    check_rows(coordinators, demands)?;
    check_charges(amount, shares::sum_of_demands(demands), demands.len(), room)
}

// All is checked before the first charge is written.
pub fn share_columns(
    amount: i64,
    coordinators: &[u32],
    demands: &[u32],
    charges: &mut [i64],
) -> Result<(), Refusal>
    requires { length coordinators.now ≡ length demands.now }
    ensures { SharedColumns amount coordinators.now demands.now charges.old result charges.new }
{
    check_columns(amount, coordinators, demands, charges.len())?;
    shares::share_demands(amount, demands, charges);
    Ok(())
}
