// Pays out under 8088 what was collected under 8080: the call `pay_out`.
#![tactic(auto)]

ghost use Rattle.std.specs.Prelude.{◌≡◌, ◌++◌, ◌+◌, ◌*◌, ◌≤◌, ◌<◌, length, drop, IfOk, sum_by, slice_index};
ghost use Rattle.limits.specs.Ranges.{day_hours, day_payments, proved_areas};
ghost use Rattle.verdict.specs.Verdict.{verdict_in};
ghost use Rattle.contents.specs.File.{areas_of};
ghost use Rattle.settlement.specs.SoundFile.{SoundFile};
ghost use Rattle.payout_rules.specs.PayOut.{areas_to, basis_rule, collected_from, basis_of, pay_out_rule, payments_after};
ghost use Rattle.payout_rules.specs.Payable.{Payable};

use surcharge::Terms;
use verdict::Refusal;

// What the basis of hour h adds up to, over the areas.
fn hour_basis(areas: &[[u32; limits::DAY_HOURS]], h: usize) -> u64
    requires { (length areas.now ≤ proved_areas) × (h < day_hours) }
    ensures { result ≡ sum_by (λ area. slice_index area h) areas.now }
{
    areas.iter().map(|area| u64::from(area[h])).sum()
}

// Whether the basis of n areas keeps its rule. What adds up to at most 10,000,000 has no larger number in it.
#[tactic(auto, using(verdict::proofs::First::in_order, payout_rules::proofs::Basis::hour_kept), unfolding(payout_rules::specs::PayOut::basis_rule))]
fn check_basis(basis: &[u32], n: usize) -> Result<(), Refusal>
    requires { n ≤ proved_areas }
    ensures { result ≡ basis_rule basis.now n }
{
    if basis.len() != limits::DAY_HOURS * n {
        return Err(Refusal::BadBasis);
    }
    let (areas, _) = basis.as_chunks::<{ limits::DAY_HOURS }>();
    for h in 0..limits::DAY_HOURS {
        if (limits::MOST_BASIS as u64) < hour_basis(areas, h) {
            return Err(Refusal::BadBasis);
        }
    }
    Ok(())
}

// The number of areas, or the first refusal: what settling refuses, where a statement of any length fits, then 23 and 24.
#[tactic(auto, using(verdict::proofs::First::in_order, payout_rules::proofs::Rule::never_thirteen), unfolding(payout_rules::specs::PayOut::pay_out_rule))]
fn judge(file: &[u8], basis: &[u32], room: usize) -> Result<usize, Refusal>
    ensures value { verdict_in result ≡ pay_out_rule file.now basis.now room }
    ensures areas { IfOk result (λ n. n ≡ areas_of file.now) }
    ensures payable { IfOk result (λ _. Payable file.now basis.now room) }
{
    settlement::answer(file, settlement::MOST_NUMBERS)?;
    let n = words::word(file, 2) as usize;
    check_basis(basis, n)?;
    let needed = limits::DAY_PAYMENTS * (n + 1);
    if room < needed {
        return Err(Refusal::PaymentRoomTooShort { needed });
    }
    Ok(n)
}

// What is collected from each area, area after area at the front of `collected`.
#[tactic(auto, unfolding(payout_rules::specs::PayOut::areas_to))]
fn collect_areas(file: &[u8], n: usize, collected: &mut [i64])
    requires { (SoundFile file.now) × ((n ≡ areas_of file.now) × (day_payments * n ≤ length collected.old)) }
    ensures { collected.new
        ≡ areas_to (collected_from file.now) n ++ drop (day_payments * n) collected.old }
{
    let peak = words::word(file, 3);
    for k in 0..n {
        let body = contents::body_at(file, k);
        let terms = Terms {
            peak,
            days: words::word(body, 2),
        };
        let to = limits::DAY_PAYMENTS * k;
        collecting::collect(terms, body, &mut collected[to..]);
    }
}

// The basis of each area that counts, area after area at the front of `counted`. It and `collect_areas` go over the areas alike, and lend and call
// otherwise: one function would take a closure with a contract of its own.
#[tactic(auto, unfolding(payout_rules::specs::PayOut::areas_to))]
fn count_bases(file: &[u8], basis: &[u32], n: usize, counted: &mut [u32])
    requires sound_file { (SoundFile file.now) × (n ≡ areas_of file.now) }
    requires rooms_long_enough { (day_hours * n ≤ length basis.now) × (day_payments * n ≤ length counted.old) }
    ensures { counted.new
        ≡ areas_to (basis_of file.now basis.now) n ++ drop (day_payments * n) counted.old }
{
    for k in 0..n {
        let body = contents::body_at(file, k);
        let from = limits::DAY_HOURS * k;
        let to = limits::DAY_PAYMENTS * k;
        collecting::count_basis(body, &basis[from..], &mut counted[to..]);
    }
}

// Checks the file and the basis, then pays what is collected in each hour and direction to the areas that pass, in `payments`: area after area, for each hour
// upward and downward; then the rests. A refusal leaves the payments as they were.
// Where nothing was collected every payment and rest is 0, and no basis is counted.
pub fn pay_out(file: &[u8], basis: &[u32], payments: &mut [i64]) -> Result<(), Refusal>
    ensures value { result ≡ pay_out_rule file.now basis.now (length payments.old) }
    ensures payments_after { payments.new ≡ payments_after file.now basis.now result payments.old }
{
    let n = judge(file, basis, payments.len())?;
    collect_areas(file, n, payments);
    if paying::nothing_collected(payments, n) {
        paying::clear_rests(n, payments);
        return Ok(());
    }
    let mut bases = [0u32; limits::DAY_PAYMENTS * limits::MOST_AREAS];
    count_bases(file, basis, n, &mut bases);
    paying::pay_columns(&bases, n, payments);
    Ok(())
}
