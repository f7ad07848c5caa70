// Pays collected amounts out, column by column of a table: n rows, one for each area, of a number for each hour and direction, and behind them a row for the rests.
// At first the rows hold what was collected from each area, and then what each is paid.
#![tactic(auto)]

ghost use Rattle.std.specs.Prelude.{true, ◌≡◌, ℕ, ◌+◌, ◌*◌, ◌≤◌, ◌<◌, ◌^◌, pos, nat_abs, length, take};
ghost use Rattle.exact.specs.Total.{total};
ghost use Rattle.limits.specs.Ranges.{day_payments, most_demand};
ghost use Rattle.limits.specs.Editions.{most_areas};
ghost use Rattle.shares.specs.Shares.{sum};
ghost use Rattle.paying.specs.Paid.{paid_of};
ghost use Rattle.paying.specs.Columns.{column, put_column, column_paid, paid_to, Zeros, rests_cleared};
ghost use Rattle.paying.specs.Ranges.{ColumnKept, TableKept};

// What column j of the first n rows adds up to.
fn collected(payments: &[i64], n: usize, j: usize) -> i64
    requires { ColumnKept payments.now n j }
    ensures { result ≡ sum (column (pos 0) payments.now n j) }
{
    let mut sum = 0;
    for k in 0..n {
        sum += payments[limits::DAY_PAYMENTS * k + j];
    }
    sum
}

// Column j of the first n rows, and 0 behind them: an array as long as it may get, since there is no heap.
fn basis_column(bases: &[u32], n: usize, j: usize) -> [u32; limits::MOST_AREAS]
    requires { (n ≤ most_areas) × ((j < day_payments) × (day_payments * n ≤ length bases.now)) }
    ensures { take n result ≡ column 0 bases.now n j }
{
    let mut basis = [0u32; limits::MOST_AREAS];
    for k in 0..n {
        basis[k] = bases[limits::DAY_PAYMENTS * k + j];
    }
    basis
}

// The payments of a column, and behind them the rest: all of it where there is no basis, and else nothing.
fn paid(collected: i64, basis: &[u32]) -> [i64; limits::MOST_AREAS + 1]
    requires { (nat_abs collected * total basis.now < 2 ^ 63) × ((total basis.now ≤ most_demand) × (length basis.now ≤ most_areas)) }
    ensures { take (length basis.now + 1) result ≡ paid_of collected basis.now }
{
    let mut payments = [0i64; limits::MOST_AREAS + 1];
    if shares::sum_of_demands(basis) == 0 {
        payments[basis.len()] = collected;
        return payments;
    }
    shares::share_demands(collected, basis, &mut payments);
    payments
}

// Puts numbers into column j, the first into the first row.
fn put_column(numbers: &[i64], j: usize, payments: &mut [i64])
    requires { (j < day_payments) × (day_payments * length numbers.now ≤ length payments.old) }
    ensures { payments.new ≡ put_column j numbers.now payments.old }
{
    for (k, number) in numbers.iter().enumerate() {
        payments[limits::DAY_PAYMENTS * k + j] = *number;
    }
}

// Pays column j out. In most hours nothing was collected, and nobody is paid.
fn pay_column(bases: &[u32], n: usize, j: usize, payments: &mut [i64])
    requires { (j < day_payments) × (TableKept bases.now n j payments.old) }
    ensures { payments.new ≡ put_column j (column_paid bases.now n j payments.old) payments.old }
{
    let amount = collected(payments, n, j);
    let numbers = if amount == 0 {
        [0i64; limits::MOST_AREAS + 1]
    } else {
        paid(amount, &basis_column(bases, n, j)[..n])
    };
    put_column(&numbers[..n + 1], j, payments);
}

// Pays every column out.
pub fn pay_columns(bases: &[u32], n: usize, payments: &mut [i64])
    requires { (j : ℕ) → j < day_payments → TableKept bases.now n j payments.old }
    ensures { payments.new ≡ paid_to bases.now n day_payments payments.old }
{
    for j in 0..limits::DAY_PAYMENTS {
        pay_column(bases, n, j, payments);
    }
}

// Whether nothing was collected from any of n areas in any hour and direction: joined bit by bit, so that the compiler takes several numbers at a time.
pub fn nothing_collected(payments: &[i64], n: usize) -> bool
    requires { day_payments * n ≤ length payments.now }
    ensures only_if_zeros { result ≡ true → Zeros (day_payments * n) payments.now }
    ensures if_zeros { Zeros (day_payments * n) payments.now → result ≡ true }
{
    let end = limits::DAY_PAYMENTS * n;
    let mut joined = 0;
    for payment in &payments[..end] {
        joined |= *payment;
    }
    joined == 0
}

// Puts 0 to the 48 rests, behind the rows of n areas.
pub fn clear_rests(n: usize, payments: &mut [i64])
    requires { day_payments * (n + 1) ≤ length payments.old }
    ensures { payments.new ≡ rests_cleared n day_payments payments.old }
{
    let rests = limits::DAY_PAYMENTS * n;
    payments[rests..rests + limits::DAY_PAYMENTS].fill(0);
}
