// The sharing call: an amount shared over a lent table of rows, which is checked first.
#![tactic(auto)]

ghost use Rattle.std.specs.Prelude.{◌≡◌, min, take};
ghost use Rattle.sharing.specs.Rows.{SharedRows};
ghost use Rattle.sharing.specs.Columns.{table_of, SharedTable};

use verdict::Refusal;

#[derive(Clone, Copy)]
pub struct Row {
    pub coordinator: u32,
    pub demand: u32,
}

// How many rows a caller may hold by value: more than the most coordinators, so that a program can reach refusal 1.
pub const ROWS_BY_VALUE: usize = 70;

// A copy of a lent table: how many rows there are, and a column for each field of the first ones. Two arrays and a count, since the core works on number
// slices (`columns::share_columns`, whose promise stands over columns of any length) and there is no heap.
#[derive(Clone, Copy)]
struct Table {
    count: usize,
    coordinators: [u32; limits::MOST_COORDINATORS],
    demands: [u32; limits::MOST_COORDINATORS],
}

fn share_table(amount: i64, table: Table, charges: &mut [i64]) -> Result<(), Refusal>
    ensures { SharedTable amount table charges.old result charges.new }
{
    let count = table.count;
    if count < 1 || limits::MOST_COORDINATORS < count {
        return Err(Refusal::BadLength);
    }
    let coordinators = table.coordinators;
    let demands = table.demands;
    columns::share_columns(amount, &coordinators[..count], &demands[..count], charges)
}

// The copying loop under the sharing call. It is the one loop over lent rows.
fn table_of(rows: &[Row]) -> Table
    ensures { result ≡ table_of rows.now }
{
    let mut coordinators = [0u32; limits::MOST_COORDINATORS];
    let mut demands = [0u32; limits::MOST_COORDINATORS];
    let count = rows.len();
    let copied = count.min(limits::MOST_COORDINATORS);
    for i in 0..copied {
        let row = rows[i];
        coordinators[i] = row.coordinator;
        demands[i] = row.demand;
    }
    Table {
        count,
        coordinators,
        demands,
    }
}

// The sharing call.
pub fn share(amount: i64, rows: &[Row], charges: &mut [i64]) -> Result<(), Refusal>
    ensures { SharedRows amount rows.now charges.old result charges.new }
{
    share_table(amount, table_of(rows), charges)
}

// For a caller that holds its rows by value: the first n are lent to the sharing call, or all of them where n is larger. An array and a count,
// and no slice: the promise is for this caller, and there is no heap.
pub fn share_array(
    amount: i64,
    rows: [Row; ROWS_BY_VALUE],
    n: usize,
    charges: &mut [i64],
) -> Result<(), Refusal>
    ensures { SharedRows amount (take n rows) charges.old result charges.new }
{
    let lent = n.min(ROWS_BY_VALUE);
    share(amount, &rows[..lent], charges)
}
