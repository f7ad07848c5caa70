// The head and the contents of a book rewritten in lent room: an entry more, an entry less.
#![tactic(auto)]

ghost use Rattle.std.specs.Prelude.{◌≡◌, ℕ, ◌+◌, ◌*◌, ◌-◌, ◌≤◌, ◌<◌, length};
ghost use Rattle.moving.specs.Written.{written};
ghost use Rattle.book.specs.Days.{entry_bytes};
ghost use Rattle.book.specs.Read.{date_at, start_at, size_at};
ghost use Rattle.book_entries.specs.Entries.{later, earlier, entered, left_over};

// An entry, to entry place k.
fn put_entry(room: &mut [u8], k: usize, date: u32, start: u32, size: u32)
    requires { 8 + 12 * k + 12 ≤ length room.old }
    ensures { room.new ≡ written room.old (8 + 12 * k) (entry_bytes date start size) }
{
    let at = 2 + 3 * k;
    moving::put_word(room, at, date);
    moving::put_word(room, at + 1, start);
    moving::put_word(room, at + 2, size);
}

// The entry of place `from`, with another start, to entry place `to`.
fn copy_entry(room: &mut [u8], from: usize, to: usize, start: u32)
    requires { (8 + 12 * from + 12 ≤ length room.old) × (8 + 12 * to + 12 ≤ length room.old) }
    ensures { room.new ≡ written room.old (8 + 12 * to)
        (entry_bytes (date_at room.old from) start (size_at room.old from)) }
{
    let date = words::word(room, 2 + 3 * from);
    let size = words::word(room, 2 + 3 * from + 2);
    put_entry(room, to, date, start, size);
}

// The entries low to high, each `up` places further and its start by `more` later; from the last to the first. One form of this and of
// `entries_down` would take the order of the places, the way and the sign of the change as parameters: no plainer.
fn entries_up(room: &mut [u8], low: usize, high: usize, up: usize, more: u32)
    requires { (low ≤ high) × ((8 + 12 * (high + up) ≤ length room.old) × ((k : ℕ) → k < high → start_at room.old k + more < 4294967296)) }
    ensures { room.new ≡ written room.old (8 + 12 * (low + up)) (later room.old more low (high - low)) }
{
    for k in (low..high).rev() {
        let start = words::word(room, 2 + 3 * k + 1);
        copy_entry(room, k, k + up, start + more);
    }
}

// Head and contents of a book of n days, with an entry more at place k.
pub fn enter(room: &mut [u8], n: usize, k: usize, date: u32, start: u32, size: u32)
    requires { (k ≤ n) × ((n < 4294967295) × ((8 + 12 * n + 12 ≤ length room.old) × ((3 + size < 4294967296)
        × ((j : ℕ) → j < n → start_at room.old j + (3 + size) < 4294967296)))) }
    ensures { room.new ≡ written room.old 0 (entered room.old n k date start size) }
{
    entries_up(room, k, n, 1, 3 + size);
    put_entry(room, k, date, start, size);
    entries_up(room, 0, k, 0, 3);
    moving::put_word(room, 1, (n + 1) as u32);
    moving::put_word(room, 0, 1);
}

// The entries low to high, each `down` places nearer and its start by `less` earlier; from the first to the last.
fn entries_down(room: &mut [u8], low: usize, high: usize, down: usize, less: usize)
    requires { (low ≤ high) × ((8 + 12 * (high + down) ≤ length room.old) × ((k : ℕ) → low + down ≤ k → k < high + down → less ≤ start_at room.old k)) }
    ensures { room.new ≡ written room.old (8 + 12 * low) (earlier room.old less (low + down) (high - low)) }
{
    for k in low..high {
        let start = words::word(room, 2 + 3 * (k + down) + 1) as usize;
        copy_entry(room, k + down, k, (start - less) as u32);
    }
}

// Head and contents of a book of n days without entry k, whose file has `size` words.
pub fn leave(room: &mut [u8], n: usize, k: usize, size: usize)
    requires { (k < n) × ((n < 4294967296) × ((8 + 12 * n ≤ length room.old) × ((size < 4294967296)
        × (((j : ℕ) → j < k → 3 ≤ start_at room.old j) × ((j : ℕ) → k < j → j < n → 3 + size ≤ start_at room.old j))))) }
    ensures { room.new ≡ written room.old 0 (left_over room.old n k size) }
{
    moving::put_word(room, 0, 1);
    moving::put_word(room, 1, (n - 1) as u32);
    entries_down(room, 0, k, 0, 3);
    entries_down(room, k, n - 1, 1, 3 + size);
}
