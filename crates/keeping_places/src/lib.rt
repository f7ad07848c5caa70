// The place of a date among the entries of a month book.
#![tactic(auto)]

ghost use Rattle.std.specs.Prelude.{◌≡◌, ℕ, Bool, ◌+◌, ◌*◌, ◌≤◌, length};
ghost use Rattle.keeping_places.specs.Place.{before_first, not_earlier, same_date};

// Of n entries, how many stand before the first whose date meets the test.
fn before_first<F: Fn(u32) -> bool>(room: &[u8], n: usize, meets: F) -> usize
    requires room { 8 + 12 * n ≤ length room.now }
    requires callable { F.IsAlwaysCallable meets }
    ensures { (test : ℕ → Bool) → ((date : ℕ) (r : Bool) → F.post meets date r → r ≡ test date)
        → result ≡ before_first room.now test 0 n }
{
    for k in 0..n {
        if meets(words::word(room, 2 + 3 * k)) {
            return k;
        }
    }
    n
}

// The place of a date among n entries: before the first that is not earlier.
pub fn place(room: &[u8], n: usize, date: u32) -> usize
    requires { 8 + 12 * n ≤ length room.now }
    ensures { result ≡ before_first room.now (not_earlier date) 0 n }
{
    before_first(room, n, |there| there >= date)
}

// The entry of a date among n entries; n where there is none.
pub fn find(room: &[u8], n: usize, date: u32) -> usize
    requires { 8 + 12 * n ≤ length room.now }
    ensures { result ≡ before_first room.now (same_date date) 0 n }
{
    before_first(room, n, |there| there == date)
}
