// Moves a day into a month book in lent room, and out of it: its file and its entry.
#![tactic(auto)]

ghost use Rattle.std.specs.Prelude.{◌≡◌, ◌++◌, ◌+◌, ◌*◌, ◌-◌, ◌/◌, ◌≤◌, ◌<◌, ◌^◌, length, replicate};
ghost use Rattle.moving.specs.Written.{written, part};
ghost use Rattle.book.specs.Days.{book_of};
ghost use Rattle.book.specs.Read.{count_of};
ghost use Rattle.book.specs.Sound.{Sound};
ghost use Rattle.keeping_moves.specs.Moves.{day_of_file, emptied, added_at, without_at, Fits};

// The files from place `here` on move up by an entry and the new file, which is copied to its place; those before it, by an entry.
fn make_way(room: &mut [u8], contents: usize, here: usize, end: usize, file: &[u8])
    requires { (contents ≤ here) × ((here ≤ end) × (end + 12 + length file.now ≤ length room.old)) }
    ensures { room.new ≡ written room.old (contents + 12)
        (part room.old contents (here - contents) ++ (file.now ++ part room.old here (end - here))) }
{
    moving::move_up(room, here, here + 12 + file.len(), end - here);
    moving::copy_in(room, here + 12, file);
    moving::move_up(room, contents, contents + 12, here - contents);
}

// A day more, at place k among the days.
pub fn add_at(room: &mut [u8], k: usize, date: u32, file: &[u8])
    requires { Fits room.old k date file.now }
    ensures { room.new ≡ book_of (added_at room.old k (day_of_file file.now)) room.old }
{
    let n = words::word(room, 1) as usize;
    let here = book::due(room, k);
    let end = book::due(room, n);
    make_way(room, 8 + 12 * n, 4 * here, 4 * end, file);
    book_entries::enter(room, n, k, date, (here + 3) as u32, (file.len() / 4) as u32);
}

// The files before place `here` move down by an entry, those from `next` on by an entry and the file between; the bytes freed become 0.
fn close_up(room: &mut [u8], contents: usize, here: usize, next: usize, end: usize)
    requires { (12 ≤ contents) × ((contents ≤ here) × ((here ≤ next) × ((next ≤ end) × (end ≤ length room.old)))) }
    ensures { room.new ≡ written room.old (contents - 12)
        (part room.old contents (here - contents) ++ part room.old next (end - next) ++ replicate (next - here + 12) 0) }
{
    moving::move_down(room, contents, contents - 12, here - contents);
    moving::move_down(room, next, here - 12, end - next);
    moving::clear(room, here - 12 + (end - next), next - here + 12);
}

// The days without the day at place k; what is freed becomes 0.
pub fn withdraw_at(room: &mut [u8], k: usize)
    requires { (k < count_of room.old) × Sound room.old }
    ensures { room.new ≡ book_of (without_at room.old k) (emptied room.old) }
{
    let n = words::word(room, 1) as usize;
    let size = words::word(room, 2 + 3 * k + 2) as usize;
    let here = book::due(room, k);
    let end = book::due(room, n);
    book_entries::leave(room, n, k, size);
    close_up(room, 8 + 12 * n, 4 * here, 4 * here + 4 * size, 4 * end);
}
