// Bytes moved within lent room, and written into it.
#![tactic(auto)]

ghost use Rattle.std.specs.Prelude.{◌≡◌, ◌+◌, ◌*◌, ◌≤◌, length, replicate};
ghost use Rattle.words.specs.Bytes.{word_bytes};
ghost use Rattle.moving.specs.Written.{written, part};

// How many bytes move at a time: with a part of this size the compiler drops the buffer, and each move is one of its own. A slice's
// `copy_within`, a loop over its bytes, was tried for the whole move, and took up to twice as long.
const BUFFER_BYTES: usize = 4096;

// Other bytes, to place `at`.
#[tactic(auto, unfolding(crate::specs::Written::written))]
pub fn copy_in(room: &mut [u8], at: usize, bytes: &[u8])
    requires { at + length bytes.now ≤ length room.old }
    ensures { room.new ≡ written room.old at bytes.now }
{
    room[at..at + bytes.len()].copy_from_slice(bytes);
}

// `count` zeros, from place `at` on.
#[tactic(auto, unfolding(crate::specs::Written::written))]
pub fn clear(room: &mut [u8], at: usize, count: usize)
    requires { at + count ≤ length room.old }
    ensures { room.new ≡ written room.old at (replicate count 0) }
{
    room[at..at + count].fill(0);
}

// A word, to word i.
#[tactic(auto, unfolding(words::specs::Bytes::word_bytes))]
pub fn put_word(room: &mut [u8], i: usize, w: u32)
    requires { 4 * i + 4 ≤ length room.old }
    ensures { room.new ≡ written room.old (4 * i) (word_bytes w) }
{
    copy_in(room, 4 * i, &w.to_le_bytes());
}

// At most as many bytes as the buffer has, through the buffer: the two places may overlap.
#[tactic(auto, unfolding(crate::specs::Written::written))]
fn move_through(room: &mut [u8], from: usize, to: usize, count: usize)
    requires { (count ≤ BUFFER_BYTES) × ((from + count ≤ length room.old) × (to + count ≤ length room.old)) }
    ensures { room.new ≡ written room.old to (part room.old from count) }
{
    let mut buffer = [0u8; BUFFER_BYTES];
    buffer[..count].copy_from_slice(&room[from..from + count]);
    room[to..to + count].copy_from_slice(&buffer[..count]);
}

// Towards the front: `to` is not behind `from`. From the first to the last, so that what is still to be moved lies behind what was written.
pub fn move_down(room: &mut [u8], from: usize, to: usize, count: usize)
    requires { (to ≤ from) × (from + count ≤ length room.old) }
    ensures { room.new ≡ written room.old to (part room.old from count) }
{
    let moves = count / BUFFER_BYTES;
    for k in 0..moves {
        let i = BUFFER_BYTES * k;
        move_through(room, from + i, to + i, BUFFER_BYTES);
    }
    let i = BUFFER_BYTES * moves;
    move_through(room, from + i, to + i, count - i);
}

// Towards the back: `from` is not behind `to`. From the last to the first, so that what is still to be moved lies before what was written.
pub fn move_up(room: &mut [u8], from: usize, to: usize, count: usize)
    requires { (from ≤ to) × (to + count ≤ length room.old) }
    ensures { room.new ≡ written room.old to (part room.old from count) }
{
    let rest = count % BUFFER_BYTES;
    for k in (0..count / BUFFER_BYTES).rev() {
        let i = rest + BUFFER_BYTES * k;
        move_through(room, from + i, to + i, BUFFER_BYTES);
    }
    move_through(room, from, to, rest);
}
