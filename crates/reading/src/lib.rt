// What the programs read with: the room for the longest day file and for its statement, and the input itself.
#![tactic(auto)]

ghost use Rattle.std.specs.Prelude.{◌≡◌, ◌+◌, ◌≤◌, length, IfOk};
ghost use Rattle.limits.specs.Editions.{most_bytes};
ghost use Rattle.settlement.specs.Settlement.{most_numbers};

use std::io;
use std::io::Read;

// A byte more than the longest file that is not refused for its length, so that a longer one is seen to be longer.
const FILE_ROOM: usize = limits::MOST_BYTES + 1;

pub fn file_room() -> [u8; FILE_ROOM]
    ensures { most_bytes + 1 ≡ length result }
{
    [0; FILE_ROOM]
}

pub fn statement_room() -> [i64; settlement::MOST_NUMBERS]
    ensures { most_numbers ≡ length result }
{
    [0; settlement::MOST_NUMBERS]
}

// Reads until the room is full or the input ends: how many bytes there are.
pub fn read_full(rt: &impl Input, room: &mut [u8]) -> io::Result<usize>
    ensures bound { IfOk result (λ n. n ≤ length room.old) }
    ensures keeps_length { length room.new ≡ length room.old }
{
    let mut reader = rt.reader();
    let mut done = 0;
    for _ in 0..u64::MAX {
        if done == room.len() {
            break;
        }
        let n = reader.read(&mut room[done..])?;
        if n == 0 {
            break;
        }
        done += n;
    }
    Ok(done)
}
