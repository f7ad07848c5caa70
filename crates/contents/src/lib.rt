// The body that an entry of the contents says, as a part of the day file.
#![tactic(auto)]

ghost use Rattle.std.specs.Prelude.{◌+◌, ◌*◌, ◌≤◌, length};
ghost use Rattle.contents.specs.File.{start_at, size_at};
ghost use Rattle.contents.specs.BodyPart.{body_part, HandsBack};

// The bytes of body k, a part of the file.
pub fn body_at(file: &[u8], k: usize) -> &[u8]
    requires { (16 + 12 * k + 12 ≤ length file.now) × (4 * start_at file.now k + 4 * size_at file.now k ≤ length file.now) }
    ensures { HandsBack file.entry (body_part file.now k) result }
{
    let at = 4 + 3 * k;
    let from = 4 * (words::word(file, at + 1) as usize);
    let to = from + 4 * (words::word(file, at + 2) as usize);
    &file[from..to]
}
