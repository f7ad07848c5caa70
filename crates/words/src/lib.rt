// Little-endian words of 32 bits, two's complement where signed.
#![tactic(auto)]

ghost use Rattle.std.specs.Prelude.{◌≡◌, ◌+◌, ◌*◌, ◌≤◌, length, unsigned_abs};
ghost use Rattle.words.specs.Word.{word_at, signed_of};

// Word i of some bytes.
#[tactic(auto, unfolding(crate::specs::Word::word_at))]
pub fn word(bytes: &[u8], i: usize) -> u32
    requires { 4 * i + 4 ≤ length bytes.now }
    ensures { result ≡ word_at bytes.now i }
{
    let at = 4 * i;
    u32::from_le_bytes([bytes[at], bytes[at + 1], bytes[at + 2], bytes[at + 3]])
}

// A word as a signed number.
#[tactic(auto, using(crate::proofs::Halves::cast))]
pub fn signed(w: u32) -> i32
    ensures { result ≡ signed_of w }
{
    w.cast_signed()
}

// How far a word, as a signed number, is from 0.
pub fn magnitude(w: u32) -> u32
    ensures { result ≡ unsigned_abs (signed_of w) }
{
    signed(w).unsigned_abs()
}
