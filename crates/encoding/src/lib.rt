// Numbers as bytes for a host: eight bytes a number, the lowest first, two's complement.
#![tactic(auto)]

ghost use Rattle.std.specs.Prelude.{◌≡◌, ◌++◌, ◌*◌, ◌/◌, ◌≤◌, length, drop};
ghost use Rattle.encoding.specs.Encoding.{bits_of, bytes_of, encoded, number_in, NumbersIn};

#[tactic(auto, using(crate::proofs::Encoding::le_bytes))]
pub fn put_number(z: i64, bytes: &mut [u8])
    requires { 8 ≤ length bytes.old }
    ensures { bytes.new ≡ bytes_of (bits_of z) ++ drop 8 bytes.old }
{
    bytes[..8].copy_from_slice(&z.to_le_bytes());
}

pub fn put_numbers(numbers: &[i64], bytes: &mut [u8])
    requires { 8 * length numbers.now ≤ length bytes.old }
    ensures { bytes.new ≡ encoded numbers.now ++ drop (8 * length numbers.now) bytes.old }
{
    for (i, number) in numbers.iter().enumerate() {
        put_number(*number, &mut bytes[8 * i..]);
    }
}

// The number that eight bytes hold.
fn number(eight: [u8; 8]) -> i64
    ensures { result ≡ number_in eight }
{
    i64::from_le_bytes(eight)
}

// The numbers of some bytes, eight bytes each.
pub fn take_numbers(bytes: &[u8], numbers: &mut [i64])
    requires { length bytes.now / 8 ≤ length numbers.old }
    ensures { NumbersIn bytes.now numbers.old numbers.new }
{
    let (eights, _) = bytes.as_chunks::<8>();
    for (i, eight) in eights.iter().enumerate() {
        numbers[i] = number(*eight);
    }
}
