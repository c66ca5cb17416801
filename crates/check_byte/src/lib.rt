// The check byte of the BQ769x0 battery monitor's frames: the remainder of the message times x^8, divided by
// x^8 + x^2 + x + 1, over bits.
//
// x^8 leaves x^2 + x + 1, so a number times x^8 leaves what it leaves times x^2 + x + 1: two shifts. That grows a remainder by two
// bits, and three bytes are taken in before it is cut back. There is no table: a constant array is laid out on the stack anew by
// each call that reads it, and costs more than the shifts.
#![tactic(auto)]

ghost use Rattle.std.specs.Prelude.{◌≡◌, [], ◌∷◌, ◌^◌, ◌<◌};
ghost use Rattle.std.specs.Int.Bits.{bit_xor};
ghost use Rattle.check_byte.specs.CheckByte.{divide, check_byte};
ghost use Rattle.check_byte.specs.Inside.{times_seven};

// n times x^2 + x + 1, the bits 111.
fn times_seven(n: u32) -> u32
    requires { n < 2 ^ 12 }
    ensures { result ≡ times_seven n }
{
    n ^ n << 1 ^ n << 2
}

// One byte more, after bytes that u stands for: both times x^8.
fn more(u: u32, byte: u8) -> u32
    requires { u < 2 ^ 12 }
    ensures { result ≡ times_seven (bit_xor u byte) }
{
    times_seven(u ^ byte as u32)
}

// The remainder of u. What stands above its low eight bits is there times x^8.
#[tactic(auto, using(crate::proofs::Leaves::cut))]
fn left(u: u32) -> u8
    requires { u < 2 ^ 14 }
    ensures { result ≡ divide 6 u }
{
    ((u ^ times_seven(u >> 8)) & 0xff) as u8
}

// The check byte of any number of bytes.
pub fn check_byte(data: &[u8]) -> u8
    ensures { result ≡ check_byte «data».now }
{
    let mut crc = 0;
    for byte in data {
        crc = left(more(crc as u32, *byte));
    }
    crc
}

// The check byte of one, two and three bytes, as the frames have them.
#[tactic(auto, using(crate::proofs::Leaves::one))]
pub fn check_byte1(a: u8) -> u8
    ensures { result ≡ check_byte (a ∷ []) }
{
    left(more(0, a))
}

#[tactic(auto, using(crate::proofs::Leaves::one, crate::proofs::Leaves::two))]
pub fn check_byte2(a: u8, b: u8) -> u8
    ensures { result ≡ check_byte (a ∷ b ∷ []) }
{
    left(more(more(0, a), b))
}

#[tactic(auto, using(crate::proofs::Leaves::one, crate::proofs::Leaves::two, crate::proofs::Leaves::three))]
pub fn check_byte3(a: u8, b: u8, c: u8) -> u8
    ensures { result ≡ check_byte (a ∷ b ∷ c ∷ []) }
{
    left(more(more(more(0, a), b), c))
}
