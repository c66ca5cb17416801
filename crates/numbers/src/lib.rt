// The crate's casts between signed and unsigned numbers, and numbers as bytes, high byte first.
#![tactic(auto)]

ghost use Rattle.std.specs.Prelude.{◌≡◌};
ghost use Rattle.numbers.specs.Numbers.{word, word4, word8, four, eight, as_i8, as_i16, as_i32, as_u32};

pub fn be_u16(high: u8, low: u8) -> u16
    ensures { result ≡ word high low }
{
    high as u16 * 256 + low as u16
}

pub fn be_i16(high: u8, low: u8) -> i16
    ensures { result ≡ as_i16 (word high low) }
{
    as_i16(be_u16(high, low))
}

pub fn be_u32(b0: u8, b1: u8, b2: u8, b3: u8) -> u32
    ensures { result ≡ word4 b0 b1 b2 b3 }
{
    be_u16(b0, b1) as u32 * 65536 + be_u16(b2, b3) as u32
}

// Eight bytes, by the numbers of their upper and their lower four.
pub fn be_u64(high: u32, low: u32) -> u64
    ensures { result ≡ word8 high low }
{
    high as u64 * 4_294_967_296 + low as u64
}

#[tactic(auto, unfolding(crate::specs::Numbers::four))]
pub fn u32_bytes(n: u32) -> [u8; 4]
    ensures { result ≡ four n }
{
    n.to_be_bytes()
}

#[tactic(auto, unfolding(crate::specs::Numbers::four, crate::specs::Numbers::eight))]
pub fn u64_bytes(n: u64) -> [u8; 8]
    ensures { result ≡ eight n }
{
    n.to_be_bytes()
}

// `byte as i8` of Rust.
pub fn as_i8(byte: u8) -> i8
    ensures { result ≡ as_i8 byte }
{
    byte.cast_signed()
}

// `n as i16` of Rust.
pub fn as_i16(n: u16) -> i16
    ensures { result ≡ as_i16 n }
{
    n.cast_signed()
}

// `n as i32` of Rust.
pub fn as_i32(n: u32) -> i32
    ensures { result ≡ as_i32 n }
{
    n.cast_signed()
}

// `z as u32` of Rust.
pub fn as_u32(z: i32) -> u32
    ensures { result ≡ as_u32 z }
{
    z.cast_unsigned()
}
