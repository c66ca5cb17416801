// The bits of a register's byte, by a mask: tested, and changed.
#![tactic(auto)]

ghost use Rattle.std.specs.Prelude.{◌≡◌};
ghost use Rattle.bits.specs.Bits.{holds, placed, switched, stands, thermistor};

// One of the mask's bits is set.
pub fn holds(mask: u8, byte: u8) -> bool
    ensures { result ≡ holds mask byte }
{
    byte & mask != 0
}

// The mask's bits, or none.
pub fn placed(mask: u8, on: bool) -> u8
    ensures { result ≡ placed mask on }
{
    if on { mask } else { 0 }
}

// The byte with the mask's bits, or without.
pub fn switched(mask: u8, on: bool, byte: u8) -> u8
    ensures { result ≡ switched mask on byte }
{
    if on { byte | mask } else { byte & !mask }
}

// The mask's bit is as asked already.
pub fn stands(mask: u8, on: bool, byte: u8) -> bool
    ensures { result ≡ stands mask on byte }
{
    on == holds(mask, byte)
}

// The thermistor's bit of 04. It is cleared before it is tested, as in the Rust.
pub fn thermistor(byte: u8) -> bool
    ensures { result ≡ thermistor byte }
{
    let cleared = byte & 0b1111_0111;
    holds(0b0000_1000, cleared)
}
