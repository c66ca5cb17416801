// The fields of a log and of a tape: tag, two-byte length, value.
ghost use Rattle.std.specs.Prelude.{◌≤◌, ◌<◌, length, IfSome};

use std::fmt;
use text::Hex;

// As many bytes of a tape's field as are shown.
const SHOWN: usize = 16;

// How long the field is that bytes begin with.
fn size(bytes: &[u8]) -> usize
    ensures { 3 ≤ result }
{
    match bytes {
        [_, high, low, ..] => 3 + numbers::be_u16(*high, *low) as usize,
        _ => 3,
    }
}

// The field that bytes begin with, where it is whole, and what follows it.
pub(crate) fn first(bytes: &[u8]) -> Option<(&[u8], &[u8])>
    ensures { IfSome result (λ parts. length parts.1.now < length bytes.now) }
{
    bytes.split_at_checked(size(bytes))
}

// A field of a log: of a write its register and the bytes sent after it, of a read its register and the count of bytes on the bus.
#[derive(Drop)]
pub(crate) struct Transfer<'a>(pub &'a [u8]);

impl fmt::Display for Transfer<'_> {
    fn fmt<W: fmt::Write>(&self, f: &mut fmt::Formatter<W>) -> fmt::Result {
        match self.0 {
            [0x11, _, _, _, sent @ ..] => write!(f, "W{}", Hex(sent)),
            [_, _, _, _, register, high, low] => {
                write!(f, "R {register:02X} {}", numbers::be_u16(*high, *low))
            }
            _ => Ok(()),
        }
    }
}

// The field that is left of a tape, as far as it is there, and shown.
#[derive(Drop)]
pub(crate) struct Held<'a>(pub &'a [u8]);

impl fmt::Display for Held<'_> {
    fn fmt<W: fmt::Write>(&self, f: &mut fmt::Formatter<W>) -> fmt::Result {
        let left = self.0;
        if left.is_empty() {
            return f.write_str(" nothing");
        }
        let size = size(left);
        let there = size.min(left.len());
        write!(f, "{}", Hex(&left[..there.min(SHOWN)]))?;
        if SHOWN < there {
            f.write_str(" ..")?;
        }
        if left.len() < size {
            f.write_str(", and then ends")?;
        }
        Ok(())
    }
}
