// What stands between field 20 and the calls: field 1C, a register and the bytes from it on, and field 1B, a transfer from 1 and how many bytes behind
// the address byte go through, each any number of times. A later one goes over an earlier.
ghost use Rattle.std.specs.Prelude.{◌≤◌, length, IfOk};

use chip::Chip;

const CUT: u8 = 0x1B;

const REGISTERS: u8 = 0x1C;

// Reads it into chip and cuts: where the calls begin, or else the field that does not fit.
pub(crate) fn read(input: &[u8], chip: &mut Chip, cuts: &mut [Option<u16>]) -> Result<usize, usize>
    ensures { IfOk result (λ at. (7 ≤ at) × (at ≤ length input.now)) }
{
    let mut at = calls::CALLS_AT;
    while let Ok(field) = calls::field_at(input, at) {
        if field.tag != REGISTERS && field.tag != CUT {
            return Ok(at);
        }
        let end = field.start + field.len;
        take(field.tag, &input[field.start..end], chip, cuts).ok_or(at)?;
        at = end;
    }
    Err(at)
}

// None where the value does not fit.
fn take(tag: u8, value: &[u8], chip: &mut Chip, cuts: &mut [Option<u16>]) -> Option<()> {
    match (tag, value) {
        // From a register on, up to FF.
        (REGISTERS, [first, bytes @ ..]) if !bytes.is_empty() => {
            let from = *first as usize;
            chip.regs
                .get_mut(from..from + bytes.len())?
                .copy_from_slice(bytes);
        }
        // A transfer that no tape has room for is none.
        (CUT, &[high, low, more, less]) => {
            let transfer = numbers::be_u16(high, low) as usize;
            if let Some(cut) = cuts.get_mut(transfer.checked_sub(1)?) {
                *cut = Some(numbers::be_u16(more, less));
            }
        }
        _ => return None,
    }
    Some(())
}
