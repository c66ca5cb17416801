// One transfer: what the tape says to it, and its field in the log.
ghost use Rattle.std.specs.Prelude.{◌≡◌, ◌+◌, ◌≤◌, ◌∷◌, leb, length, drop};
ghost use Rattle.frames.specs.Put.{put};
ghost use Rattle.laws.specs.Over.{◌over◌};
ghost use Rattle.fields.specs.Fields.{field};
ghost use Rattle.bus.specs.Transfers.{read, write, log_field, says, answered};
ghost use Rattle.bus.specs.Raw.{as_raw};
ghost use Rattle.raw.specs.Inside.{judged, Heard, ReadBy, WrittenBy, leaves, ending};

use bus::{Bus, Cursor};
use refusals::Error;

// A transfer that was made: whether it ended with a fault, and how many bytes were delivered.
#[derive(Clone, Copy)]
pub(crate) struct Made {
    pub fault: bool,
    pub len: usize,
}

impl Made {
    // A fault is number 2.
    pub(crate) fn done(self) -> Result<(), Error>
        ensures { as_raw result ≡ ending self.fault }
    {
        if self.fault {
            return Err(Error::I2CError);
        }
        Ok(())
    }
}

// What a field says to a transfer that wants `want` bytes.
fn judge(want: usize, tag: u8, len: usize) -> Result<Made, Error>
    ensures { result ≡ judged want tag len }
{
    match tag {
        0x01 if len == want => Ok(Made { fault: false, len }),
        0x02 if len <= want => Ok(Made { fault: true, len }),
        _ => Err(Error::BadTape),
    }
}

// 16, 15, then what the tape's next field says.
fn hear(tape: &[u8], at: usize, want: usize) -> Result<Made, Error>
    ensures { Heard want (drop at tape.now) (says want (drop at tape.now)) result }
{
    match &tape[at.min(tape.len())..] {
        [] => Err(Error::TapeEnded),
        [tag, high, low, value @ ..] => {
            let len = numbers::be_u16(*high, *low) as usize;
            if value.len() < len {
                return Err(Error::BadTape);
            }
            judge(want, *tag, len)
        }
        _ => Err(Error::BadTape),
    }
}

#[inline(always)]
pub(crate) fn has_room(size: usize, used: usize, need: usize) -> bool
    ensures { result ≡ leb (used + need) size }
{
    (used <= size) && (need <= size - used)
}

// 17 where a field of `need` bytes does not fit the log, then as the tape says.
fn answer(bus: &Bus, want: usize, need: usize) -> Result<Made, Error>
    ensures { Heard want (drop bus.now.at.tape bus.now.tape.now)
        (answered want need (length bus.now.log.now) bus.now.tape.now bus.now.at) result }
{
    if !has_room(bus.log.len(), bus.at.log, need) {
        return Err(Error::LogFull);
    }
    hear(bus.tape, bus.at.tape, want)
}

// A field whose value is `first` and then `rest`, into the log at `at`.
#[inline(always)]
pub(crate) fn put_field(log: &mut [u8], at: usize, tag: u8, first: u8, rest: &[u8])
    requires { at + (4 + length rest.now) ≤ length log.old }
    ensures { log.new ≡ put log.old at (field tag (first ∷ rest.now)) }
{
    let n = rest.len() + 1;
    log[at] = tag;
    log[at + 1] = (n / 256 % 256) as u8;
    log[at + 2] = (n % 256) as u8;
    log[at + 3] = first;
    log[at + 4..at + 4 + rest.len()].copy_from_slice(rest);
}

// The field of a read, into the log at `at`.
#[tactic(auto, unfolding(bus::specs::Transfers::log_field))]
#[inline(always)]
pub(crate) fn log_read(log: &mut [u8], at: usize, address: u8, reg: u8, count: usize)
    requires { at + 7 ≤ length log.old }
    ensures { log.new ≡ put log.old at (log_field (read address reg count)) }
{
    let rest = [reg, (count / 256 % 256) as u8, (count % 256) as u8];
    put_field(log, at, 0x12, address, &rest);
}

// All of src over the first of dst: a byte a turn, since for a copy at once of what may overlap the library for C would want `memmove` from outside.
fn copy_in(src: &[u8], dst: &mut [u8])
    requires { length src.now ≤ length dst.old }
    ensures { dst.new ≡ src.now over dst.old }
{
    for (i, &byte) in src.iter().enumerate() {
        dst[i] = byte;
    }
}

// i2c.write_read(address, &[reg], buf)
#[inline(always)]
pub(crate) fn transfer_read(
    address: u8,
    reg: u8,
    buf: &mut [u8],
    bus: &mut Bus,
) -> Result<Made, Error>
    ensures { leaves bus (ReadBy (read address reg (length buf.old)) buf.old result buf.new) }
{
    let count = buf.len();
    let made = answer(bus, count, 7)?;
    log_read(bus.log, bus.at.log, address, reg, count);
    let start = bus.at.tape + 3;
    let end = start + made.len;
    copy_in(&bus.tape[start..end], buf);
    bus.at = Cursor {
        tape: end,
        log: bus.at.log + 7,
    };
    Ok(made)
}

// i2c.write(address, bytes)
#[inline(always)]
pub(crate) fn transfer_write(address: u8, bytes: &[u8], bus: &mut Bus) -> Result<Made, Error>
    ensures { leaves bus (WrittenBy (write address bytes.now) result) }
{
    let need = 4 + bytes.len();
    let made = answer(bus, 0, need)?;
    put_field(bus.log, bus.at.log, 0x11, address, bytes);
    bus.at = Cursor {
        tape: bus.at.tape + 3 + made.len,
        log: bus.at.log + need,
    };
    Ok(made)
}
