// The short way of a transfer: where log and tape let it be done it is done, and where not nothing is touched.
ghost use Rattle.std.specs.Prelude.{◌≡◌, ◌+◌, ◌≤◌, length, drop, true};
ghost use Rattle.bus.specs.Transfers.{read, write, says, outcome};
ghost use Rattle.bus.specs.Lent.{held};
ghost use Rattle.raw.specs.Inside.{Heard, whole, ReadBy, WrittenBy, GotBy, SentBy, EchoedBy, leaves};

use crate::transfer;
use bus::{Bus, Cursor};

// Whether the tape's next field is that of a transfer that is done, with all that it wants.
#[inline(always)]
fn is_done(tape: &[u8], from: usize, want: usize) -> bool
    requires { want ≤ 256 }
    ensures { result ≡ true → Heard want (drop from tape.now)
        (says want (drop from tape.now)) (whole want) }
{
    if !transfer::has_room(tape.len(), from, want + 3) {
        return false;
    }
    (tape[from] == 0x01) & (numbers::be_u16(tape[from + 1], tape[from + 2]) as usize == want)
}

// All of src over dst. By way of an array of its own the compiler makes one move of memory of it: copied straight, src and dst might overlap.
#[inline(always)]
fn deliver(src: &[u8], dst: &mut [u8])
    requires { (length src.now ≤ 256) × (length dst.old ≡ length src.now) }
    ensures { dst.new ≡ src.now }
{
    let n = src.len();
    let mut held = [0u8; 256];
    held[..n].copy_from_slice(src);
    dst.copy_from_slice(&held[..n]);
}

// A read that is done: its field into the log, its bytes over the buffer. Where they stand is told before anything is stored.
#[inline(always)]
fn take(address: u8, reg: u8, buf: &mut [u8], bus: &mut Bus)
    requires buf_len_bound { length buf.old ≤ 256 }
    requires heard { Heard (length buf.old) (drop bus.old.at.tape bus.old.tape.now)
        (outcome (read address reg (length buf.old)) (held bus.old)) (whole (length buf.old)) }
    ensures { leaves bus (ReadBy (read address reg (length buf.old)) buf.old (whole (length buf.old)) buf.new) }
{
    let at = bus.at;
    let end = at.tape + 3 + buf.len();
    let bytes = &bus.tape[at.tape + 3..end];
    transfer::log_read(bus.log, at.log, address, reg, buf.len());
    deliver(bytes, buf);
    bus.at = Cursor {
        tape: end,
        log: at.log + 7,
    };
}

// A write that is done: its field into the log.
#[tactic(auto, using(crate::proofs::Moves::has_room))]
#[inline(always)]
fn put(address: u8, frame: &[u8], bus: &mut Bus)
    requires heard { Heard 0 (drop bus.old.at.tape bus.old.tape.now)
        (outcome (write address frame.now) (held bus.old)) (whole 0) }
    ensures { leaves bus (WrittenBy (write address frame.now) (whole 0)) }
{
    let at = bus.at;
    transfer::put_field(bus.log, at.log, 0x11, address, frame);
    bus.at = Cursor {
        tape: at.tape + 3,
        log: at.log + 4 + frame.len(),
    };
}

// A read, where it can be done.
#[inline(always)]
pub(crate) fn got(address: u8, reg: u8, buf: &mut [u8], bus: &mut Bus) -> bool
    requires { length buf.old ≤ 256 }
    ensures { leaves bus (GotBy (read address reg (length buf.old)) buf.old result buf.new) }
{
    let can = transfer::has_room(bus.log.len(), bus.at.log, 7)
        & is_done(bus.tape, bus.at.tape, buf.len());
    if can {
        take(address, reg, buf, bus);
    }
    can
}

// A write, where it can be done.
#[inline(always)]
pub(crate) fn sent(address: u8, frame: &[u8], bus: &mut Bus) -> bool
    ensures { leaves bus (SentBy (write address frame.now) result) }
{
    let can = transfer::has_room(bus.log.len(), bus.at.log, 4 + frame.len())
        & is_done(bus.tape, bus.at.tape, 0);
    if can {
        put(address, frame, bus);
    }
    can
}

// A write, and after it a read of what was written, where both can be done.
#[inline(always)]
pub(crate) fn echoed(address: u8, reg: u8, frame: &[u8], back: &mut [u8], bus: &mut Bus) -> bool
    requires { length back.old ≤ 256 }
    ensures { leaves bus (EchoedBy (write address frame.now) (read address reg (length back.old)) back.old result back.new) }
{
    let from = bus.at.tape;
    let room = transfer::has_room(bus.log.len(), bus.at.log, 4 + frame.len() + 7)
        & transfer::has_room(bus.tape.len(), from, back.len() + 6);
    if !room {
        return false;
    }
    let can = is_done(bus.tape, from, 0) & is_done(bus.tape, from + 3, back.len());
    if can {
        put(address, frame, bus);
        take(address, reg, back, bus);
    }
    can
}
