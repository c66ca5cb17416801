// A read and a write by the long way, whatever tape and log say to them.
ghost use Rattle.std.specs.Prelude.{◌+◌, ◌≤◌, length};
ghost use Rattle.bus.specs.Lent.{does};
ghost use Rattle.bus.specs.Raw.{as_raw, gives, plain_read, ask_frame, checked_read, read_raw, ask_back, write_raw};

use crate::transfer;
use bus::Bus;
use bus::link::Link;
use refusals::Error;

// Without checks: 14, then the transfer.
fn plain_read(link: Link, reg: u8, data: &mut [u8], bus: &mut Bus) -> Result<(), Error>
    ensures { does (plain_read link reg «data».old) bus (gives (as_raw result) «data».new) }
{
    if 256 < reg as usize + data.len() {
        return Err(Error::RegisterRunsOut);
    }
    transfer::transfer_read(link.address, reg, data, bus)?.done()
}

// With checks: 3, empty, 14, then twice the bytes.
#[tactic(auto, using(bus::proofs::Raws::checked_large, bus::proofs::Raws::checked_empty, bus::proofs::Raws::checked_out, bus::proofs::Raws::checked_goes))]
fn checked_read(link: Link, reg: u8, data: &mut [u8], bus: &mut Bus) -> Result<(), Error>
    requires { link.x ≤ 15 }
    ensures { does (checked_read link reg «data».old) bus (gives (as_raw result) «data».new) }
{
    let n = data.len();
    if 2 * (link.x as usize) < n {
        return Err(Error::BufTooLarge);
    }
    if n == 0 {
        return Ok(());
    }
    if 256 < reg as usize + n {
        return Err(Error::RegisterRunsOut);
    }
    read_frame(link.address, reg, data, bus)
}

// A read of a frame, and what it gives; bytes not delivered count as zero.
fn read_frame(address: u8, reg: u8, data: &mut [u8], bus: &mut Bus) -> Result<(), Error>
    requires { (1 ≤ length «data».old) × (length «data».old ≤ 30) }
    ensures { does (ask_frame address reg «data».old) bus (gives (as_raw result) «data».new) }
{
    let n = data.len();
    let mut frame = [0u8; 66];
    let made = transfer::transfer_read(address, reg, &mut frame[..2 * n], bus)?;
    crate::take_frame(address, &frame, made.fault, data)
}

#[tactic(auto, using(bus::proofs::Raws::read_unsound, bus::proofs::Raws::read_checked, bus::proofs::Raws::read_plain))]
pub(crate) fn read_long(link: Link, reg: u8, data: &mut [u8], bus: &mut Bus) -> Result<(), Error>
    ensures { does (read_raw link reg «data».old) bus (gives (as_raw result) «data».new) }
{
    if !link.is_sound() {
        return Err(Error::BadDevice);
    }
    if link.check {
        checked_read(link, reg, data, bus)
    } else {
        plain_read(link, reg, data, bus)
    }
}

pub(crate) fn write_long(link: Link, reg: u8, data: &[u8], bus: &mut Bus) -> Result<(), Error>
    ensures { does (write_raw link reg «data».now) bus (as_raw result) }
{
    crate::send(link, reg, data, bus)?;
    if link.check | (data.len() == 0) {
        return Ok(());
    }
    verify(link.address, reg, data, bus)
}

// A read of what was written, and the comparison.
fn verify(address: u8, reg: u8, data: &[u8], bus: &mut Bus) -> Result<(), Error>
    requires data_len_bound { length «data».now ≤ 8 }
    requires data_bound { reg + length «data».now ≤ 256 }
    ensures { does (ask_back address reg «data».now) bus (as_raw result) }
{
    let mut held = [0u8; 8];
    let back = &mut held[..data.len()];
    transfer::transfer_read(address, reg, back, bus)?.done()?;
    crate::compare(reg, data, back)
}
