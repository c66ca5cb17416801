// Up to eight registers read and written, as `read_raw` and `write_raw` do it: by the short way of `well` where it can be gone, else by the
// long way from the start. Each is inlined where it is called, so that the compiler knows a count that is known there.
ghost use Rattle.std.specs.Prelude.{◌≡◌, true, false, ◌+◌, ◌*◌, ◌≤◌, length};
ghost use Rattle.bus.specs.Lent.{does};
ghost use Rattle.bus.specs.Raw.{sound, as_raw, gives, read_raw, write_raw};
ghost use Rattle.raw.specs.Inside.{taken};

use crate::{long, well};
use bus::Bus;
use bus::link::Link;
use check_byte::{check_byte1, check_byte2};
use refusals::Error;

// Whether the short way may be tried, for so few.
#[inline(always)]
fn can_go(link: Link, reg: u8, data: &[u8]) -> bool
    ensures { result ≡ true → (sound link ≡ true) × (reg + length «data».now ≤ 256) × (length «data».now ≤ 8) }
{
    crate::can_go(link, reg, data) & (data.len() <= 8)
}

#[inline(always)]
pub fn read_few(link: Link, reg: u8, data: &mut [u8], bus: &mut Bus) -> Result<(), Error>
    ensures { does (read_raw link reg «data».old) bus (gives (as_raw result) «data».new) }
{
    let address = link.address;
    let n = data.len();
    if can_go(link, reg, data) {
        if !link.check {
            if well::got(address, reg, data, bus) {
                return Ok(());
            }
        } else if n != 0 {
            let mut held = [0u8; 16];
            let frame = &mut held[..2 * n];
            if well::got(address, reg, frame, bus) {
                return take_pairs(address, frame, data);
            }
        }
    }
    long::read_long(link, reg, data, bus)
}

// What a frame gives, whose bytes have each its check byte behind it.
#[inline(always)]
fn take_pairs(address: u8, frame: &[u8], data: &mut [u8]) -> Result<(), Error>
    requires { (1 ≤ length «data».old) × (length frame.now ≡ 2 * length «data».old) }
    ensures { gives (as_raw result) «data».new ≡ taken address «data».old frame.now false }
{
    let mut right = frame[1] == check_byte2(address << 1 | 1, frame[0]);
    for i in 1..data.len() {
        right &= frame[2 * i + 1] == check_byte1(frame[2 * i]);
    }
    if !right {
        return Err(Error::CRCMismatch);
    }
    for i in 0..data.len() {
        data[i] = frame[2 * i];
    }
    Ok(())
}

#[inline(always)]
pub fn write_few(link: Link, reg: u8, data: &[u8], bus: &mut Bus) -> Result<(), Error>
    ensures { does (write_raw link reg «data».now) bus (as_raw result) }
{
    let address = link.address;
    let n = data.len();
    if can_go(link, reg, data) & (n != 0) {
        let mut out = [0u8; 17];
        let size = frames::write_frame(link.check, address, reg, data, &mut out);
        let frame = &out[..size];
        if link.check {
            if well::sent(address, frame, bus) {
                return Ok(());
            }
        } else {
            let mut back = [0u8; 8];
            if well::echoed(address, reg, frame, &mut back[..n], bus) {
                return crate::compare(reg, data, &back[..n]);
            }
        }
    }
    long::write_long(link, reg, data, bus)
}
