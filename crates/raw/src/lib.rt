// The chip's registers, read and written over a link, with check bytes or without.
#![tactic(auto)]

ghost use Rattle.std.specs.Prelude.{◌≡◌, true, ◌+◌, ◌*◌, ◌≤◌, length, replicate, take};
ghost use Rattle.frames.specs.Put.{put};
ghost use Rattle.bus.specs.Lent.{does};
ghost use Rattle.bus.specs.Raw.{sound, as_raw, gives, read_raw, ask_write, send, compared, write_raw};
ghost use Rattle.raw.specs.Inside.{taken};

use bus::Bus;
use bus::link::Link;
use refusals::Error;

pub mod few;
mod long;
pub mod short;
mod transfer;
mod well;

// The first register whose byte reads back otherwise is number 5's figure.
fn compare(reg: u8, data: &[u8], back: &[u8]) -> Result<(), Error>
    requires back_len { length back.now ≡ length «data».now }
    requires data_bound { reg + length «data».now ≤ 256 }
    ensures { as_raw result ≡ compared reg «data».now back.now }
{
    for i in 0..data.len() {
        if data[i] != back[i] {
            return Err(Error::VerifyError((reg as usize + i) as u8));
        }
    }
    Ok(())
}

// Whether the short way may be tried: the link is sound, and the registers are among the chip's.
#[inline(always)]
fn can_go(link: Link, reg: u8, data: &[u8]) -> bool
    ensures { result ≡ true → (sound link ≡ true) × (reg + length «data».now ≤ 256) }
{
    link.is_sound() & (reg as usize + data.len() <= 256)
}

pub fn read_raw(link: Link, reg_address: u8, data: &mut [u8], bus: &mut Bus) -> Result<(), Error>
    ensures { does (read_raw link reg_address «data».old) bus (gives (as_raw result) «data».new) }
{
    let address = link.address;
    let n = data.len();
    if can_go(link, reg_address, data) {
        if !link.check {
            if well::got(address, reg_address, data, bus) {
                return Ok(());
            }
        } else if (n != 0) & (n <= 2 * (link.x as usize)) {
            let mut frame = [0u8; 66];
            if well::got(address, reg_address, &mut frame[..2 * n], bus) {
                return take_frame(address, &frame, false, data);
            }
        }
    }
    long::read_long(link, reg_address, data, bus)
}

// What a frame with check bytes gives, that stands first in zeros: 1 before a fault, and the data where all is right.
fn take_frame(address: u8, frame: &[u8; 66], fault: bool, data: &mut [u8]) -> Result<(), Error>
    requires in_bounds { (1 ≤ length «data».old) × (length «data».old ≤ 30) }
    requires frame_value { frame.now ≡ put (replicate 66 0) 0 (take (2 * length «data».old) frame.now) }
    ensures { gives (as_raw result) «data».new
        ≡ taken address «data».old (take (2 * length «data».old) frame.now) fault }
{
    let n = data.len();
    let mut bytes = [0u8; 32];
    if !frames::taken(address, frame, (n + 7) / 8, &mut bytes) {
        return Err(Error::CRCMismatch);
    }
    if fault {
        return Err(Error::I2CError);
    }
    data.copy_from_slice(&bytes[..n]);
    Ok(())
}

// One write that is not read back.
#[tactic(auto, using(bus::proofs::Raws::send_unsound, bus::proofs::Raws::send_large, bus::proofs::Raws::send_empty, bus::proofs::Raws::send_out, bus::proofs::Raws::send_goes))]
pub fn send(link: Link, reg_address: u8, data: &[u8], bus: &mut Bus) -> Result<(), Error>
    ensures { does (send link reg_address «data».now) bus (as_raw result) }
{
    let n = data.len();
    if !link.is_sound() {
        return Err(Error::BadDevice);
    }
    if 8 < n {
        return Err(Error::BufTooLarge);
    }
    if n == 0 {
        return Ok(());
    }
    if 256 < reg_address as usize + n {
        return Err(Error::RegisterRunsOut);
    }
    send_frame(link, reg_address, data, bus)
}

fn send_frame(link: Link, reg: u8, data: &[u8], bus: &mut Bus) -> Result<(), Error>
    requires { length «data».now ≤ 8 }
    ensures { does (ask_write link reg «data».now) bus (as_raw result) }
{
    let mut out = [0u8; 17];
    let n = frames::write_frame(link.check, link.address, reg, data, &mut out);
    transfer::transfer_write(link.address, &out[..n], bus)?.done()
}

// Without checks what was written is read back and compared.
pub fn write_raw(link: Link, reg_address: u8, data: &[u8], bus: &mut Bus) -> Result<(), Error>
    ensures { does (write_raw link reg_address «data».now) bus (as_raw result) }
{
    few::write_few(link, reg_address, data, bus)
}
