// One register of a record: its byte read, and some of its bits changed; 9 first where the record is not sound.
#![tactic(auto, using(crate::proofs::Steps::steps), unfolding(crate::specs::Registers::read_register, crate::specs::Registers::writing, crate::specs::Registers::changing, bits::specs::Bits::putting))]

ghost use Rattle.bus.specs.Lent.{does};
ghost use Rattle.bus.specs.Raw.{as_raw};
ghost use Rattle.refusals.specs.Refusal.{refused, nine};
ghost use Rattle.bq769x0.specs.Registers.{soundly};
ghost use Rattle.bits.specs.Bits.{putting};
ghost use Rattle.commands.specs.Answers.{as_byte};
ghost use Rattle.commands.specs.Registers.{read_register, changing};

use bq769x0::BQ769x0;
use bus::Bus;
use raw::short;
use refusals::Error;

#[inline(always)]
pub(crate) fn read_register(device: &BQ769x0, reg: u8, bus: &mut Bus) -> Result<u8, Error>
    ensures { does (soundly device.now (refused nine) (read_register device.now.link reg)) bus (as_byte result) }
{
    device.sound()?;
    let mut data = [0u8; 1];
    short::read(device.link, reg, &mut data, bus)?;
    Ok(data[0])
}

// The bits of a mask anew, the others as they are read.
#[inline(always)]
pub(crate) fn change_bits(
    device: &BQ769x0,
    reg: u8,
    mask: u8,
    bits: u8,
    bus: &mut Bus,
) -> Result<(), Error>
    ensures { does (soundly device.now (refused nine) (changing device.now.link reg (putting mask bits))) bus (as_raw result) }
{
    let byte = read_register(device, reg, bus)?;
    short::write(device.link, reg, &[byte & !mask | bits], bus)
}
