// The switches for discharging and charging, bits 1 and 0 of register 05.
#![tactic(auto, using(crate::proofs::Steps::steps), unfolding(crate::specs::Registers::read_as, crate::specs::Registers::writing, crate::specs::Registers::changing, bits::specs::Bits::switching))]

ghost use Rattle.bus.specs.Lent.{does};
ghost use Rattle.bus.specs.Raw.{as_raw};
ghost use Rattle.commands.specs.Answers.{as_flag};
ghost use Rattle.bits.specs.Bits.{switching};
ghost use Rattle.bq769x0.specs.Registers.{soundly};
ghost use Rattle.refusals.specs.Refusal.{refused, nine};
ghost use Rattle.commands.specs.Registers.{changing};
ghost use Rattle.commands.specs.Commands.{discharge, charge, is_charge_enabled};

use crate::register;
use bq769x0::BQ769x0;
use bus::Bus;
use raw::short;
use refusals::Error;

pub fn discharge(device: &BQ769x0, enable: bool, bus: &mut Bus) -> Result<(), Error>
    ensures { does (discharge device.now enable) bus (as_raw result) }
{
    switch_bit(device, 0b0000_0010, enable, bus)
}

pub fn charge(device: &BQ769x0, enable: bool, bus: &mut Bus) -> Result<(), Error>
    ensures { does (charge device.now enable) bus (as_raw result) }
{
    switch_bit(device, 0b0000_0001, enable, bus)
}

pub fn is_charge_enabled(device: &BQ769x0, bus: &mut Bus) -> Result<bool, Error>
    ensures { does (is_charge_enabled device.now) bus (as_flag result) }
{
    let byte = register::read_register(device, BQ769x0::SYS_CTRL2, bus)?;
    Ok(bits::holds(0b0000_0001, byte))
}

// No write where the bit stands so already.
#[inline(always)]
fn switch_bit(device: &BQ769x0, mask: u8, enable: bool, bus: &mut Bus) -> Result<(), Error>
    ensures { does (soundly device.now (refused nine) (changing device.now.link 0x05 (switching mask enable))) bus (as_raw result) }
{
    let byte = register::read_register(device, BQ769x0::SYS_CTRL2, bus)?;
    if bits::stands(mask, enable, byte) {
        return Ok(());
    }
    let switched = bits::switched(mask, enable, byte);
    short::write(device.link, BQ769x0::SYS_CTRL2, &[switched], bus)
}
