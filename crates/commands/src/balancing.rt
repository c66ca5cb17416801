// Balancing of the cells at the inputs: registers 01 to 03, five inputs each.
ghost use Rattle.bus.specs.Lent.{does};
ghost use Rattle.bus.specs.Raw.{as_raw};
ghost use Rattle.commands.specs.Answers.{as_byte, as_set};
ghost use Rattle.commands.specs.Commands.{enable_balancing, balancing_state, balance_set, balance_get};

use crate::register;
use bq769x0::BQ769x0;
use bus::Bus;
use raw::{few, short};
use refusals::Error;

// Inputs 1 to 5 alone, as the crate has it.
#[tactic(auto, using(crate::proofs::Steps::steps), unfolding(bq769x0::specs::Registers::write_raw))]
pub fn enable_balancing(device: &BQ769x0, cells: u8, bus: &mut Bus) -> Result<(), Error>
    ensures { does (enable_balancing device.now cells) bus (as_raw result) }
{
    device.sound()?;
    short::write(device.link, 0x01, &[cells], bus)
}

pub fn balancing_state(device: &BQ769x0, bus: &mut Bus) -> Result<u8, Error>
    ensures { does (balancing_state device.now) bus (as_byte result) }
{
    register::read_register(device, 0x01, bus)
}

// 9, then 22, 23, 24 by the rules of the set, and one write of as many registers as the device has.
#[tactic(auto, using(crate::proofs::Few::few), unfolding(crate::specs::Commands::balance_set, cellbal::specs::Registers::registers_for))]
pub fn balance_set(device: &BQ769x0, set: u16, limit: u8, bus: &mut Bus) -> Result<(), Error>
    ensures { does (balance_set device.now set limit) bus (as_raw result) }
{
    device.sound()?;
    let link = device.link;
    cellbal::judge(link.x, set, limit)?;
    let registers = cellbal::registers(set);
    let n = cellbal::register_count(link.x);
    few::write_few(link, 0x01, &registers[..n], bus)
}

#[tactic(auto, using(crate::proofs::Few::few), unfolding(crate::specs::Commands::balance_get))]
pub fn balance_get(device: &BQ769x0, bus: &mut Bus) -> Result<u16, Error>
    ensures { does (balance_get device.now) bus (as_set result) }
{
    device.sound()?;
    let link = device.link;
    let n = cellbal::register_count(link.x);
    let mut registers = [0u8; 3];
    few::read_few(link, 0x01, &mut registers[..n], bus)?;
    Ok(cellbal::set_of(registers))
}
