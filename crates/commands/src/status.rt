// The status register, 00.
#![tactic(auto, using(crate::proofs::Steps::steps), unfolding(crate::specs::Registers::read_as))]

ghost use Rattle.bus.specs.Lent.{does};
ghost use Rattle.bus.specs.Raw.{as_raw};
ghost use Rattle.commands.specs.Answers.{as_stat};
ghost use Rattle.commands.specs.Commands.{sys_stat, sys_stat_reset};

use crate::register;
use bq769x0::BQ769x0;
use bus::Bus;
use raw::short;
use refusals::Error;
use units::flags::{Stat, SysStat};

pub fn sys_stat(device: &BQ769x0, bus: &mut Bus) -> Result<Stat, Error>
    ensures { does (sys_stat device.now) bus (as_stat result) }
{
    let bits = register::read_register(device, 0x00, bus)?;
    Ok(Stat { bits })
}

// 9, then 18 for bit 6, which is no flag.
pub fn sys_stat_reset(device: &BQ769x0, flags: SysStat, bus: &mut Bus) -> Result<(), Error>
    ensures { does (sys_stat_reset device.now flags) bus (as_raw result) }
{
    device.sound()?;
    if flags.has_reserved() {
        return Err(Error::UnknownFlags);
    }
    short::write(device.link, 0x00, &[flags.bits], bus)
}
