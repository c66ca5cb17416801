// Any of the chip's registers, by a record: 9 first where it is not sound.
#![tactic(auto, using(crate::proofs::Steps::steps), unfolding(bq769x0::specs::Registers::read_raw, bq769x0::specs::Registers::write_raw))]

ghost use Rattle.bus.specs.Lent.{does};
ghost use Rattle.bus.specs.Raw.{as_raw, gives};
ghost use Rattle.bq769x0.specs.Registers.{read_raw, write_raw};

use bq769x0::BQ769x0;
use bus::Bus;
use refusals::Error;

pub fn read_raw(
    device: &BQ769x0,
    reg_address: u8,
    data: &mut [u8],
    bus: &mut Bus,
) -> Result<(), Error>
    ensures { does (read_raw device.now reg_address «data».old) bus (gives (as_raw result) «data».new) }
{
    device.sound()?;
    raw::read_raw(device.link, reg_address, data, bus)
}

pub fn write_raw(device: &BQ769x0, reg_address: u8, data: &[u8], bus: &mut Bus) -> Result<(), Error>
    ensures { does (write_raw device.now reg_address «data».now) bus (as_raw result) }
{
    device.sound()?;
    raw::write_raw(device.link, reg_address, data, bus)
}
