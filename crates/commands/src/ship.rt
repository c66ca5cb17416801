// Ship mode, which the chip enters by three writes to register 04.
ghost use Rattle.bus.specs.Lent.{does};
ghost use Rattle.bus.specs.Raw.{as_raw};
ghost use Rattle.commands.specs.Commands.{ship_enter};

use bq769x0::BQ769x0;
use bus::Bus;
use raw::short;
use refusals::Error;

pub fn ship_enter(device: &BQ769x0, bus: &mut Bus) -> Result<(), Error>
    ensures { does (ship_enter device.now) bus (as_raw result) }
{
    device.sound()?;
    let link = device.link;
    short::write(link, 0x04, &[0b0000_0000], bus)?;
    short::write(link, 0x04, &[0b0000_0001], bus)?;
    short::write(link, 0x04, &[0b0000_0010], bus)
}
