// A number of registers that is known when it is compiled: `few` for each such number once.
ghost use Rattle.bus.specs.Lent.{does};
ghost use Rattle.bus.specs.Raw.{as_raw, gives, read_raw, write_raw};

use crate::few;
use bus::Bus;
use bus::link::Link;
use refusals::Error;

pub fn read<const N: usize>(
    link: Link,
    reg: u8,
    data: &mut [u8; N],
    bus: &mut Bus,
) -> Result<(), Error>
    ensures { does (read_raw link reg «data».old) bus (gives (as_raw result) «data».new) }
{
    few::read_few(link, reg, data, bus)
}

pub fn write<const N: usize>(
    link: Link,
    reg: u8,
    data: &[u8; N],
    bus: &mut Bus,
) -> Result<(), Error>
    ensures { does (write_raw link reg «data».now) bus (as_raw result) }
{
    few::write_few(link, reg, data, bus)
}
