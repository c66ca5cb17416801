// The pack's current and voltage.
ghost use Rattle.adc.specs.Conversion.{as_current};
ghost use Rattle.bus.specs.Lent.{does};
ghost use Rattle.measuring.specs.Pack.{current, as_voltage, voltage};

use crate::word;
use adc::counter;
use bq769x0::BQ769x0;
use bus::Bus;
use refusals::Error;
use units::{MilliAmperes, MilliVolts};

#[tactic(auto, using(crate::proofs::Initialised::initialised_or_not), unfolding(crate::specs::Pack::current))]
pub fn current(device: &BQ769x0, bus: &mut Bus) -> Result<MilliAmperes, Error>
    ensures { does (current device.now) bus (as_current result) }
{
    device.sound()?;
    if !device.init_complete {
        return Err(Error::Uninitialized);
    }
    let cc = word::read_word(device.link, 0x32, bus)?;
    counter::current(numbers::as_i16(cc), device.shunt)
}

#[tactic(auto, using(commands::proofs::Steps::steps), unfolding(crate::specs::Pack::voltage))]
pub fn voltage(device: &BQ769x0, bus: &mut Bus) -> Result<MilliVolts, Error>
    ensures { does (voltage device.now) bus (as_voltage result) }
{
    device.sound()?;
    let vv = word::read_word(device.link, 0x2a, bus)?;
    let adc = device.adc;
    Ok(adc.pack_voltage(device.cell_count, vv))
}
