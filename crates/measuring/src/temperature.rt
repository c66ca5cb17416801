// The temperature: the crate's reading in µV, named degrees, and where it comes from.
#![tactic(auto, using(commands::proofs::Steps::steps), unfolding(crate::specs::Temperature::sense, crate::specs::Temperature::with_source, crate::specs::Temperature::temperature))]

ghost use Rattle.bus.specs.Lent.{does};
ghost use Rattle.measuring.specs.Temperature.{as_temperature, temperature};

use crate::degrees::Temperature;
use crate::{degrees, word};
use bq769x0::BQ769x0;
use bus::Bus;
use commands::control;
use refusals::Error;

// The reading, and then its source.
pub fn temperature(device: &BQ769x0, bus: &mut Bus) -> Result<Temperature, Error>
    ensures { does (temperature device.now) bus (as_temperature result) }
{
    device.sound()?;
    let ts = word::read_word(device.link, 0x2c, bus)?;
    let source = control::temperature_source(device, bus)?;
    Ok(degrees::of_reading(ts, source))
}
