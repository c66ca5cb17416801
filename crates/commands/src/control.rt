// The converter and the source of the temperature, bits 4 and 3 of register 04.
#![tactic(auto, using(crate::proofs::Steps::steps), unfolding(crate::specs::Registers::read_as))]

ghost use Rattle.bus.specs.Lent.{does};
ghost use Rattle.bus.specs.Raw.{as_raw};
ghost use Rattle.commands.specs.Answers.{as_source};
ghost use Rattle.commands.specs.Commands.{enable_adc, set_temperature_source};
ghost use Rattle.commands.specs.Commands.{temperature_source};

use crate::register;
use bq769x0::BQ769x0;
use bus::Bus;
use refusals::Error;

// Each is its bits.
#[derive(Clone, Copy)]
pub enum TemperatureSource {
    InternalDie = 0,
    ExternalThermistor = 0b0000_1000,
}

// Whether it is a thermistor.
impl From<bool> for TemperatureSource {
    ghost use Rattle.std.specs.Prelude.{◌≡◌};
    ghost use Rattle.commands.specs.Codes.{source_by};

    ghost from_gives = { λ thermistor source. source ≡ source_by thermistor };

    fn from(thermistor: bool) -> Self {
        if thermistor {
            TemperatureSource::ExternalThermistor
        } else {
            TemperatureSource::InternalDie
        }
    }
}

pub fn enable_adc(device: &BQ769x0, enable: bool, bus: &mut Bus) -> Result<(), Error>
    ensures { does (enable_adc device.now enable) bus (as_raw result) }
{
    let set = bits::placed(0b0001_0000, enable);
    register::change_bits(device, 0x04, 0b0001_0000, set, bus)
}

pub fn set_temperature_source(
    device: &BQ769x0,
    source: TemperatureSource,
    bus: &mut Bus,
) -> Result<(), Error>
    ensures { does (set_temperature_source device.now source) bus (as_raw result) }
{
    register::change_bits(device, 0x04, 0b0000_1000, source as u8, bus)
}

pub fn temperature_source(device: &BQ769x0, bus: &mut Bus) -> Result<TemperatureSource, Error>
    ensures { does (temperature_source device.now) bus (as_source result) }
{
    let byte = register::read_register(device, 0x04, bus)?;
    Ok(TemperatureSource::from(bits::thermistor(byte)))
}
