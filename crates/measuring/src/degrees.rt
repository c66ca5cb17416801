// The crate's `Temperature`: a reading in µV, named degrees, and where it comes from.
ghost use Rattle.std.specs.Prelude.{◌≡◌};
ghost use Rattle.measuring.specs.Temperature.{degrees};

use commands::control::TemperatureSource;
use units::DegreesCentigrade;

#[derive(Clone, Copy)]
pub enum Temperature {
    InternalDie(DegreesCentigrade),
    ExternalThermistor(DegreesCentigrade),
}

pub(crate) fn of_reading(ts: u16, source: TemperatureSource) -> Temperature
    ensures { result ≡ degrees ts source }
{
    let vtsx = ts as i32 * 382; // µV/LSB
    match source {
        TemperatureSource::InternalDie => Temperature::InternalDie(DegreesCentigrade(vtsx)),
        TemperatureSource::ExternalThermistor => {
            Temperature::ExternalThermistor(DegreesCentigrade(vtsx))
        }
    }
}
