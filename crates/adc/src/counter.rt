// The coulomb counter's reading as a current.
ghost use Rattle.std.specs.Prelude.{◌≡◌};
ghost use Rattle.adc.specs.Conversion.{milliamperes, as_current};

use refusals::Error;
use units::{MicroOhms, MilliAmperes};

pub fn current(cc: i16, shunt: MicroOhms) -> Result<MilliAmperes, Error>
    ensures { as_current result ≡ milliamperes cc shunt.0 }
{
    let shunt = shunt.0;
    if (shunt == 0) | (2147483647 < shunt) {
        return Err(Error::BadShunt);
    }
    let vshunt = cc as i32 * 8440;
    Ok(MilliAmperes(vshunt / shunt as i32))
}
