// The converter's transfer function: its gain in µV a step and its offset in mV.
ghost use Rattle.std.specs.Prelude.{◌≡◌, ◌≤◌, ◌*◌, pos, ◌+ℤ◌, ◌*ℤ◌};
ghost use Rattle.numbers.specs.Numbers.{◌÷◌};
ghost use Rattle.adc.specs.Registers.{calibration};
ghost use Rattle.adc.specs.Conversion.{millivolts, pack_millivolts};
ghost use Rattle.adc.specs.Trips.{ov_trip, uv_trip, limits, asked_reading, as_asked};

use refusals::Error;
use units::MilliVolts;

#[derive(Clone, Copy, PartialEq, Eq)]
pub struct AdcTransferFunction {
    pub gain: u16,
    pub offset: i8,
}

// The least and the greatest voltage that a trip register can stand for.
#[derive(Clone, Copy)]
pub struct Limits {
    pub low: MilliVolts,
    pub high: MilliVolts,
}

impl AdcTransferFunction {
    // The calibration in registers 50, 51 and 59.
    pub fn from_registers(b50: u8, b51: u8, b59: u8) -> AdcTransferFunction
        ensures { result ≡ calibration b50 b51 b59 }
    {
        AdcTransferFunction {
            gain: 365 + ((b50 / 4 % 4) as u16 * 8 + (b59 / 32) as u16),
            offset: numbers::as_i8(b51),
        }
    }

    pub fn apply(self, adc_reading: u16) -> MilliVolts
        ensures { result.0 ≡ millivolts self.gain self.offset adc_reading }
    {
        MilliVolts(per_thousand(adc_reading as u64 * self.gain as u64, self.offset, 1000))
    }

    // The pack's voltage, with the offset taken once per fitted cell.
    pub fn pack_voltage(self, cells: u8, adc_reading: u16) -> MilliVolts
        ensures { result.0 ≡ pack_millivolts cells self.gain self.offset adc_reading }
    {
        MilliVolts(per_thousand(
            4 * self.gain as u64 * adc_reading as u64,
            self.offset,
            cells as u32 * 1000,
        ))
    }

    pub fn ov_voltage_range(self) -> Limits
        ensures { result ≡ limits self.gain self.offset (ov_trip 0x00) (ov_trip 0xFF) }
    {
        let min_adc_reading = 0b10_0000_0000_1000;
        let max_adc_reading = 0b10_1111_1111_1000;
        self.limits(min_adc_reading, max_adc_reading)
    }

    pub fn uv_voltage_range(self) -> Limits
        ensures { result ≡ limits self.gain self.offset (uv_trip 0x00) (uv_trip 0xFF) }
    {
        let min_adc_reading = 0b01_0000_0000_0000;
        let max_adc_reading = 0b01_1111_1111_0000;
        self.limits(min_adc_reading, max_adc_reading)
    }

    fn limits(self, min_adc_reading: u16, max_adc_reading: u16) -> Limits
        ensures { result ≡ limits self.gain self.offset min_adc_reading max_adc_reading }
    {
        Limits {
            low: self.apply(min_adc_reading),
            high: self.apply(max_adc_reading),
        }
    }

    // The reading at which the converter shows an asked voltage, rounded down.
    pub fn asked_reading(self, asked: MilliVolts) -> Result<i64, Error>
        ensures { as_asked result ≡ asked_reading self.gain self.offset asked.0 }
    {
        if self.gain == 0 {
            return Err(Error::BadDevice);
        }
        let scaled = (asked.0 as i64 - self.offset as i64) * 1000;
        Ok(scaled.div_euclid(self.gain as i64))
    }
}

// (up + offset * by) / 1000, toward zero.
fn per_thousand(up: u64, offset: i8, by: u32) -> i32
    requires { (up ≤ 4 * 65535 * 65535) × (by ≤ 255 * 1000) }
    ensures { result ≡ (pos up +ℤ offset *ℤ pos by) ÷ 1000 }
{
    ((up as i64 + offset as i64 * by as i64) / 1000) as i32
}
