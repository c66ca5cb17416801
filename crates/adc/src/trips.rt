// The trip registers, OV_TRIP (09) and UV_TRIP (0A): the 14-bit reading that a code stands for, and the code of a reading.
ghost use Rattle.std.specs.Prelude.{◌≡◌};
ghost use Rattle.adc.specs.Trips.{ov_trip, uv_trip, trip_code};

pub fn ov_trip_reading(code: u8) -> u16
    ensures { result ≡ ov_trip code }
{
    0b10_0000_0000_1000 + 16 * code as u16
}

pub fn uv_trip_reading(code: u8) -> u16
    ensures { result ≡ uv_trip code }
{
    0b01_0000_0000_0000 + 16 * code as u16
}

pub fn trip_code(reading: i64) -> u8
    ensures { result ≡ trip_code reading }
{
    reading.div_euclid(16).rem_euclid(256) as u8
}
