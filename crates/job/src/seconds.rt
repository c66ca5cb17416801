// The seconds that a job's codes of the UV and OV delays stand for.
ghost use Rattle.std.specs.Prelude.{◌≡◌};
ghost use Rattle.protection.specs.Delays.{uv_times, ov_times};
ghost use Rattle.job.specs.Seconds.{as_seconds, seconds_for};

use protection::delays::{OVDelay, UVDelay};
use refusals::Error;

pub fn uv_seconds(code: u8) -> Result<u8, Error>
    ensures { as_seconds result ≡ seconds_for uv_times code }
{
    Ok(UVDelay::try_from(code)?.seconds())
}

pub fn ov_seconds(code: u8) -> Result<u8, Error>
    ensures { as_seconds result ≡ seconds_for ov_times code }
{
    Ok(OVDelay::try_from(code)?.seconds())
}
