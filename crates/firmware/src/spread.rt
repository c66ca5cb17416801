// The caller's twelve bytes after a reading: its figures, or what was in them.
ghost use Rattle.std.specs.Prelude.{◌≡◌};
ghost use Rattle.plan.specs.Plan.{as_init};
ghost use Rattle.firmware.specs.JobWired.{spread_in};

use bq769x0::BQ769x0;
use layout::list::put_three;
use plan::CalculatedValues;
use refusals::Error;

pub(crate) fn store(
    answer: &Result<CalculatedValues, Error>,
    device: &BQ769x0,
    bytes: &mut [u8; 12],
)
    ensures { bytes.new ≡ spread_in bytes.old device.now (as_init answer.now) }
{
    if answer.is_ok() {
        let spread = device.spread();
        put_three(spread.sum.0, spread.lowest.0, spread.highest.0, bytes);
    }
}
