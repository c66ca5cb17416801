// The chip's protection settings: the delays, and the steps at which a short circuit (SCD) and an overcurrent (OCD) trip.
#![tactic(auto)]

ghost use Rattle.std.specs.Prelude.{◌≡◌, ℕ, List, ◌++◌};
ghost use Rattle.protection.specs.Answers.{as_number, as_step};
ghost use Rattle.protection.specs.Ranges.{code_for, codes_for, range_for};
ghost use Rattle.protection.specs.Steps.{mv_across, step, step_for};

use range::{Codes, OCDSCDRange};
use refusals::Error;
use units::{Amperes, MicroOhms};

pub mod delays;
pub mod ocd;
pub mod range;
pub mod scd;

// A kind of step: of a short circuit, or of an overcurrent.
pub trait Threshold: Copy {
    // A step's millivolts, and the steps that the datasheet publishes for each range.
    ghost mv_of: { Self → ℕ };

    ghost lower: { List ℕ };

    ghost upper: { List ℕ };

    fn mv(self) -> u8
        ensures { result ≡ mv_of self };

    fn range(self) -> OCDSCDRange
        ensures { result ≡ range_for lower upper (mv_of self) };

    fn codes(self) -> Codes
        ensures { result ≡ codes_for lower upper (mv_of self) };

    fn from_mv(mv_threshold: u8) -> Self
        ensures { mv_of result ≡ step (lower ++ upper) mv_threshold };

    #[tactic(auto, unfolding(crate::specs::Ranges::code_for))]
    fn bits(self, range: OCDSCDRange) -> Result<u8, Error>
        ensures { as_number result ≡ code_for lower upper range (mv_of self) }
    {
        self.codes().code_in(range)
    }

    fn from_current(threshold: Amperes, shunt: MicroOhms) -> Result<Self, Error>
        ensures { as_step mv_of result ≡ step_for (lower ++ upper) threshold.0 shunt.0 }
    {
        Ok(Self::from_mv(mv_across(threshold, shunt)?))
    }
}

// The millivolts across the shunt.
#[tactic(auto, unfolding(crate::specs::Steps::mv_across))]
fn mv_across(threshold: Amperes, shunt: MicroOhms) -> Result<u8, Error>
    ensures { as_number result ≡ mv_across threshold.0 shunt.0 }
{
    let product = (threshold.0 as u64) * (shunt.0 as u64);
    if product < 256_000 {
        Ok((product / 1000) as u8)
    } else {
        Err(Error::CurrentTooLarge)
    }
}
