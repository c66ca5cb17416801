// What `init` answers, in numbers.
ghost use Rattle.std.specs.Prelude.{◌≡◌};
ghost use Rattle.refusals.specs.Refusal.{number_of};
ghost use Rattle.plan.specs.Plan.{as_init};
ghost use Rattle.plan.specs.InNumbers.{range_number, init_numbers};

use crate::CalculatedValues;
use protection::range::OCDSCDRange;
use refusals::Error;

// The range, SCD A, OCD A, UV mV, OV mV; of a refusal the count of its figures, and then these; below zero in two's complement.
#[derive(Clone, Copy)]
pub struct InitNumbers(pub u32, pub u32, pub u32, pub u32, pub u32);

fn range_number(range: OCDSCDRange) -> u32
    ensures { result ≡ range_number range }
{
    range as u32
}

// 0 where accepted.
pub fn number(answer: &Result<CalculatedValues, Error>) -> u8
    ensures { result ≡ number_of (as_init answer.now) }
{
    match answer {
        Ok(_) => 0,
        Err(e) => e.number(),
    }
}

pub fn in_numbers(answer: &Result<CalculatedValues, Error>) -> InitNumbers
    ensures { result ≡ init_numbers (as_init answer.now) }
{
    match answer {
        Ok(v) => InitNumbers(
            range_number(v.ocdscd_range_used),
            v.scd_threshold.0,
            v.ocd_threshold.0,
            numbers::as_u32(v.uv_threshold.0),
            numbers::as_u32(v.ov_threshold.0),
        ),
        Err(e) => {
            let numbers = e.in_numbers();
            InitNumbers(
                numbers.1 as u32,
                numbers::as_u32(numbers.2),
                numbers::as_u32(numbers.3),
                0,
                0,
            )
        }
    }
}
