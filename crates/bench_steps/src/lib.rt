// The choice of a step for the bench's C: the millivolts of the step that a number of millivolts is given.
#![tactic(auto)]

ghost use Rattle.std.specs.Prelude.{◌≡◌, ◌++◌};
ghost use Rattle.protection.specs.Steps.{scd_lower, scd_upper, ocd_lower, ocd_upper, step};

use protection::Threshold;
use protection::ocd::OCDThreshold;
use protection::scd::SCDThreshold;

#[unsafe(no_mangle)]
pub extern "C" fn bench_scd_from_mv(mv_threshold: u8) -> u8
    ensures { result ≡ step (scd_lower ++ scd_upper) mv_threshold }
{
    SCDThreshold::from_mv(mv_threshold).mv()
}

#[unsafe(no_mangle)]
pub extern "C" fn bench_ocd_from_mv(mv_threshold: u8) -> u8
    ensures { result ≡ step (ocd_lower ++ ocd_upper) mv_threshold }
{
    OCDThreshold::from_mv(mv_threshold).mv()
}
