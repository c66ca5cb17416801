// What `init` is asked for, and what it will write: the crate's Config and CalculatedValues, the choice of steps, and the plan.
#![tactic(auto)]

ghost use Rattle.std.specs.Prelude.{◌≡◌};
ghost use Rattle.plan.specs.Steps.{bad_shunt};

use protection::delays::{OCDDelay, OVDelay, SCDDelay, UVDelay};
use protection::ocd::OCDThreshold;
use protection::range::OCDSCDRange;
use protection::scd::SCDThreshold;
use units::{Amperes, MicroOhms, MilliVolts};

pub mod answer;
pub mod currents;
pub mod six_bytes;

#[derive(Clone, Copy)]
pub struct Config {
    pub shunt: MicroOhms,
    pub scd_delay: SCDDelay,
    pub scd_threshold: Amperes,
    pub ocd_delay: OCDDelay,
    pub ocd_threshold: Amperes,
    pub uv_delay: UVDelay,
    pub uv_threshold: MilliVolts,
    pub ov_delay: OVDelay,
    pub ov_threshold: MilliVolts,
}

#[derive(Clone, Copy, PartialEq, Eq)]
pub struct CalculatedValues {
    pub ocdscd_range_used: OCDSCDRange,
    pub scd_threshold: Amperes,
    pub ocd_threshold: Amperes,
    pub uv_threshold: MilliVolts,
    pub ov_threshold: MilliVolts,
}

// The two steps that a configuration is set up with.
#[derive(Clone, Copy)]
pub struct Steps {
    pub scd: SCDThreshold,
    pub ocd: OCDThreshold,
}

// The values to report, and the six bytes for registers 06 to 0B.
#[derive(Clone, Copy)]
pub struct Plan {
    pub values: CalculatedValues,
    pub regs: [u8; 6],
}

// A current is divided by the shunt, which an `i32` must hold.
fn bad_shunt(shunt: MicroOhms) -> bool
    ensures { result ≡ bad_shunt shunt.0 }
{
    (shunt.0 == 0) | (2147483647 < shunt.0)
}
