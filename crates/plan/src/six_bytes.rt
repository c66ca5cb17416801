// What `init` writes and reports for a configuration: the middle of the crate's `init`, which makes no transfer.
ghost use Rattle.std.specs.Prelude.{◌≡◌, ◌<◌, ◌≤◌};
ghost use Rattle.adc.specs.Trips.{reading_of, trip_code};
ghost use Rattle.protection.specs.Scd as scd;
ghost use Rattle.protection.specs.Ocd as ocd;
ghost use Rattle.plan.specs.Plan.{plan_for, as_plan, values_for, as_values};
ghost use Rattle.plan.specs.Registers.{protect_of, protect_for};
ghost use Rattle.plan.specs.Inside.{as_protect, as_within};
ghost use Rattle.plan.specs.Trips.{obtainable, within_for};

use crate::{CalculatedValues, Config, Plan, Steps};
use adc::transfer::{AdcTransferFunction, Limits};
use adc::trips;
use protection::range::OCDSCDRange;
use protection::{Threshold, range};
use refusals::Error;
use units::{Amperes, MilliVolts};

#[tactic(auto, using(crate::proofs::Order::in_turn, crate::proofs::After::only_12, crate::proofs::After::only_9, crate::proofs::After::past_9, crate::proofs::Three::three_first), unfolding(crate::specs::Plan::set_for))]
pub fn plan(adc: AdcTransferFunction, config: Config, steps: Steps) -> Result<Plan, Error>
    ensures { as_plan result
        ≡ plan_for adc.gain adc.offset config (scd.mv_of steps.scd) (ocd.mv_of steps.ocd) }
{
    if crate::bad_shunt(config.shunt) {
        return Err(Error::BadShunt);
    }
    if adc.gain == 0 {
        return Err(Error::BadDevice);
    }
    let range = range::range_to_use(steps.scd.range(), steps.ocd.range())?;
    within_limits(adc, config)?;
    let ov_bits = trip_code(adc, config.ov_threshold);
    let uv_bits = trip_code(adc, config.uv_threshold);
    let [protect1, protect2, protect3] = protect_bytes(config, steps, range)?;
    Ok(Plan {
        values: values(adc, config, steps, range, ov_bits, uv_bits),
        regs: [protect1, protect2, protect3, ov_bits, uv_bits, 0x19],
    })
}

// The code of the trip register for an asked voltage.
fn trip_code(adc: AdcTransferFunction, asked: MilliVolts) -> u8
    requires { 0 < adc.gain }
    ensures { result ≡ trip_code (reading_of adc.gain adc.offset asked.0) }
{
    trips::trip_code(adc.asked_reading(asked).unwrap())
}

// Whether both asked voltages are within what the trip registers can stand for.
#[tactic(auto, using(crate::proofs::Order::in_turn), unfolding(crate::specs::Trips::within_for, crate::specs::Trips::obtainable_or))]
fn within_limits(adc: AdcTransferFunction, config: Config) -> Result<(), Error>
    ensures { as_within result
        ≡ within_for adc.gain adc.offset config.ov_threshold.0 config.uv_threshold.0 }
{
    let ov = adc.ov_voltage_range();
    if !obtainable(config.ov_threshold, ov) {
        return Err(Error::OVThresholdUnobtainable(ov.low, ov.high));
    }
    let uv = adc.uv_voltage_range();
    if !obtainable(config.uv_threshold, uv) {
        return Err(Error::UVThresholdUnobtainable(uv.low, uv.high));
    }
    Ok(())
}

fn obtainable(asked: MilliVolts, limits: Limits) -> bool
    ensures { result ≡ obtainable asked.0 limits }
{
    (limits.low.0 <= asked.0) & (asked.0 <= limits.high.0)
}

// PROTECT1 (06), PROTECT2 (07) and PROTECT3 (08).
#[tactic(auto, using(crate::proofs::Order::in_turn), unfolding(crate::specs::Registers::protect_for))]
fn protect_bytes(config: Config, steps: Steps, range: OCDSCDRange) -> Result<[u8; 3], Error>
    ensures { as_protect result
        ≡ protect_for config (scd.mv_of steps.scd) (ocd.mv_of steps.ocd) range }
{
    let range_bits = range.bits()?;
    let scd_bits = steps.scd.bits(range)?;
    let ocd_bits = steps.ocd.bits(range)?;
    Ok(with_delays(config, range_bits, scd_bits, ocd_bits))
}

fn with_delays(config: Config, range_bits: u8, scd_bits: u8, ocd_bits: u8) -> [u8; 3]
    requires { (range_bits ≤ 128) × (scd_bits < 8) × (ocd_bits < 16) }
    ensures { result ≡ protect_of config range_bits scd_bits ocd_bits }
{
    [
        range_bits + config.scd_delay.bits() + scd_bits,
        config.ocd_delay.bits() + ocd_bits,
        config.uv_delay.bits() + config.ov_delay.bits(),
    ]
}

#[inline(always)]
fn values(
    adc: AdcTransferFunction,
    config: Config,
    steps: Steps,
    range: OCDSCDRange,
    ov_bits: u8,
    uv_bits: u8,
) -> CalculatedValues
    requires { 0 < config.shunt.0 }
    ensures { as_values result
        ≡ values_for adc.gain adc.offset config.shunt.0
        (scd.mv_of steps.scd) (ocd.mv_of steps.ocd) range ov_bits uv_bits }
{
    let shunt = config.shunt.0;
    CalculatedValues {
        ocdscd_range_used: range,
        scd_threshold: Amperes(steps.scd.mv() as u32 * 1000 / shunt),
        ocd_threshold: Amperes(steps.ocd.mv() as u32 * 1000 / shunt),
        uv_threshold: adc.apply(trips::uv_trip_reading(uv_bits)),
        ov_threshold: adc.apply(trips::ov_trip_reading(ov_bits)),
    }
}
