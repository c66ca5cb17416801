// The stages of `init` after the calibration.
ghost use Rattle.bus.specs.Lent.{does};
ghost use Rattle.plan.specs.Steps.{in_mv};
ghost use Rattle.plan.specs.Plan.{as_init};
ghost use Rattle.bus.specs.Raw.{as_raw};
ghost use Rattle.bq769x0.specs.Record.{leaves, with_head};
ghost use Rattle.bq769x0.specs.declared.Readings.{Readings};
ghost use Rattle.procedure.specs.Init.{protect};
ghost use Rattle.setup.specs.Inside.{counter_started};

use bq769x0::{BQ769x0, Head};
use bus::Bus;
use bus::link::Link;
use plan::{CalculatedValues, Config, Steps, six_bytes};
use refusals::Error;

// The six bytes, and the counter after them.
#[tactic(auto, using(bus::proofs::Steps::step), unfolding(procedure::specs::Init::protect, bus::specs::Programs::proceed, bus::specs::Programs::on_tape))]
pub(crate) fn protect(
    head: &mut Head,
    config: Config,
    steps: Steps,
    bus: &mut Bus,
) -> Result<CalculatedValues, Error>
    ensures { (readings : Readings) → does (protect config (in_mv steps) (with_head head.old readings)) bus
        (leaves (as_init result) (with_head head.new readings)) }
{
    let plan = six_bytes::plan(head.adc, config, steps)?;
    raw::short::write(head.link, BQ769x0::PROTECT1, &plan.regs, bus)?;
    head.store_shunt(config.shunt);
    start_counter(head.link, bus)?;
    Ok(plan.values)
}

// 05, with what was read kept.
#[tactic(auto, using(bus::proofs::Steps::step, bus::proofs::Steps::bytes), unfolding(crate::specs::Inside::counter_started, bus::specs::Programs::proceed, bus::specs::Programs::on_tape))]
fn start_counter(link: Link, bus: &mut Bus) -> Result<(), Error>
    ensures { does (counter_started link) bus (as_raw result) }
{
    let mut sysctrl2 = [0u8; 1];
    raw::short::read(link, BQ769x0::SYS_CTRL2, &mut sysctrl2, bus)?;
    let on = [sysctrl2[0] | 0b0100_0000]; // !!CC_EN!!
    raw::short::write(link, BQ769x0::SYS_CTRL2, &on, bus)
}
