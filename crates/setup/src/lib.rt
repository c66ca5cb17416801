// Setting up: the crate's `init`.
#![tactic(auto)]

ghost use Rattle.bus.specs.Lent.{does};
ghost use Rattle.plan.specs.Steps.{steps_for};
ghost use Rattle.plan.specs.Plan.{as_init};
ghost use Rattle.bq769x0.specs.Record.{leaves, with_head};
ghost use Rattle.bq769x0.specs.declared.Readings.{Readings};
ghost use Rattle.procedure.specs.Init.{set_up, init_by};

use bq769x0::{BQ769x0, Head};
use bus::Bus;
use plan::{CalculatedValues, Config};
use refusals::Error;

pub mod calibrate;
mod stages;

#[tactic(auto, unfolding(procedure::specs::Init::init_by, bq769x0::specs::Registers::soundly, bus::specs::Programs::on_tape))]
pub fn init(device: &mut BQ769x0, config: Config, bus: &mut Bus) -> Result<CalculatedValues, Error>
    ensures { does (init_by steps_for device.old config) bus (leaves (as_init result) device.new) }
{
    device.sound()?;
    let mut head = device.head();
    let answer = set_up(&mut head, config, bus);
    device.set_head(head);
    answer
}

// The same on the head alone, with no test that the record is sound.
#[tactic(auto, using(bus::proofs::Steps::step, bus::proofs::Programs::on_tape_bind, crate::proofs::ByLink::calibrate_tells), unfolding(procedure::specs::Init::onward, procedure::specs::Init::onward_by, bus::specs::Programs::proceed, bus::specs::Programs::on_tape))]
pub fn set_up(head: &mut Head, config: Config, bus: &mut Bus) -> Result<CalculatedValues, Error>
    ensures { (readings : Readings) → does (set_up steps_for (with_head head.old readings) config) bus
        (leaves (as_init result) (with_head head.new readings)) }
{
    let steps = config.steps()?;
    head.store_calibration(calibrate::calibrate(head.link, bus)?);
    stages::protect(head, config, steps, bus)
}
