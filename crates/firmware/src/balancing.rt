// A set of inputs balanced, and read back, by the device that field 20 names.
ghost use Rattle.std.specs.Prelude.{◌≡◌};
ghost use Rattle.refusals.specs.Refusal.{as_answer};
ghost use Rattle.bus.specs.Lent.{does};
ghost use Rattle.bus.specs.Raw.{as_raw};
ghost use Rattle.bq769x0.specs.declared.BQ769x0 as of_device;
ghost use Rattle.commands.specs.Answers.{as_set};
ghost use Rattle.firmware.specs.JobBalance.{record_of, job_balance_set, job_balance_get};

use bq769x0::BQ769x0;
use bus::Bus;
use commands::balancing;
use refusals::Error;

// 15, then 9, 10, 11.
fn record_of(device: &[u8]) -> Result<BQ769x0, Error>
    ensures { as_answer (λ (d : of_device.BQ769x0). d) result ≡ record_of device.now }
{
    let asked = job::parse_device(device)?;
    let made = BQ769x0::new(asked.x, asked.address, asked.cells, asked.check);
    made.answer?;
    Ok(made.device)
}

#[tactic(auto, using(bus::proofs::Steps::step), unfolding(crate::specs::JobBalance::job_balance_set, bus::specs::Programs::proceed, bus::specs::Programs::on_tape))]
pub(crate) fn set(device: &[u8], set: u16, limit: u8, bus: &mut Bus) -> Result<(), Error>
    ensures { does (job_balance_set device.now set limit) bus (as_raw result) }
{
    let record = record_of(device)?;
    balancing::balance_set(&record, set, limit, bus)
}

#[tactic(auto, using(bus::proofs::Steps::step), unfolding(crate::specs::JobBalance::job_balance_get, bus::specs::Programs::proceed, bus::specs::Programs::on_tape))]
pub(crate) fn get(device: &[u8], bus: &mut Bus) -> Result<u16, Error>
    ensures { does (job_balance_get device.now) bus (as_set result) }
{
    let record = record_of(device)?;
    balancing::balance_get(&record, bus)
}
