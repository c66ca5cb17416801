// Calls of the driver once more, each with demand 3 beside its promise: `init` and `balance_set`, and both for C; and `balance_get` with what it
// reads on a chip.
#![tactic(auto)]

ghost use Rattle.std.specs.Prelude.{◌≡◌};
ghost use Rattle.plan.specs.Steps.{steps_for};
ghost use Rattle.plan.specs.Plan.{as_init};
ghost use Rattle.bus.specs.Transfers.{start};
ghost use Rattle.bus.specs.Programs.{on_tape};
ghost use Rattle.bus.specs.Raw.{as_raw};
ghost use Rattle.bus.specs.Lent.{lent_bus, does};
ghost use Rattle.bq769x0.specs.Record.{leaves};
ghost use Rattle.procedure.specs.Init.{init_by};
ghost use Rattle.runs.specs.Calls.{lent_call};
ghost use Rattle.recovery.specs.Demand3.{Demand3};
ghost use Rattle.commands.specs.Answers.{as_set};
ghost use Rattle.commands.specs.Commands.{balance_set, balance_get};
ghost use Rattle.model.specs.Balance as balance;
ghost use Rattle.job_setup.specs.JobInit.{job_init};
ghost use Rattle.firmware.specs.Handed.{handed, as_c, as_done};
ghost use Rattle.firmware.specs.JobBalance.{job_balance_set};
ghost use Rattle.recovered.specs.ForC.{call_for_c};
ghost use Rattle.recovered.specs.InitForC as of_init;
ghost use Rattle.recovered.specs.SetForC as of_set;

use bq769x0::BQ769x0;
use bus::Bus;
use commands::balancing;
use plan::{CalculatedValues, Config};
use refusals::Error;

pub fn init(device: &mut BQ769x0, config: Config, bus: &mut Bus) -> Result<CalculatedValues, Error>
    ensures { does (init_by steps_for device.old config) bus (leaves (as_init result) device.new)
        × Demand3 config device.old (lent_call bus (leaves (as_init result) device.new)) }
{
    setup::init(device, config, bus)
}

pub fn init_for_c(job: &[u8], tape: &[u8], log: &mut [u8], out: &mut [u8; 36]) -> u8
    ensures { handed result out.new log.new
        ≡ as_c (on_tape (job_init job.now) (lent_bus tape log start))
        × of_init.Demand3 job.now (call_for_c tape log result out.new) }
{
    firmware::bq769x0_init(job, tape, log, out)
}

pub fn balance_set(device: &BQ769x0, set: u16, limit: u8, bus: &mut Bus) -> Result<(), Error>
    ensures { does (balance_set device.now set limit) bus (as_raw result)
        × balance.Demand3 device.now set limit (lent_call bus (as_raw result)) }
{
    balancing::balance_set(device, set, limit, bus)
}

pub fn balance_get(device: &BQ769x0, bus: &mut Bus) -> Result<u16, Error>
    ensures { does (balance_get device.now) bus (as_set result)
        × balance.ReadsEveryChip device.now (lent_call bus (as_set result)) }
{
    balancing::balance_get(device, bus)
}

pub fn balance_set_for_c(
    device: &[u8],
    set: u16,
    limit: u8,
    tape: &[u8],
    log: &mut [u8],
    out: &mut [u8; 36],
) -> u8
    ensures { handed result out.new log.new
        ≡ as_done (on_tape (job_balance_set device.now set limit) (lent_bus tape log start))
        × of_set.Demand3 device.now set limit (call_for_c tape log result out.new) }
{
    firmware::bq769x0_balance_set(device, set, limit, tape, log, out)
}
