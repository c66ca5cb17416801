// A job set up: the device that it names is made, and set up by its configuration.
#![tactic(auto)]

ghost use Rattle.bus.specs.Lent.{does};
ghost use Rattle.plan.specs.Plan.{as_init};
ghost use Rattle.bq769x0.specs.Record.{leaves, unread, with_head};
ghost use Rattle.job_setup.specs.JobInit.{job_init};

use bq769x0::{BQ769x0, Head};
use bus::Bus;
use plan::CalculatedValues;
use refusals::Error;

// 15, then 9, 10, 11, then the init; where no device was made, one of size 0 is left.
#[inline(always)]
pub fn init(job: &[u8], device: &mut BQ769x0, bus: &mut Bus) -> Result<CalculatedValues, Error>
    ensures { does (job_init job.now) bus (leaves (as_init result) device.new) }
{
    let mut head = Head::none();
    let answer = set_up(job, &mut head, bus);
    *device = BQ769x0::of_head(head);
    answer
}

// The same, without readings.
#[tactic(auto, using(bus::proofs::Steps::step, crate::proofs::Made::new_by_answer), unfolding(crate::specs::JobInit::job_init, bus::specs::Programs::proceed, bus::specs::Programs::on_tape))]
pub fn set_up(job: &[u8], head: &mut Head, bus: &mut Bus) -> Result<CalculatedValues, Error>
    ensures { does (job_init job.now) bus (leaves (as_init result) (with_head head.new unread)) }
{
    *head = Head::none();
    let wanted = job::parse(job)?;
    let asked = wanted.device;
    let made = Head::new(asked.x, asked.address, asked.cells, asked.check);
    *head = made.head;
    made.answer?;
    setup::set_up(head, wanted.config, bus)
}
