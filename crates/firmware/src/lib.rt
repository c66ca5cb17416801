// For C: setting up and balancing, by a job, a tape and a log, with a number and 36 bytes out; and three questions that one byte answers.
#![tactic(auto)]

ghost use Rattle.std.specs.Prelude.{◌≡◌};
ghost use Rattle.bus.specs.Transfers.{start};
ghost use Rattle.bus.specs.Programs.{on_tape};
ghost use Rattle.bus.specs.Lent.{lent_bus, does};
ghost use Rattle.plan.specs.Plan.{as_init};
ghost use Rattle.job_setup.specs.JobInit.{job_init};
ghost use Rattle.firmware.specs.Handed.{handed, as_c, as_number, as_done};
ghost use Rattle.firmware.specs.JobBalance.{job_balance_set, job_balance_get};
ghost use Rattle.firmware.specs.JobCells.{listed, job_cells, as_list};
ghost use Rattle.firmware.specs.JobWired.{beside, job_wired, handed_both, as_both};
ghost use Rattle.firmware.specs.Found.{found, found_for};
ghost use Rattle.job.specs.Seconds.{seconds_for};
ghost use Rattle.protection.specs.Delays.{uv_times, ov_times};
ghost use Rattle.wiring.specs.Questions.{cell_on};

use bq769x0::{BQ769x0, Head};
use bus::Bus;
use job::seconds;
use plan::CalculatedValues;
use refusals::Error;
use wiring::questions;

mod balancing;
mod byte;
mod crate_list;
mod spread;
mod told;
mod wired;

// For C: the number, 0 where accepted, and the 36 bytes in out.
pub fn bq769x0_init(job: &[u8], tape: &[u8], log: &mut [u8], out: &mut [u8; 36]) -> u8
    ensures { handed result out.new log.new
        ≡ as_c (on_tape (job_init job.now) (lent_bus tape log start)) }
{
    let mut bus = Bus::new(tape, log);
    let mut head = Head::none();
    let answer = job_setup::set_up(job, &mut head, &mut bus);
    told::values(&answer, bus.at, out)
}

// The init of a job, and one cell reading after it.
#[tactic(auto, using(bus::proofs::Steps::steps, bus::proofs::Programs::on_tape_bind), unfolding(crate::specs::JobCells::job_cells))]
#[inline(always)]
pub fn init_cells(
    job: &[u8],
    device: &mut BQ769x0,
    list: &mut [u8],
    bus: &mut Bus,
) -> Result<CalculatedValues, Error>
    ensures { does (job_cells job.now list.old) bus (listed (as_init result) device.new list.new) }
{
    let values = job_setup::init(job, device, bus)?;
    crate_list::read_cells(values, device, list, bus)
}

// For C: the number and the 36 bytes as after `bq769x0_init`, and the cells in list, which a refusal leaves as it was.
pub fn bq769x0_init_cells(
    job: &[u8],
    tape: &[u8],
    log: &mut [u8],
    list: &mut [u8],
    out: &mut [u8; 36],
) -> u8
    ensures { record { handed = handed result out.new log.new; list = list.new }
        ≡ as_list (on_tape (job_cells job.now list.old) (lent_bus tape log start)) }
{
    let mut bus = Bus::new(tape, log);
    let mut device = BQ769x0::of_head(Head::none());
    let answer = init_cells(job, &mut device, list, &mut bus);
    told::values(&answer, bus.at, out)
}

// The init of a job, and one cell reading by the wiring after it.
#[tactic(auto, using(bus::proofs::Steps::steps, bus::proofs::Programs::on_tape_bind), unfolding(crate::specs::JobWired::job_wired))]
#[inline(always)]
pub fn init_wired(
    job: &[u8],
    device: &mut BQ769x0,
    inputs: &mut [u8],
    list: &mut [u8],
    bus: &mut Bus,
) -> Result<CalculatedValues, Error>
    ensures { does (job_wired job.now inputs.old list.old) bus (beside (as_init result) device.new inputs.new list.new) }
{
    let values = job_setup::init(job, device, bus)?;
    wired::read_wired(values, device, inputs, list, bus)
}

// For C: as `bq769x0_init_cells`, by the wiring, with each cell's input in inputs, and sum, lowest and highest in spread; a refusal leaves all
// three buffers as they were.
pub fn bq769x0_init_wired(
    job: &[u8],
    tape: &[u8],
    log: &mut [u8],
    inputs: &mut [u8],
    list: &mut [u8],
    spread: &mut [u8; 12],
    out: &mut [u8; 36],
) -> u8
    ensures { handed_both (handed result out.new log.new) inputs.new list.new spread.new
        ≡ as_both spread.old (on_tape (job_wired job.now inputs.old list.old)
        (lent_bus tape log start)) }
{
    let mut bus = Bus::new(tape, log);
    let mut device = BQ769x0::of_head(Head::none());
    let answer = init_wired(job, &mut device, inputs, list, &mut bus);
    spread::store(&answer, &device, spread);
    told::values(&answer, bus.at, out)
}

// For C: a set of inputs balanced, for the device in field 20, on a board with this limit: the number, and the 36 bytes in out.
pub fn bq769x0_balance_set(
    device: &[u8],
    set: u16,
    limit: u8,
    tape: &[u8],
    log: &mut [u8],
    out: &mut [u8; 36],
) -> u8
    ensures { handed result out.new log.new
        ≡ as_done (on_tape (job_balance_set device.now set limit) (lent_bus tape log start)) }
{
    let mut bus = Bus::new(tape, log);
    let answer = balancing::set(device, set, limit, &mut bus);
    told::number(answer.map(|()| 0), bus.at, out)
}

// For C: the set that the device has on, first of the five numbers in out.
pub fn bq769x0_balance_get(device: &[u8], tape: &[u8], log: &mut [u8], out: &mut [u8; 36]) -> u8
    ensures { handed result out.new log.new
        ≡ as_number (on_tape (job_balance_get device.now) (lent_bus tape log start)) }
{
    let mut bus = Bus::new(tape, log);
    let answer = balancing::get(device, &mut bus);
    told::number(answer.map(u32::from), bus.at, out)
}

// For C: the number, and the cell on an input of a pack, which a refusal leaves as it was.
pub fn bq769x0_cell_on(x: u8, cells: u8, input: u8, cell: &mut [u8; 1]) -> u8
    ensures { found result cell.new ≡ found_for (cell_on x cells input) cell.old }
{
    byte::store(questions::cell_on(x, cells, input), cell)
}

// For C: the number, and the seconds that a UV delay's code stands for, which a refusal leaves as they were.
pub fn bq769x0_uv_seconds(code: u8, seconds: &mut [u8; 1]) -> u8
    ensures { found result seconds.new ≡ found_for (seconds_for uv_times code) seconds.old }
{
    byte::store(seconds::uv_seconds(code), seconds)
}

// For C: the same of an OV delay's code.
pub fn bq769x0_ov_seconds(code: u8, seconds: &mut [u8; 1]) -> u8
    ensures { found result seconds.new ≡ found_for (seconds_for ov_times code) seconds.old }
{
    byte::store(seconds::ov_seconds(code), seconds)
}
