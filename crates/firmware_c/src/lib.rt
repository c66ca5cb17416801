// For C: what crate firmware promises, under the names that the header declares.
#![tactic(auto)]

ghost use Rattle.std.specs.Prelude.{◌≡◌};
ghost use Rattle.bus.specs.Transfers.{start};
ghost use Rattle.bus.specs.Programs.{on_tape};
ghost use Rattle.bus.specs.Lent.{lent_bus};
ghost use Rattle.job_setup.specs.JobInit.{job_init};
ghost use Rattle.firmware.specs.Handed.{handed, as_c, as_number, as_done};
ghost use Rattle.firmware.specs.JobBalance.{job_balance_set, job_balance_get};
ghost use Rattle.firmware.specs.JobCells.{job_cells, as_list};
ghost use Rattle.firmware.specs.JobWired.{job_wired, handed_both, as_both};
ghost use Rattle.firmware.specs.Found.{found, found_for};
ghost use Rattle.job.specs.Seconds.{seconds_for};
ghost use Rattle.protection.specs.Delays.{uv_times, ov_times};
ghost use Rattle.wiring.specs.Questions.{cell_on};

#[unsafe(no_mangle)]
pub extern "C" fn bq769x0_init(job: &[u8], tape: &[u8], log: &mut [u8], out: &mut [u8; 36]) -> u8
    ensures { handed result out.new log.new
        ≡ as_c (on_tape (job_init job.now) (lent_bus tape log start)) }
{
    firmware::bq769x0_init(job, tape, log, out)
}

#[unsafe(no_mangle)]
pub extern "C" fn bq769x0_init_cells(
    job: &[u8],
    tape: &[u8],
    log: &mut [u8],
    list: &mut [u8],
    out: &mut [u8; 36],
) -> u8
    ensures { record { handed = handed result out.new log.new; list = list.new }
        ≡ as_list (on_tape (job_cells job.now list.old) (lent_bus tape log start)) }
{
    firmware::bq769x0_init_cells(job, tape, log, list, out)
}

#[unsafe(no_mangle)]
pub extern "C" fn bq769x0_init_wired(
    job: &[u8],
    tape: &[u8],
    log: &mut [u8],
    inputs: &mut [u8],
    list: &mut [u8],
    spread: &mut [u8; 12],
    out: &mut [u8; 36],
) -> u8
    ensures { handed_both (handed result out.new log.new) inputs.new list.new spread.new
        ≡ as_both spread.old (on_tape (job_wired job.now inputs.old list.old)
        (lent_bus tape log start)) }
{
    firmware::bq769x0_init_wired(job, tape, log, inputs, list, spread, out)
}

#[unsafe(no_mangle)]
pub extern "C" fn bq769x0_balance_set(
    device: &[u8],
    set: u16,
    limit: u8,
    tape: &[u8],
    log: &mut [u8],
    out: &mut [u8; 36],
) -> u8
    ensures { handed result out.new log.new
        ≡ as_done (on_tape (job_balance_set device.now set limit) (lent_bus tape log start)) }
{
    firmware::bq769x0_balance_set(device, set, limit, tape, log, out)
}

#[unsafe(no_mangle)]
pub extern "C" fn bq769x0_balance_get(
    device: &[u8],
    tape: &[u8],
    log: &mut [u8],
    out: &mut [u8; 36],
) -> u8
    ensures { handed result out.new log.new
        ≡ as_number (on_tape (job_balance_get device.now) (lent_bus tape log start)) }
{
    firmware::bq769x0_balance_get(device, tape, log, out)
}

#[unsafe(no_mangle)]
pub extern "C" fn bq769x0_cell_on(x: u8, cells: u8, input: u8, cell: &mut [u8; 1]) -> u8
    ensures { found result cell.new ≡ found_for (cell_on x cells input) cell.old }
{
    firmware::bq769x0_cell_on(x, cells, input, cell)
}

#[unsafe(no_mangle)]
pub extern "C" fn bq769x0_uv_seconds(code: u8, seconds: &mut [u8; 1]) -> u8
    ensures { found result seconds.new ≡ found_for (seconds_for uv_times code) seconds.old }
{
    firmware::bq769x0_uv_seconds(code, seconds)
}

#[unsafe(no_mangle)]
pub extern "C" fn bq769x0_ov_seconds(code: u8, seconds: &mut [u8; 1]) -> u8
    ensures { found result seconds.new ≡ found_for (seconds_for ov_times code) seconds.old }
{
    firmware::bq769x0_ov_seconds(code, seconds)
}
