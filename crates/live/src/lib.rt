// The calls that C has, made in passes on a live bus: each is the call, with what the passes of include/bq769x0_live.h stand on for a
// contract. Nothing calls them: they are there so that it is held to the code, on every input.
#![tactic(auto)]

ghost use Rattle.firmware.specs.Handed.{handed};
ghost use Rattle.firmware.specs.JobWired.{handed_both};
ghost use Rattle.live.specs.Passes.{InitLive, CellsLive, WiredLive, SetLive, GetLive};

fn init(job: &[u8], tape: &[u8], log: &mut [u8], out: &mut [u8; 36]) -> u8
    ensures { InitLive job.now tape.now log.old
        (handed result out.new log.new) }
{
    firmware::bq769x0_init(job, tape, log, out)
}

fn init_cells(job: &[u8], tape: &[u8], log: &mut [u8], list: &mut [u8], out: &mut [u8; 36]) -> u8
    ensures { CellsLive job.now list.old tape.now log.old
        (record { handed = handed result out.new log.new; list = list.new }) }
{
    firmware::bq769x0_init_cells(job, tape, log, list, out)
}

fn init_wired(
    job: &[u8],
    tape: &[u8],
    log: &mut [u8],
    inputs: &mut [u8],
    list: &mut [u8],
    spread: &mut [u8; 12],
    out: &mut [u8; 36],
) -> u8
    ensures { WiredLive job.now inputs.old list.old spread.old tape.now
        log.old
        (handed_both (handed result out.new log.new) inputs.new list.new spread.new) }
{
    firmware::bq769x0_init_wired(job, tape, log, inputs, list, spread, out)
}

fn balance_set(
    device: &[u8],
    set: u16,
    limit: u8,
    tape: &[u8],
    log: &mut [u8],
    out: &mut [u8; 36],
) -> u8
    ensures { SetLive device.now set limit tape.now log.old
        (handed result out.new log.new) }
{
    firmware::bq769x0_balance_set(device, set, limit, tape, log, out)
}

fn balance_get(device: &[u8], tape: &[u8], log: &mut [u8], out: &mut [u8; 36]) -> u8
    ensures { GetLive device.now tape.now log.old
        (handed result out.new log.new) }
{
    firmware::bq769x0_balance_get(device, tape, log, out)
}
