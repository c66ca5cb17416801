// Reads one job with its tape from standard input, sets up by it, and prints the transfers made and the answer.
#![tactic(auto)]

use bq769x0::BQ769x0;
use bus::{Bus, Cursor};
use lines::refused;
use lines::refused::Want;
use refusals::Error;
use std::io;

const START: Cursor = Cursor { tape: 0, log: 0 };

fn main(rt: HostRuntime) -> io::Result<()> {
    let mut input = [0; 32768];
    let n = text::read_full(&mut rt.stdin(), &mut input)?;
    print(&rt, &input[..n])
}

// What an init leaves in the record is not shown, nor what it was before.
fn no_device() -> BQ769x0 {
    BQ769x0::new(0, 0, 0, false).device
}

// The tape is what follows the job's two fields.
fn print(rt: &(impl Print + Eprint), job: &[u8]) -> io::Result<()> {
    let tape = job.get(job::TAPE_AT..).unwrap_or(&[]);
    let mut log = [0; 256];
    let mut bus = Bus::new(tape, &mut log);
    let answer = job_setup::init(job, &mut no_device(), &mut bus);
    let to = bus.at;
    lines::transfers(rt, &log, START, to)?;
    match answer {
        Ok(values) => lines::init(rt, values),
        Err(e) => refuse(rt, e, job, tape, to),
    }
}

fn refuse(
    rt: &(impl Print + Eprint),
    e: Error,
    job: &[u8],
    tape: &[u8],
    to: Cursor,
) -> io::Result<()> {
    if job::parse_device(job).is_err() {
        return refused::in_job(rt, e, job, 0, 0x20);
    }
    if job::parse(job).is_err() {
        return refused::in_job(rt, e, job, 7, 0x21);
    }
    match e {
        Error::BadDevice | Error::BadCellCount | Error::BadAddress => {
            refused::in_job(rt, e, job, 0, 0x20)
        }
        Error::BadTape | Error::TapeEnded => wants(rt, e, job, tape, to),
        _ => refused::at_call(rt, e, 1),
    }
}

fn wants(
    rt: &(impl Print + Eprint),
    e: Error,
    job: &[u8],
    tape: &[u8],
    to: Cursor,
) -> io::Result<()> {
    let want = Want {
        tape,
        from: START,
        to,
    };
    let again = want.again();
    let mut log = [0; 256];
    job_setup::init(job, &mut no_device(), &mut Bus::new(&again, &mut log)).ok();
    want.print(rt, e, 1, &log)
}
