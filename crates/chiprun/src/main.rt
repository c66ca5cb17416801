// Reads a device, registers, cuts and calls from standard input. Makes the calls in turn on the model chip, prints what callrun prints of them, and
// last the tape that the chip's answers make up.
#![tactic(auto)]

ghost use Rattle.std.specs.Prelude.{◌≤◌, length};

use bench::Bench;
use bq769x0::BQ769x0;
use bus::Bus;
use call_text::{Prints, refusing};
use chip::Chip;
use lines::refused;
use std::io;
use text::Hex;

mod bench;
mod front;

// As many bytes of job and tape as callrun reads.
const SIZE: usize = 32768;

fn main(rt: HostRuntime) -> io::Result<()> {
    let mut input = [0; SIZE];
    let n = text::read_full(&mut rt.stdin(), &mut input)?;
    print(&rt, &mut input[..n])
}

// 15, then 9, 10, 11, then the calls.
fn print(rt: &(impl Print + Eprint), input: &mut [u8]) -> io::Result<()> {
    let device = match job::parse_device(input) {
        Ok(device) => device,
        Err(e) => return refused::in_job(rt, e, input, 0, 0x20),
    };
    let mut chip = Chip::make(device.address, device.check);
    let mut cuts = [None; bench::MOST];
    match front::read(input, &mut chip, &mut cuts) {
        Ok(calls_at) => with_calls(rt, input, calls_at, chip, &cuts),
        Err(at) => refusing::field_at(rt, input, at),
    }
}

// Field 20 and the calls, and nothing behind them.
fn with_calls(
    rt: &(impl Print + Eprint),
    input: &mut [u8],
    calls_at: usize,
    chip: Chip,
    cuts: &[Option<u16>],
) -> io::Result<()>
    requires { (7 ≤ calls_at) × (calls_at ≤ length input.old) }
{
    // Field 20 right ahead of the calls: from there on the input is a job of callrun's.
    let job_at = calls_at - calls::CALLS_AT;
    input.copy_within(..calls::CALLS_AT, job_at);
    let job = &input[job_at..];
    let Ok(heading) = calls::head(job) else {
        return refusing::calls(rt, input, calls_at);
    };
    if heading.tape_at != job.len() {
        return refusing::field_at(rt, input, job_at.wrapping_add(heading.tape_at));
    }
    let asked = heading.device;
    let made = BQ769x0::new(asked.x, asked.address, asked.cells, asked.check);
    if let Err(e) = made.answer {
        return refused::in_job(rt, e, input, 0, 0x20);
    }
    run(
        rt,
        Bench {
            job,
            device: made.device,
            chip,
            cuts,
        },
    )
}

fn run(rt: &(impl Print + Eprint), bench: Bench) -> io::Result<()> {
    let mut tape = [0; SIZE];
    let mut log = [0; 65536];
    let job = bench.job;
    let mut device = bench.device;
    let end = bench.run(rt, &mut tape, &mut log)?;
    let tape = tape.get(..end).unwrap_or(&[]);
    let bus = &mut Bus::new(tape, &mut log);
    call_text::print(rt, job, Prints::Answers, &mut device, bus)?;
    println!(rt; "tape{}", Hex(tape))
}
