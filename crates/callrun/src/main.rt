// Reads a device, calls and their tape from standard input, makes the calls in turn, and prints each one's transfers and answer, and the record.
#![tactic(auto)]

use bq769x0::BQ769x0;
use bus::Bus;
use call_text::{Prints, refusing};
use calls::Heading;
use std::io;

fn main(rt: HostRuntime) -> io::Result<()> {
    let mut input = [0; 32768];
    let n = text::read_full(&mut rt.stdin(), &mut input)?;
    print(&rt, &input[..n])
}

// 15, then 9, 10, 11, then the calls.
fn print(rt: &(impl Print + Eprint), job: &[u8]) -> io::Result<()> {
    match calls::head(job) {
        Ok(heading) => run(rt, job, heading),
        Err(_) => refusing::job(rt, job, 0, calls::CALLS_AT),
    }
}

fn run(rt: &(impl Print + Eprint), job: &[u8], heading: Heading) -> io::Result<()> {
    let asked = heading.device;
    let made = BQ769x0::new(asked.x, asked.address, asked.cells, asked.check);
    if let Err(e) = made.answer {
        return lines::refused::in_job(rt, e, job, 0, 0x20);
    }
    let mut device = made.device;
    let mut log = [0; 65536];
    let tape = job.get(heading.tape_at..).unwrap_or(&[]);
    let bus = &mut Bus::new(tape, &mut log);
    call_text::print(rt, job, Prints::Answers, &mut device, bus)
}
