// A refusal's line; and on standard error, for a person, its name and where it went wrong.
use crate::log_fields;
use crate::log_fields::{Held, Transfer};
use bus::Cursor;
use refusals::Error;
use std::io;

// Its number, and as many of the two figures as it names.
fn line(rt: &impl Print, e: Error) -> io::Result<()> {
    let numbers = e.in_numbers();
    match numbers.1 {
        0 => println!(rt; "refused {}", numbers.0),
        1 => println!(rt; "refused {} {}", numbers.0, numbers.2),
        _ => println!(rt; "refused {} {} {}", numbers.0, numbers.2, numbers.3),
    }
}

// In the job: the field at fault, of this tag, begins at byte `at`, or should begin there.
pub fn in_job(
    rt: &(impl Print + Eprint),
    e: Error,
    job: &[u8],
    at: usize,
    tag: u8,
) -> io::Result<()> {
    line(rt, e)?;
    let no = if job.get(at) == Some(&tag) { "" } else { "no " };
    eprintln!(rt; "{e}: in the job, {no}field {tag:02X} at byte {at}")
}

// At a call; they are counted from 1.
pub fn at_call(rt: &(impl Print + Eprint), e: Error, call: usize) -> io::Result<()> {
    line(rt, e)?;
    eprintln!(rt; "{e}: call {call}")
}

// A call that was refused for want of tape: the tape, where the call began on tape and log, and where it ended.
#[derive(Clone, Copy)]
pub struct Want<'a> {
    pub tape: &'a [u8],
    pub from: Cursor,
    pub to: Cursor,
}

impl Want<'_> {
    // What the call used of the tape, and a fault behind: made once more on this, it puts the transfer that it wants in its log.
    pub fn again(&self) -> [u8; 256] {
        let used = self.tape.get(self.from.tape..self.to.tape).unwrap_or(&[]);
        let mut again = [0; 256];
        for (byte, is) in again.iter_mut().zip(used.iter().chain(&[0x02])) {
            *byte = *is;
        }
        again
    }

    // With the log of the call that was made once more.
    pub fn print(
        self,
        rt: &(impl Print + Eprint),
        e: Error,
        call: usize,
        log: &[u8],
    ) -> io::Result<()> {
        let at = self.to.tape;
        let left = self.tape.get(at..).unwrap_or(&[]);
        let met = log
            .get(self.to.log.wrapping_sub(self.from.log)..)
            .unwrap_or(&[]);
        let wanted = log_fields::first(met).map_or(met, |parts| parts.0);
        line(rt, e)?;
        eprintln!(rt;
            "{e}: call {call} wants {}; byte {at} of the tape has{}",
            Transfer(wanted),
            Held(left)
        )
    }
}
