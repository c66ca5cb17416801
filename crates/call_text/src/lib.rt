// The calls of a bench job: each one's transfers and its answer printed, and the record last of all.
#![tactic(auto)]

use crate::making::{Call, Lent};
use bq769x0::BQ769x0;
use bus::Bus;
use lines::refused::Want;
use std::io;

mod making;
mod record;
pub mod refusing;
mod registers;
mod showing;

// What is printed of each call.
#[derive(Clone, Copy, PartialEq, Eq)]
pub enum Prints {
    Nothing,
    Answers,
    Lists, // the answers, and the lent lists whole
}

// The calls on a record and a bus, and what they leave.
pub fn print(
    rt: &(impl Print + Eprint),
    job: &[u8],
    prints: Prints,
    device: &mut BQ769x0,
    bus: &mut Bus,
) -> io::Result<()> {
    in_turn(rt, job, prints, device, bus)?;
    record::print(rt, device, bus.at)
}

// One record, one bus.
pub fn in_turn(
    rt: &(impl Print + Eprint),
    job: &[u8],
    prints: Prints,
    device: &mut BQ769x0,
    bus: &mut Bus,
) -> io::Result<()> {
    let mut at = calls::CALLS_AT;
    let mut number = 0;
    while let Ok(field) = calls::field_at(job, at) {
        if field.tag == calls::END {
            break;
        }
        at = field.start + field.len;
        number += 1;
        let call = Call {
            number,
            tag: field.tag,
            value: &job[field.start..at],
        };
        make(rt, call, prints, device, bus)?;
    }
    Ok(())
}

fn make(
    rt: &(impl Print + Eprint),
    call: Call,
    prints: Prints,
    device: &mut BQ769x0,
    bus: &mut Bus,
) -> io::Result<()> {
    let before = *device;
    let from = bus.at;
    let mut lent = Lent::fresh();
    let answer = making::make(call, device, &mut lent, bus);
    if prints == Prints::Nothing {
        return Ok(());
    }
    let to = bus.at;
    lines::transfers(rt, bus.log, from, to)?;
    match answer {
        None => {}
        Some(Ok(told)) => showing::answer(rt, told, &lent, device.cell_count as usize)?,
        Some(Err(e)) => {
            let want = Want {
                tape: bus.tape,
                from,
                to,
            };
            refusing::call(rt, e, call, before, want)?
        }
    }
    showing::lent(rt, call, &lent, prints == Prints::Lists)
}
