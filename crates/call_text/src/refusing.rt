// A job that is refused, and a call.
use crate::making;
use crate::making::{Call, Lent};
use bq769x0::BQ769x0;
use bus::Bus;
use lines::refused;
use lines::refused::Want;
use refusals::Error;
use std::io;

// A job whose head is none, by where its field 20 and its calls should begin.
pub fn job(
    rt: &(impl Print + Eprint),
    input: &[u8],
    device_at: usize,
    calls_at: usize,
) -> io::Result<()> {
    match job::parse_device(input.get(device_at..).unwrap_or(&[])) {
        Ok(_) => calls(rt, input, calls_at),
        Err(e) => refused::in_job(rt, e, input, device_at, 0x20),
    }
}

// The first field that is no call is at fault.
pub fn calls(rt: &(impl Print + Eprint), input: &[u8], calls_at: usize) -> io::Result<()> {
    field_at(rt, input, calls::past_calls(input, calls_at))
}

// The field at a place, or field 3F where the job ends there.
pub fn field_at(rt: &(impl Print + Eprint), input: &[u8], at: usize) -> io::Result<()> {
    let tag = input.get(at).copied().unwrap_or(calls::END);
    refused::in_job(rt, Error::BadTape, input, at, tag)
}

// A call on a record, as it was before the call.
pub(crate) fn call(
    rt: &(impl Print + Eprint),
    e: Error,
    call: Call,
    mut device: BQ769x0,
    want: Want,
) -> io::Result<()> {
    match e {
        Error::BadTape | Error::TapeEnded => {
            let again = want.again();
            let mut log = [0; 256];
            let bus = &mut Bus::new(&again, &mut log);
            making::make(call, &mut device, &mut Lent::fresh(), bus);
            want.print(rt, e, call.number, &log)
        }
        _ => refused::at_call(rt, e, call.number),
    }
}
