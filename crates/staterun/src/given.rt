// A job behind field 1E, which gives what `new` would not: 88 bytes, numbers high byte first. Initialised mark, gain, offset, shunt, the fifteen
// cells, the log's size, the tape's and the log's position. X, count, address and check are those of field 20. Ahead of it may stand field 1D, 72 bytes:
// the fifteen wired cells, and their sum, lowest and highest; without it they are zero.
ghost use Rattle.std.specs.Prelude.{◌≡◌, ◌+◌, ◌≤◌, length};

use adc::transfer::AdcTransferFunction;
use bq769x0::{BQ769x0, Readings, Spread};
use bus::link::Link;
use bus::{Bus, Cursor};
use call_text::{Prints, refusing};
use job::Device;
use refusals::Error;
use std::{array, io};
use units::{MicroOhms, MilliVolts};

// As long as fields 1D and 1E are with their tags and lengths.
const WIRED: usize = 75;

const GIVEN: usize = 91;

// The number in four bytes from `at` on.
fn four(value: &[u8], at: usize) -> u32
    requires { at + 4 ≤ length value.now }
{
    numbers::be_u32(value[at], value[at + 1], value[at + 2], value[at + 3])
}

fn eight(value: &[u8], at: usize) -> usize
    requires { at + 8 ≤ length value.now }
{
    numbers::be_u64(four(value, at), four(value, at + 4)) as usize
}

fn millivolts(value: &[u8], at: usize) -> MilliVolts
    requires { at + 4 ≤ length value.now }
{
    MilliVolts(numbers::as_i32(four(value, at)))
}

// Fifteen cells, from `at` on.
fn cells(value: &[u8], at: usize) -> [MilliVolts; 15]
    requires { at + 60 ≤ length value.now }
{
    array::from_fn(|i| millivolts(value, at + 4 * i))
}

// The wired cells and their figures of field 1D's value.
fn wired_of(value: &[u8]) -> ([MilliVolts; 15], Spread)
    requires { length value.now ≡ 72 }
{
    let spread = Spread {
        sum: millivolts(value, 60),
        lowest: millivolts(value, 64),
        highest: millivolts(value, 68),
    };
    (cells(value, 0), spread)
}

// The record of a device, of field 1E's value and field 1D's.
fn device_of(asked: Device, value: &[u8], wired: &[u8]) -> BQ769x0
    requires { (length value.now ≡ 88) × (length wired.now ≡ 72) }
{
    let (wired, spread) = wired_of(wired);
    BQ769x0 {
        link: Link {
            address: asked.address,
            check: asked.check,
            x: asked.x,
        },
        cell_count: asked.cells,
        adc: AdcTransferFunction {
            gain: numbers::be_u16(value[1], value[2]),
            offset: numbers::as_i8(value[3]),
        },
        shunt: MicroOhms(four(value, 4)),
        init_complete: value[0] == 1,
        readings: Readings {
            cells: cells(value, 8),
            wired,
            spread,
        },
    }
}

// For a field of this tag, which should begin at `at`.
fn refused(rt: &(impl Print + Eprint), input: &[u8], at: usize, tag: u8) -> io::Result<()> {
    lines::refused::in_job(rt, Error::BadTape, input, at, tag)
}

// 15, then the calls, whatever the record.
pub(crate) fn print(rt: &(impl Print + Eprint), input: &[u8]) -> io::Result<()> {
    match input {
        [0x1D, 0, 72, ..] if WIRED <= input.len() => given(rt, input, WIRED, &input[3..WIRED]),
        [0x1D, ..] => refused(rt, input, 0, 0x1D),
        _ => given(rt, input, 0, &[0; 72]),
    }
}

// Field 1E from `at` on, with a mark of 0 or 1, and the job behind it.
fn given(rt: &(impl Print + Eprint), input: &[u8], at: usize, wired: &[u8]) -> io::Result<()>
    requires { (at ≤ length input.now) × (length wired.now ≡ 72) }
{
    let rest = &input[at..];
    match rest {
        [0x1E, 0, 88, 0 | 1, ..] if GIVEN <= rest.len() => {}
        _ => return refused(rt, input, at, 0x1E),
    }
    let job_at = at + GIVEN;
    let job = &input[job_at..];
    let Ok(heading) = calls::head(job) else {
        return refusing::job(rt, input, job_at, job_at + calls::CALLS_AT);
    };
    let value = &rest[3..GIVEN];
    // 15 where the log is asked too large; each byte of it is EE before.
    let mut log = [0xEE; 65536];
    let Some(log) = log.get_mut(..four(value, 68) as usize) else {
        return refused(rt, input, at, 0x1E);
    };
    let mut device = device_of(heading.device, value, wired);
    let tape = job.get(heading.tape_at..).unwrap_or(&[]);
    let mut bus = Bus {
        tape,
        log,
        at: Cursor {
            tape: eight(value, 72),
            log: eight(value, 80),
        },
    };
    call_text::print(rt, job, Prints::Lists, &mut device, &mut bus)?;
    println!(rt; "log{}", text::Hex(bus.log))
}
