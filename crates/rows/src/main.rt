// The rows of the scope's table, the check byte's published vectors, and lines of docs/DIFFERENCES.md: each is run, and printed with what it
// should be.
#![tactic(auto)]

mod beyond;
mod lists;
mod print;
mod records;

use crate::print::{refusal, rows};
use adc::counter;
use adc::transfer::AdcTransferFunction;
use check_byte::{check_byte, check_byte1};
use plan::{Config, Plan, six_bytes};
use protection::Threshold;
use protection::delays::{OCDDelay, OVDelay, SCDDelay, UVDelay};
use protection::scd::SCDThreshold;
use refusals::Error;
use std::io;
use units::{Amperes, MicroOhms, MilliVolts};

fn adc(gain: u16, offset: i8) -> AdcTransferFunction {
    AdcTransferFunction { gain, offset }
}

fn calibration(rt: &impl Print) -> io::Result<()> {
    let gain = AdcTransferFunction::from_registers(0x0C, 0x00, 0xE0).gain;
    rows(rt, &[("50=0C 59=E0: gain", gain, 396)])?;
    let offset = AdcTransferFunction::from_registers(0x00, 0x80, 0x00).offset;
    rows(rt, &[("51=80: offset", offset, -128)])
}

fn readings(rt: &impl Print) -> io::Result<()> {
    let adc = adc(365, -1);
    rows(
        rt,
        &[
            ("reading 1, gain 365, offset -1", adc.apply(1).0, 0),
            ("reading 0, same", adc.apply(0).0, -1),
        ],
    )
}

fn config(shunt: u32, scd: u32, ocd: u32, uv: i32, ov: i32) -> Config {
    Config {
        shunt: MicroOhms(shunt),
        scd_delay: SCDDelay::_200uS,
        scd_threshold: Amperes(scd),
        ocd_delay: OCDDelay::_320ms,
        ocd_threshold: Amperes(ocd),
        uv_delay: UVDelay::_4s,
        uv_threshold: MilliVolts(uv),
        ov_delay: OVDelay::_2s,
        ov_threshold: MilliVolts(ov),
    }
}

// Set up at 1000 uOhm on a chip of gain 365 and offset 0.
fn planned(scd: u32, ocd: u32, uv: i32, ov: i32) -> Result<Plan, Error> {
    let config = config(1000, scd, ocd, uv, ov);
    six_bytes::plan(adc(365, 0), config, config.steps()?)
}

// The six bytes, zero where the plan is refused.
fn bytes(planned: Result<Plan, Error>) -> [u8; 6] {
    planned.map_or([0; 6], |plan| plan.regs)
}

fn trip_codes(rt: &impl Print) -> io::Result<()> {
    for (name, asked, code, reported) in [
        ("UV 1495, gain 365, offset 0: code", 1495, 0xFF, 2984),
        ("UV 1496: code", 1496, 0x00, 1495),
        ("UV 2984: code", 2984, 0xFE, 2978),
    ] {
        let planned = planned(50, 20, asked, 4200);
        rows(rt, &[(name, bytes(planned)[4], code)])?;
        let came = planned.map_or(0, |plan| plan.values.uv_threshold.0);
        rows(rt, &[("  reported", came, reported)])?;
    }
    let code = |asked| bytes(planned(50, 20, 2800, asked))[3];
    rows(
        rt,
        &[
            ("OV 2993: code", code(2993), 0x00),
            ("OV 4482: code", code(4482), 0xFF),
        ],
    )
}

// Voltages that can't be had, and the limits that the refusal names.
fn unobtainable(rt: &impl Print) -> io::Result<()> {
    for (name, uv, ov, number, low, high) in [
        ("UV 1494: refused", 1494, 4200, 7, 1495, 2984),
        ("UV 2985: refused", 2985, 4200, 7, 1495, 2984),
        ("OV 2992: refused", 2800, 2992, 8, 2993, 4482),
        ("OV 4483: refused", 2800, 4483, 8, 2993, 4482),
    ] {
        let planned = planned(50, 20, uv, ov);
        rows(rt, &[(name, refusal(planned), number)])?;
        if let Err(e) = planned {
            let numbers = e.in_numbers();
            rows(
                rt,
                &[("  low", numbers.2, low), ("  high", numbers.3, high)],
            )?;
        }
    }
    Ok(())
}

fn current(rt: &impl Print) -> io::Result<()> {
    let said = counter::current(numbers::be_i16(0xFF, 0xFF), MicroOhms(1000));
    let flow = said.map_or(0, |current| current.0);
    rows(rt, &[("counter FFFF, 1000 uOhm: mA", flow, -8)])
}

// The SCD step for a current at 1000 uOhm, in millivolts, or the refusal's number.
fn scd(amperes: u32) -> u8 {
    SCDThreshold::from_current(Amperes(amperes), MicroOhms(1000)).map_or_else(
        |e| e.number(),
        |step| step.mv(),
    )
}

fn steps(rt: &impl Print) -> io::Result<()> {
    let set_up = |scd, ocd| refusal(planned(scd, ocd, 2800, 4200));
    let regs = bytes(planned(44, 44, 2800, 4200));
    rows(
        rt,
        &[
            ("SCD 255 A at 1000 uOhm: mV", scd(255), 200),
            ("D1 SCD 256 A: refused", scd(256), 13),
            ("SCD 256 A: set up: refused", set_up(256, 20), 13),
            ("OCD 256 A: set up: refused", set_up(50, 256), 13),
            ("SCD 100, OCD 55 A: refused", set_up(100, 55), 6),
            ("SCD 44, OCD 44 A: range", regs[0] / 128, 0),
            ("  SCD code", regs[0] % 8, 0x2),
            ("  OCD code", regs[1] % 16, 0xD),
        ],
    )
}

// The published table's entries and check value.
fn check_bytes(rt: &impl Print) -> io::Result<()> {
    let digits = check_byte(b"123456789");
    rows(
        rt,
        &[
            ("check byte of 01", check_byte1(0x01), 0x07),
            ("check byte of 80", check_byte1(0x80), 0x89),
            ("check byte of FF", check_byte1(0xFF), 0xF3),
            ("check byte of the text 123456789", digits, 0xF4),
            ("check byte of nothing", check_byte(b""), 0x00),
        ],
    )
}

fn main(rt: HostRuntime) -> io::Result<()> {
    calibration(&rt)?;
    readings(&rt)?;
    trip_codes(&rt)?;
    unobtainable(&rt)?;
    steps(&rt)?;
    current(&rt)?;
    lists::cells(&rt, 10, &[1, 2, 3, 5, 5, 6, 7, 10, 9, 10])?;
    lists::cells(&rt, 6, &[1, 2, 5, 4, 5, 6])?;
    check_bytes(&rt)?;
    beyond::functions(&rt)?;
    records::records(&rt)
}
