// What docs/DIFFERENCES.md lists and no job can ask for, function by function: each line bears its label there. A refusal is its number, and 0
// where there is none.
use crate::print::{refusal, rows};
use crate::{adc, config};
use adc::counter;
use job::seconds::{ov_seconds, uv_seconds};
use plan::{Steps, six_bytes};
use protection::Threshold;
use protection::delays::OVDelay;
use protection::ocd::OCDThreshold;
use protection::range::OCDSCDRange;
use protection::scd::SCDThreshold;
use std::io;
use units::flags::SysStat;
use units::{Amperes, MicroOhms, MilliVolts};

fn ocd(amperes: u32, shunt: u32) -> u8 {
    refusal(OCDThreshold::from_current(Amperes(amperes), MicroOhms(shunt)))
}

fn steps(rt: &impl Print) -> io::Result<()> {
    let scd = refusal(SCDThreshold::from_current(Amperes(65536), MicroOhms(65536)));
    rows(
        rt,
        &[
            ("D2 OCD 256 A at 1000 uOhm: refused", ocd(256, 1000), 13),
            ("D3 SCD 65536 A at 65536 uOhm: refused", scd, 13),
            (
                "D3 OCD 65536 A at 65536 uOhm: refused",
                ocd(65536, 65536),
                13,
            ),
        ],
    )
}

fn codes(rt: &impl Print) -> io::Result<()> {
    let unknown = OCDSCDRange::Unknown;
    let scd = refusal(SCDThreshold::_22mV.bits(unknown));
    let ocd = refusal(OCDThreshold::_8mV.bits(unknown));
    let range = refusal(unknown.bits());
    rows(
        rt,
        &[
            ("D4 code of SCD 22 mV for range Unknown: refused", scd, 20),
            ("D5 code of OCD 8 mV for range Unknown: refused", ocd, 20),
            ("D6 bit of range Unknown: refused", range, 20),
        ],
    )
}

fn current(high: u8, low: u8, shunt: u32) -> u8 {
    refusal(counter::current(numbers::be_i16(high, low), MicroOhms(shunt)))
}

fn currents(rt: &impl Print) -> io::Result<()> {
    let none = current(0x00, 0x01, 0);
    let large = current(0x00, 0x01, 2147483648);
    let lowest = current(0x80, 0x00, 4018405376);
    rows(
        rt,
        &[
            ("D7 counter 1, shunt 0: refused", none, 12),
            ("D8 counter 1, shunt 2147483648: refused", large, 12),
            ("D8 counter 8000, shunt 4018405376: refused", lowest, 12),
        ],
    )
}

fn planned(gain: u16, shunt: u32) -> u8 {
    let steps = Steps {
        scd: SCDThreshold::_56mV,
        ocd: OCDThreshold::_22mV,
    };
    let config = config(shunt, 50, 20, 2800, 4200);
    refusal(six_bytes::plan(adc(gain, 0), config, steps))
}

fn plans(rt: &impl Print) -> io::Result<()> {
    let asked = refusal(adc(0, 0).asked_reading(MilliVolts(2800)));
    rows(
        rt,
        &[
            ("D9 reading asked for 2800 mV at gain 0: refused", asked, 9),
            ("D9 plan at gain 0: refused", planned(0, 1000), 9),
            ("D10 plan with shunt 0: refused", planned(365, 0), 12),
        ],
    )
}

fn millivolts(rt: &impl Print) -> io::Result<()> {
    let scd = SCDThreshold::_200mV.mv();
    let ocd = OCDThreshold::_100mV.mv();
    rows(
        rt,
        &[
            ("D35 SCD step 200 mV: mV", scd, 200),
            ("D35 OCD step 100 mV: mV", ocd, 100),
        ],
    )
}

fn readings(rt: &impl Print) -> io::Result<()> {
    let wide = adc(65535, 0).apply(0xFFFF).0;
    let low = adc(365, -1).apply(0).0;
    rows(
        rt,
        &[
            ("D38 reading FFFF, gain 65535: mV", wide, 4294836),
            ("D38 reading 0, gain 365, offset -1: mV", low, -1),
        ],
    )
}

fn flags(rt: &impl Print) -> io::Result<()> {
    let both = SysStat::CC_READY.union(SysStat::OVERCURRENT);
    let set = SysStat { bits: 0x40 };
    rows(
        rt,
        &[
            ("D39 CC_READY and OVERCURRENT in one set", both.bits(), 0x81),
            ("D39 the set of bit 6", set.bits(), 0x40),
        ],
    )
}

fn packs(rt: &impl Print) -> io::Result<()> {
    let high = adc(365, 1);
    rows(
        rt,
        &[
            (
                "D54 pack of 3 cells, reading 0, offset 1: mV (5 before)",
                high.pack_voltage(3, 0).0,
                3,
            ),
            ("D54 the same of 5 cells: mV", high.pack_voltage(5, 0).0, 5),
        ],
    )
}

fn delays(rt: &impl Print) -> io::Result<()> {
    rows(
        rt,
        &[
            ("D53 OV delay of 1 s: bits", OVDelay::_1s.bits(), 0x00),
            ("D53 OV delay of 2 s: bits", OVDelay::_2s.bits(), 0x10),
            (
                "D53 OV delay of 4 s: bits (16 before)",
                OVDelay::_4s.bits(),
                0x20,
            ),
            (
                "D53 OV delay of 8 s: bits (32 before)",
                OVDelay::_8s.bits(),
                0x30,
            ),
        ],
    )
}

// The seconds of a code, or the refusal's number.
fn delay_seconds(rt: &impl Print) -> io::Result<()> {
    let ov = |code| ov_seconds(code).unwrap_or_else(|e| e.number());
    let uv = |code| uv_seconds(code).unwrap_or_else(|e| e.number());
    rows(
        rt,
        &[
            ("D53 OV delay of code 1: s (4 before)", ov(1), 2),
            ("D79 OV delay of code 3: s", ov(3), 8),
            ("D79 UV delay of code 3: s", uv(3), 16),
            ("D79 UV delay of code 4: refused", uv(4), 15),
        ],
    )
}

pub(crate) fn functions(rt: &impl Print) -> io::Result<()> {
    steps(rt)?;
    codes(rt)?;
    currents(rt)?;
    plans(rt)?;
    millivolts(rt)?;
    readings(rt)?;
    flags(rt)?;
    packs(rt)?;
    delays(rt)?;
    delay_seconds(rt)
}
