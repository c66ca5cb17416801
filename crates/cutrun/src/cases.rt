// The chips, the records and the calls.
use crate::bench::Start;
use crate::call::Call;
use bq769x0::BQ769x0;
use chip::Chip;
use plan::Config;
use protection::delays::{OCDDelay, OVDelay, SCDDelay, UVDelay};
use units::{Amperes, MicroOhms, MilliVolts};

// The scope's example but for these figures: the shunt in microohms, short circuit and overcurrent in A, undervoltage and overvoltage in mV.
fn with(shunt: u32, scd: u32, ocd: u32, uv: i32, ov: i32) -> Config {
    Config {
        shunt: MicroOhms(shunt),
        scd_delay: SCDDelay::_200uS,
        scd_threshold: Amperes(scd),
        ocd_delay: OCDDelay::_320ms,
        ocd_threshold: Amperes(ocd),
        uv_delay: UVDelay::_4s,
        uv_threshold: MilliVolts(uv),
        ov_delay: OVDelay::_2s,
        ov_threshold: MilliVolts(ov),
    }
}

fn example() -> Config {
    with(1000, 50, 20, 2800, 4200)
}

// Both steps in the upper range only.
fn upper() -> Config {
    Config {
        shunt: MicroOhms(2000),
        scd_delay: SCDDelay::_70uS,
        scd_threshold: Amperes(75),
        ocd_delay: OCDDelay::_1280ms,
        ocd_threshold: Amperes(30),
        uv_delay: UVDelay::_16s,
        uv_threshold: MilliVolts(2500),
        ov_delay: OVDelay::_4s,
        ov_threshold: MilliVolts(3650),
    }
}

// Either of these as the other call after a cut.
pub(crate) fn as_example() -> Call {
    Call::Init(example())
}

pub(crate) fn as_upper() -> Call {
    Call::Init(upper())
}

fn fresh(x: u8, address: u8, check: bool) -> BQ769x0 {
    BQ769x0::new(x, address, x, check).device
}

// As a record was made, where it is lost.
pub(crate) fn anew(device: BQ769x0) -> BQ769x0 {
    fresh(device.link.x, device.link.address, device.link.check)
}

pub(crate) fn all_zero(check: bool) -> Start {
    Start {
        chip: Chip::make(8, check),
        device: fresh(BQ769x0::BQ76920, 8, check),
        call: Call::Init(example()),
    }
}

// Register r holds FF less r, so that the gain is 394 and the offset -82; but 05 holds A3.
fn counted_down(check: bool) -> Chip {
    let mut chip = Chip::make(0x18, check);
    for register in 0..=255 {
        chip.set(register, 255 - register);
    }
    chip.set(BQ769x0::SYS_CTRL2, 0xA3);
    chip
}

pub(crate) fn not_zero(check: bool) -> Start {
    Start {
        chip: counted_down(check),
        device: fresh(BQ769x0::BQ76930, 0x18, check),
        call: Call::Init(upper()),
    }
}

// Set up as the example before.
pub(crate) fn set_up(check: bool, config: Config) -> Start {
    let first = Start {
        chip: Chip::make(8, check),
        device: fresh(BQ769x0::BQ76940, 8, check),
        call: Call::Init(example()),
    };
    first.run(None).left(Call::Init(config))
}

pub(crate) fn again(check: bool) -> Start {
    set_up(check, upper())
}

// In turn by 6 (no range has both steps), 7 and 8 after both reads of the calibration, and by 12 and 13 with no transfer.
pub(crate) fn refused_inits() -> [Config; 5] {
    [
        with(1000, 22, 100, 2800, 4200),
        with(1000, 50, 20, 1000, 4200),
        with(1000, 50, 20, 2800, 4483),
        with(0, 50, 20, 2800, 4200),
        with(1000, 1000, 20, 2800, 4200),
    ]
}

// ---- sets of inputs, on a chip that was set up, and has other inputs on and in 01 to 03 bits that are no input's

pub(crate) fn with_others_on(x: u8, check: bool, call: Call) -> Start {
    let first = Start {
        chip: counted_down(check),
        device: fresh(x, 0x18, check),
        call: Call::Init(upper()),
    };
    first.run(None).left(call)
}

// The most that a device of x inputs can have on together.
fn most(x: u8) -> u16 {
    match x {
        BQ769x0::BQ76920 => 0b10101,
        BQ769x0::BQ76930 => 0b10101_10101,
        _ => 0b10101_10101_10101,
    }
}

pub(crate) fn set(x: u8, check: bool) -> Start {
    with_others_on(x, check, Call::Set(most(x), 9))
}

// The second input, as the other set after a cut.
pub(crate) fn second() -> Call {
    Call::Set(0b00010, 1)
}

// In turn by 22, 23 and 24, with no transfer.
pub(crate) fn refused_sets() -> [Call; 3] {
    [
        Call::Set(0b1_00000_00000, 9),
        Call::Set(0b11000, 9),
        Call::Set(0b00001_00001, 1),
    ]
}

// Input 6 is on, and input 1 is to be instead, with a limit of 1.
pub(crate) fn six_then_one(check: bool) -> Start {
    let mut chip = Chip::make(8, check);
    chip.set(0x02, 0b00001);
    Start {
        chip,
        device: fresh(BQ769x0::BQ76930, 8, check),
        call: Call::Set(0b00001, 1),
    }
}
