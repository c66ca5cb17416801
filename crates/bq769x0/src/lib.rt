// The driver's record.
#![tactic(auto)]

use adc::transfer::AdcTransferFunction;
use bus::link::Link;
use units::{MicroOhms, MilliVolts};

pub mod record;

#[derive(Clone, Copy, PartialEq, Eq)]
pub struct BQ769x0 {
    pub link: Link,
    pub cell_count: u8,
    pub adc: AdcTransferFunction,
    pub shunt: MicroOhms,
    pub init_complete: bool,
    pub readings: Readings,
}

// A record without its readings.
#[derive(Clone, Copy)]
pub struct Head {
    pub link: Link,
    pub cell_count: u8,
    pub adc: AdcTransferFunction,
    pub shunt: MicroOhms,
    pub init_complete: bool,
}

// What the last accepted reading gave: the cells by the crate's list and by the wiring, and the figures of the wired ones.
#[derive(Clone, Copy, PartialEq, Eq)]
pub struct Readings {
    pub cells: [MilliVolts; 15],
    pub wired: [MilliVolts; 15],
    pub spread: Spread,
}

#[derive(Clone, Copy, PartialEq, Eq)]
pub struct Spread {
    pub sum: MilliVolts,
    pub lowest: MilliVolts,
    pub highest: MilliVolts,
}
