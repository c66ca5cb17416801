// The record: made by `new`, changed by the setters below, and sound or not.
ghost use Rattle.std.specs.Prelude.{◌≡◌, false};
ghost use Rattle.bq769x0.specs.Record.{unread, of_parts, head_of, with_head, fresh, device_allowed, as_made, as_new, new_for};
ghost use Rattle.bq769x0.specs.Record.{leaves, calibrated_right, marked_right, is_sound, soundness, with_calibration, with_shunt, with_readings};
ghost use Rattle.bq769x0.specs.declared.Readings.{Readings};

use crate::{BQ769x0, Head, Readings, Spread};
use adc::transfer::AdcTransferFunction;
use bus::link::Link;
use refusals::Error;
use units::{MicroOhms, MilliVolts};

// A refused device has size 0, so that every call on it is refused too.
#[derive(Clone, Copy)]
pub struct New {
    pub answer: Result<(), Error>,
    pub device: BQ769x0,
}

// The same, without readings.
#[derive(Clone, Copy)]
pub struct NewHead {
    pub answer: Result<(), Error>,
    pub head: Head,
}

impl BQ769x0 {
    pub const BQ76920: u8 = sizes::BQ76920;

    pub const BQ76930: u8 = sizes::BQ76930;

    pub const BQ76940: u8 = sizes::BQ76940;

    pub const SYS_CTRL2: u8 = 0x05;

    pub const PROTECT1: u8 = 0x06;

    pub const ADCGAIN1: u8 = 0x50;

    pub fn new(x: u8, dev_address: u8, cell_count: u8, check: bool) -> New
        ensures { as_new result ≡ new_for x dev_address cell_count check }
    {
        let made = Head::new(x, dev_address, cell_count, check);
        New {
            answer: made.answer,
            device: BQ769x0::of_head(made.head),
        }
    }

    // A record of these parts, sound or not, of which nothing is read yet: for benches.
    pub fn of_parts(
        link: Link,
        cell_count: u8,
        adc: AdcTransferFunction,
        shunt: MicroOhms,
        init_complete: bool,
    ) -> BQ769x0
        ensures { result ≡ of_parts link cell_count adc shunt init_complete }
    {
        BQ769x0::of_head(Head {
            link,
            cell_count,
            adc,
            shunt,
            init_complete,
        })
    }

    // A record of this head, of which nothing is read yet.
    pub fn of_head(head: Head) -> BQ769x0
        ensures { result ≡ with_head head unread }
    {
        BQ769x0 {
            link: head.link,
            cell_count: head.cell_count,
            adc: head.adc,
            shunt: head.shunt,
            init_complete: head.init_complete,
            readings: Readings::unread(),
        }
    }

    pub fn head(&self) -> Head
        ensures { result ≡ head_of self.now }
    {
        Head {
            link: self.link,
            cell_count: self.cell_count,
            adc: self.adc,
            shunt: self.shunt,
            init_complete: self.init_complete,
        }
    }

    // The record of this head, with its own readings.
    pub fn set_head(&mut self, head: Head)
        ensures { self.new ≡ with_head head self.old.readings }
    {
        self.link = head.link;
        self.cell_count = head.cell_count;
        self.adc = head.adc;
        self.shunt = head.shunt;
        self.init_complete = head.init_complete;
    }

    pub fn adc_gain(&self) -> u16
        ensures { result ≡ self.now.adc.gain }
    {
        self.adc.gain
    }

    pub fn adc_offset(&self) -> i8
        ensures { result ≡ self.now.adc.offset }
    {
        self.adc.offset
    }

    pub fn is_initialized(&self) -> bool
        ensures { result ≡ self.now.init_complete }
    {
        self.init_complete
    }

    // Of the pack's cells, as they were read last.
    pub fn spread(&self) -> Spread
        ensures { result ≡ self.now.readings.spread }
    {
        self.readings.spread
    }

    #[tactic(auto, unfolding(crate::specs::Record::is_sound))]
    pub fn is_sound(&self) -> bool
        ensures { result ≡ is_sound self.now }
    {
        check_device(self.link.x, self.link.address, self.cell_count).is_ok()
            && self.is_calibrated_right()
            && self.shunt.0 <= 2_147_483_647
            && self.is_marked_right()
    }

    // 9 where it is not sound: a call's first step.
    #[inline(always)]
    pub fn sound(&self) -> Result<(), Error>
        ensures { result ≡ soundness self.now }
    {
        if !self.is_sound() {
            return Err(Error::BadDevice);
        }
        Ok(())
    }

    fn is_calibrated_right(&self) -> bool
        ensures { result ≡ calibrated_right self.now }
    {
        let gain = self.adc.gain;
        (365 <= gain && gain <= 396) || (gain == 0 && self.adc.offset == 0)
    }

    fn is_marked_right(&self) -> bool
        ensures { result ≡ marked_right self.now }
    {
        if self.init_complete {
            self.shunt.0 != 0 && self.adc.gain != 0
        } else {
            self.shunt.0 == 0
        }
    }

    pub fn store_calibration(&mut self, adc: AdcTransferFunction)
        ensures { self.new ≡ with_calibration self.old adc }
    {
        self.adc = adc;
    }

    // Soundness does not speak of the readings.
    pub fn store_readings(&mut self, readings: Readings)
        ensures { self.new ≡ with_readings self.old readings }
    {
        self.readings = readings;
    }
}

// What setting up makes and changes.
impl Head {
    #[tactic(auto, unfolding(crate::specs::Record::new_for))]
    pub fn new(x: u8, dev_address: u8, cell_count: u8, check: bool) -> NewHead
        ensures { leaves (as_made result.answer) (with_head result.head unread) ≡ new_for x dev_address cell_count check }
    {
        let answer = check_device(x, dev_address, cell_count);
        NewHead {
            answer,
            head: match answer {
                Ok(()) => fresh(x, dev_address, cell_count, check),
                Err(_) => Head::none(),
            },
        }
    }

    // No device: one of size 0, on which every call is refused.
    pub fn none() -> Head
        ensures { with_head result unread ≡ fresh 0 0 0 false }
    {
        fresh(0, 0, 0, false)
    }

    pub fn store_calibration(&mut self, adc: AdcTransferFunction)
        ensures { (readings : Readings) → with_head self.new readings ≡ with_calibration (with_head self.old readings) adc }
    {
        self.adc = adc;
    }

    pub fn store_shunt(&mut self, shunt: MicroOhms)
        ensures { (readings : Readings) → with_head self.new readings ≡ with_shunt (with_head self.old readings) shunt }
    {
        self.shunt = shunt;
        self.init_complete = true;
    }
}

impl Readings {
    // Nothing read yet.
    fn unread() -> Readings
        ensures { result ≡ unread }
    {
        Readings {
            cells: [MilliVolts(0); 15],
            wired: [MilliVolts(0); 15],
            spread: Spread {
                sum: MilliVolts(0),
                lowest: MilliVolts(0),
                highest: MilliVolts(0),
            },
        }
    }
}

// 9, 10, 11.
#[tactic(auto, unfolding(crate::specs::Record::device_allowed))]
fn check_device(x: u8, dev_address: u8, cell_count: u8) -> Result<(), Error>
    ensures { as_made result ≡ device_allowed x dev_address cell_count }
{
    wiring::questions::allowed(x, cell_count)?;
    if 127 < dev_address {
        return Err(Error::BadAddress);
    }
    Ok(())
}

fn fresh(x: u8, dev_address: u8, cell_count: u8, check: bool) -> Head
    ensures { with_head result unread ≡ fresh x dev_address cell_count check }
{
    Head {
        link: Link {
            address: dev_address,
            check,
            x,
        },
        cell_count,
        adc: AdcTransferFunction { gain: 0, offset: 0 },
        shunt: MicroOhms(0),
        init_complete: false,
    }
}
