// The call of a field, made by its tag and value on a record and a bus.
use crate::registers;
use bq769x0::{BQ769x0, Spread};
use bus::Bus;
use cells::{crate_list, wired};
use commands::control::TemperatureSource;
use measuring::degrees::Temperature;
use measuring::{pack, temperature};
use plan::CalculatedValues;
use refusals::Error;
use units::flags::Stat;
use units::{MilliAmperes, MilliVolts};
use wiring::questions;

// A call field, and which of the job's it is, from 1.
#[derive(Clone, Copy)]
pub(crate) struct Call<'a> {
    pub number: usize,
    pub tag: u8,
    pub value: &'a [u8],
}

// What a call answered.
#[derive(Drop)]
pub(crate) enum Told {
    Done,
    Init(CalculatedValues),
    Cells,
    Wired,
    Current(MilliAmperes),
    Voltage(MilliVolts),
    Temperature(Temperature),
    Balancing(u8),
    Status(Stat),
    Charging(bool),
    Source(TemperatureSource),
    CellOn(u8),
    BalanceGet(u16),
    Spread(Spread),
}

// What a lent list of millivolts is full of: no reading gives it.
const UNREAD: i32 = 2_147_483_647;

// What is lent to a call, as far as its value says.
#[derive(Drop)]
pub(crate) struct Lent {
    pub inputs: [u8; 255],
    pub list: [i32; 255],
    pub data: [u8; 512],
}

impl Lent {
    // As before anything is stored in it.
    pub(crate) fn fresh() -> Lent {
        Lent {
            inputs: [255; 255],
            list: [UNREAD; 255],
            data: [0xAA; 512],
        }
    }
}

// None where no call has the tag, or its value does not fit. A lent list is as long as the value says.
pub(crate) fn make(
    call: Call,
    device: &mut BQ769x0,
    lent: &mut Lent,
    bus: &mut Bus,
) -> Option<Result<Told, Error>> {
    Some(match (call.tag, call.value) {
        (0x21, value) => {
            let config = job::parse_config(value).ok()?;
            setup::init(device, config, bus).map(Told::Init)
        }
        (0x22, &[n]) => {
            let list = &mut lent.list[..n as usize];
            crate_list::cell_voltages(device, list, bus).map(|_| Told::Cells)
        }
        (0x23, _) => pack::current(device, bus).map(Told::Current),
        (0x24, _) => pack::voltage(device, bus).map(Told::Voltage),
        (0x25, _) => temperature::temperature(device, bus).map(Told::Temperature),
        (0x34, &[m, n]) => {
            let mut inputs = lent.inputs;
            let list = &mut lent.list[..n as usize];
            let answer = wired::wired(device, &mut inputs[..m as usize], list, bus);
            lent.inputs = inputs;
            answer.map(|_| Told::Wired)
        }
        (0x35, &[x, cells, input]) => questions::cell_on(x, cells, input).map(Told::CellOn),
        (0x38, _) => Ok(Told::Spread(device.spread())),
        _ => return registers::make(call, device, lent, bus),
    })
}
