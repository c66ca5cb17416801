// Demand 2: that a call sets what was asked, as its own log and tape show it.
// A function here is a call of the driver, under demand 2 for a contract in place of the call's own promise. Nothing calls it: it is there so that
// the demand is held to the code, on every input.
#![tactic(auto)]

ghost use Rattle.std.specs.Prelude.{◌^◌, ◌<◌};
ghost use lib.Signed.{mag};
ghost use Rattle.check_byte.specs.CheckByte.{Bytes};
ghost use Rattle.plan.specs.Plan.{as_init};
ghost use Rattle.bq769x0.specs.Record.{leaves};
ghost use Rattle.runs.specs.Calls.{lent_call};
ghost use Rattle.as_asked.specs.Seen.{Shows, StillLent};
ghost use Rattle.as_asked.specs.Init.{Demand2};
ghost use Rattle.as_asked.specs.OnChip.{SetOnEveryChip};
ghost use Rattle.as_asked.specs.Pack.{PackVoltage};
ghost use Rattle.as_asked.specs.Reading.{ExactlyRead};
ghost use Rattle.measuring.specs.Pack.{as_voltage};

use bq769x0::BQ769x0;
use bus::Bus;
use bus::link::Link;
use measuring::pack;
use plan::{CalculatedValues, Config};
use refusals::Error;
use units::MilliVolts;

mod registers;

// What a value's type says of it, where it stands behind a reference: a tape is of bytes.
fn of_bytes(tape: &[u8])
    ensures { Bytes tape.now }
{}

// And an offset is of eight bits.
fn of_eight_bits(offset: i8)
    ensures { mag offset < 2 ^ 7 }
{}

fn init(device: &mut BQ769x0, config: Config, bus: &mut Bus) -> Result<CalculatedValues, Error>
    ensures { Shows (Demand2 device.old.link config) bus (as_init result) }
{
    of_bytes(bus.tape);
    setup::init(device, config, bus)
}

// The same call, on the model chip.
fn init_on_chip(
    device: &mut BQ769x0,
    config: Config,
    bus: &mut Bus,
) -> Result<CalculatedValues, Error>
    ensures { SetOnEveryChip config device.old (lent_call bus (leaves (as_init result) device.new)) × StillLent bus }
{
    setup::init(device, config, bus)
}

#[tactic(auto, using(crate::proofs::Pack::voltage_shows))]
fn voltage(device: &BQ769x0, bus: &mut Bus) -> Result<MilliVolts, Error>
    ensures { Shows (PackVoltage device.now) bus (as_voltage result) }
{
    of_bytes(bus.tape);
    of_eight_bits(device.adc.offset);
    pack::voltage(device, bus)
}

fn read_raw(link: Link, reg_address: u8, data: &mut [u8], bus: &mut Bus) -> Result<(), Error>
    ensures { ExactlyRead link reg_address bus result «data».new × StillLent bus }
{
    raw::read_raw(link, reg_address, data, bus)
}
