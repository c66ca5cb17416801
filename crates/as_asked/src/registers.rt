// The register commands.
ghost use Rattle.std.specs.Prelude.{[], ◌∷◌};
ghost use Rattle.bus.specs.Raw.{as_raw};
ghost use Rattle.commands.specs.Answers.{as_set};
ghost use Rattle.as_asked.specs.Seen.{Shows};
ghost use Rattle.as_asked.specs.Tables.{table01, table04, table05, with_dsg_on, with_chg_on, with_adc_en, with_temp_sel};
ghost use Rattle.as_asked.specs.Balancing.{SetAsAsked, SetAsRead};
ghost use Rattle.as_asked.specs.Commands.{Changes, Becomes, Resets, shut_down, flag, source_field, counter_fields};

use crate::of_bytes;
use bq769x0::BQ769x0;
use bus::Bus;
use commands::control::TemperatureSource;
use commands::counter::CoulombCounterMode;
use commands::{balancing, control, counter, ship, status, switches};
use refusals::Error;
use units::flags::SysStat;

#[tactic(auto, using(crate::proofs::Commands::discharge_shows))]
fn discharge(device: &BQ769x0, enable: bool, bus: &mut Bus) -> Result<(), Error>
    ensures { Shows (Changes table05 (with_dsg_on (flag enable)) device.now.link 0x05) bus (as_raw result) }
{
    of_bytes(bus.tape);
    switches::discharge(device, enable, bus)
}

#[tactic(auto, using(crate::proofs::Commands::charge_shows))]
fn charge(device: &BQ769x0, enable: bool, bus: &mut Bus) -> Result<(), Error>
    ensures { Shows (Changes table05 (with_chg_on (flag enable)) device.now.link 0x05) bus (as_raw result) }
{
    of_bytes(bus.tape);
    switches::charge(device, enable, bus)
}

#[tactic(auto, using(crate::proofs::Commands::mode_shows))]
fn coulomb_counter_mode(
    device: &BQ769x0,
    mode: CoulombCounterMode,
    bus: &mut Bus,
) -> Result<(), Error>
    ensures { Shows (Changes table05 (counter_fields mode) device.now.link 0x05) bus (as_raw result) }
{
    of_bytes(bus.tape);
    counter::coulomb_counter_mode(device, mode, bus)
}

#[tactic(auto, using(crate::proofs::Commands::adc_shows))]
fn enable_adc(device: &BQ769x0, enable: bool, bus: &mut Bus) -> Result<(), Error>
    ensures { Shows (Changes table04 (with_adc_en (flag enable)) device.now.link 0x04) bus (as_raw result) }
{
    of_bytes(bus.tape);
    control::enable_adc(device, enable, bus)
}

#[tactic(auto, using(crate::proofs::Commands::source_shows))]
fn set_temperature_source(
    device: &BQ769x0,
    source: TemperatureSource,
    bus: &mut Bus,
) -> Result<(), Error>
    ensures { Shows (Changes table04 (with_temp_sel (source_field source)) device.now.link 0x04) bus (as_raw result) }
{
    of_bytes(bus.tape);
    control::set_temperature_source(device, source, bus)
}

#[tactic(auto, using(crate::proofs::Commands::balancing_shows))]
fn enable_balancing(device: &BQ769x0, cells: u8, bus: &mut Bus) -> Result<(), Error>
    ensures { Shows (Becomes table01 (table01 cells ∷ []) device.now.link 0x01) bus (as_raw result) }
{
    of_bytes(bus.tape);
    balancing::enable_balancing(device, cells, bus)
}

fn balance_set(device: &BQ769x0, set: u16, limit: u8, bus: &mut Bus) -> Result<(), Error>
    ensures { Shows (λ seen. SetAsAsked device.now seen set limit) bus (as_raw result) }
{
    of_bytes(bus.tape);
    balancing::balance_set(device, set, limit, bus)
}

#[tactic(auto, using(crate::proofs::Balancing::get_shows))]
fn balance_get(device: &BQ769x0, bus: &mut Bus) -> Result<u16, Error>
    ensures { Shows (SetAsRead device.now) bus (as_set result) }
{
    of_bytes(bus.tape);
    balancing::balance_get(device, bus)
}

#[tactic(auto, using(crate::proofs::Commands::status_shows))]
fn sys_stat_reset(device: &BQ769x0, flags: SysStat, bus: &mut Bus) -> Result<(), Error>
    ensures { Shows (Resets flags.bits device.now.link) bus (as_raw result) }
{
    of_bytes(bus.tape);
    status::sys_stat_reset(device, flags, bus)
}

#[tactic(auto, using(crate::proofs::Commands::ship_shows))]
fn ship_enter(device: &BQ769x0, bus: &mut Bus) -> Result<(), Error>
    ensures { Shows (Becomes table04 shut_down device.now.link 0x04) bus (as_raw result) }
{
    of_bytes(bus.tape);
    ship::ship_enter(device, bus)
}
