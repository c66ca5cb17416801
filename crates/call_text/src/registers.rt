// The register commands, and registers read and written as they are.
use crate::making::{Call, Lent, Told};
use bq769x0::BQ769x0;
use bus::Bus;
use commands::control::TemperatureSource;
use commands::counter::CoulombCounterMode;
use commands::{balancing, by_record, control, counter, ship, status, switches};
use refusals::Error;
use units::flags::SysStat;

// None where no command has the tag, or its value does not fit.
pub(crate) fn make(
    call: Call,
    device: &BQ769x0,
    lent: &mut Lent,
    bus: &mut Bus,
) -> Option<Result<Told, Error>> {
    Some(match (call.tag, call.value) {
        (0x27, _) => balancing::balancing_state(device, bus).map(Told::Balancing),
        (0x28, _) => status::sys_stat(device, bus).map(Told::Status),
        (0x2C, _) => switches::is_charge_enabled(device, bus).map(Told::Charging),
        (0x30, _) => control::temperature_source(device, bus).map(Told::Source),
        (0x37, _) => balancing::balance_get(device, bus).map(Told::BalanceGet),
        // The buffer is as long as the value says.
        (0x32, &[register, high, low]) => {
            let data = lent.data.get_mut(..numbers::be_u16(high, low) as usize)?;
            by_record::read_raw(device, register, data, bus).map(|_| Told::Done)
        }
        _ => return set(call, device, bus).map(|answer| answer.map(|_| Told::Done)),
    })
}

// Of a command that answers no more than that it is done.
fn set(call: Call, device: &BQ769x0, bus: &mut Bus) -> Option<Result<(), Error>> {
    Some(match (call.tag, call.value) {
        (0x2D, _) => ship::ship_enter(device, bus),
        (0x26, &[cells]) => balancing::enable_balancing(device, cells, bus),
        (0x29, &[bits]) => status::sys_stat_reset(device, SysStat { bits }, bus),
        (0x2A, &[on]) => switches::discharge(device, on == 1, bus),
        (0x2B, &[on]) => switches::charge(device, on == 1, bus),
        (0x2E, &[on]) => control::enable_adc(device, on == 1, bus),
        (0x2F, &[code]) => control::set_temperature_source(
            device,
            TemperatureSource::from(code != 0),
            bus,
        ),
        (0x31, &[code]) => counter::coulomb_counter_mode(
            device,
            CoulombCounterMode::from(code),
            bus,
        ),
        (0x33, [register, data @ ..]) => by_record::write_raw(device, *register, data, bus),
        // A set of two bytes, and the limit.
        (0x36, &[high, low, limit]) => {
            balancing::balance_set(device, numbers::be_u16(high, low), limit, bus)
        }
        _ => return None,
    })
}
