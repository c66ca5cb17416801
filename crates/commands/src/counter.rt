// The coulomb counter's mode, bits 6 and 5 of register 05.
ghost use Rattle.bus.specs.Lent.{does};
ghost use Rattle.bus.specs.Raw.{as_raw};
ghost use Rattle.commands.specs.Commands.{coulomb_counter_mode};

use crate::register;
use bq769x0::BQ769x0;
use bus::Bus;
use refusals::Error;

// Each is its bits.
#[derive(Clone, Copy)]
pub enum CoulombCounterMode {
    Disabled = 0,
    OneShot = 0b0010_0000,
    Continuous = 0b0100_0000,
}

// By its number: 0 off, 1 once, any other always.
impl From<u8> for CoulombCounterMode {
    ghost use Rattle.std.specs.Prelude.{◌≡◌};
    ghost use Rattle.commands.specs.Codes.{mode_by};

    ghost from_gives = { λ code mode. mode ≡ mode_by code };

    fn from(code: u8) -> Self {
        match code {
            0 => CoulombCounterMode::Disabled,
            1 => CoulombCounterMode::OneShot,
            _ => CoulombCounterMode::Continuous,
        }
    }
}

pub fn coulomb_counter_mode(
    device: &BQ769x0,
    mode: CoulombCounterMode,
    bus: &mut Bus,
) -> Result<(), Error>
    ensures { does (coulomb_counter_mode device.now mode) bus (as_raw result) }
{
    register::change_bits(device, BQ769x0::SYS_CTRL2, 0b0110_0000, mode as u8, bus)
}
