// The register commands for the bench's C, each on a tape and a log that nothing is used of: as the calls of `bench_c` are.
#![tactic(auto)]

ghost use Rattle.std.specs.Prelude.{◌≡◌, []};
ghost use Rattle.bus.specs.Transfers.{start};
ghost use Rattle.bus.specs.Programs.{on_tape};
ghost use Rattle.bus.specs.Lent.{lent_bus};
ghost use Rattle.commands.specs.Commands.{enable_balancing, balancing_state, sys_stat, sys_stat_reset};
ghost use Rattle.commands.specs.Commands.{discharge, charge, is_charge_enabled, ship_enter};
ghost use Rattle.commands.specs.Commands.{enable_adc, set_temperature_source, temperature_source, coulomb_counter_mode};
ghost use Rattle.bench.specs.Calls.{record_by, nothing, itself, bits_of, bit_of, code_of, given, as_told};
ghost use Rattle.commands.specs.Codes.{source_by, mode_by};
ghost use Rattle.bench_commands.specs.Codes.{flags_by};

use bench::told;
use bus::Bus;
use commands::control::TemperatureSource;
use commands::counter::CoulombCounterMode;
use commands::{balancing, control, counter, ship, status, switches};
use units::flags::SysStat;

#[unsafe(no_mangle)]
pub extern "C" fn bench_enable_balancing(
    x: u8,
    cell_count: u8,
    address: u8,
    check: bool,
    gain: u16,
    b51: u8,
    shunt: u32,
    cells: u8,
    tape: &[u8],
    log: &mut [u8],
    out: &mut [usize; 3],
) -> u8
    ensures { given result out.new log.new []
        ≡ as_told nothing (on_tape (enable_balancing (record_by x cell_count address check gain b51 shunt) cells)
        (lent_bus tape log start)) }
{
    let device = bench::record_by(x, cell_count, address, check, gain, b51, shunt);
    let mut bus = Bus::new(tape, log);
    let answer = balancing::enable_balancing(&device, cells, &mut bus);
    told::tell(answer, bus.at, out)
}

#[unsafe(no_mangle)]
pub extern "C" fn bench_balancing_state(
    x: u8,
    cell_count: u8,
    address: u8,
    check: bool,
    gain: u16,
    b51: u8,
    shunt: u32,
    tape: &[u8],
    log: &mut [u8],
    out: &mut [usize; 3],
) -> u8
    ensures { given result out.new log.new []
        ≡ as_told itself (on_tape (balancing_state (record_by x cell_count address check gain b51 shunt))
        (lent_bus tape log start)) }
{
    let device = bench::record_by(x, cell_count, address, check, gain, b51, shunt);
    let mut bus = Bus::new(tape, log);
    let answer = balancing::balancing_state(&device, &mut bus);
    told::tell(answer, bus.at, out)
}

#[unsafe(no_mangle)]
pub extern "C" fn bench_sys_stat(
    x: u8,
    cell_count: u8,
    address: u8,
    check: bool,
    gain: u16,
    b51: u8,
    shunt: u32,
    tape: &[u8],
    log: &mut [u8],
    out: &mut [usize; 3],
) -> u8
    ensures { given result out.new log.new []
        ≡ as_told bits_of (on_tape (sys_stat (record_by x cell_count address check gain b51 shunt))
        (lent_bus tape log start)) }
{
    let device = bench::record_by(x, cell_count, address, check, gain, b51, shunt);
    let mut bus = Bus::new(tape, log);
    let answer = status::sys_stat(&device, &mut bus);
    told::tell(answer, bus.at, out)
}

#[unsafe(no_mangle)]
pub extern "C" fn bench_sys_stat_reset(
    x: u8,
    cell_count: u8,
    address: u8,
    check: bool,
    gain: u16,
    b51: u8,
    shunt: u32,
    flags: u8,
    tape: &[u8],
    log: &mut [u8],
    out: &mut [usize; 3],
) -> u8
    ensures { given result out.new log.new []
        ≡ as_told nothing (on_tape (sys_stat_reset (record_by x cell_count address check gain b51 shunt) (flags_by flags))
        (lent_bus tape log start)) }
{
    let device = bench::record_by(x, cell_count, address, check, gain, b51, shunt);
    let flags = SysStat { bits: flags };
    let mut bus = Bus::new(tape, log);
    let answer = status::sys_stat_reset(&device, flags, &mut bus);
    told::tell(answer, bus.at, out)
}

#[unsafe(no_mangle)]
pub extern "C" fn bench_discharge(
    x: u8,
    cell_count: u8,
    address: u8,
    check: bool,
    gain: u16,
    b51: u8,
    shunt: u32,
    enable: bool,
    tape: &[u8],
    log: &mut [u8],
    out: &mut [usize; 3],
) -> u8
    ensures { given result out.new log.new []
        ≡ as_told nothing (on_tape (discharge (record_by x cell_count address check gain b51 shunt) enable)
        (lent_bus tape log start)) }
{
    let device = bench::record_by(x, cell_count, address, check, gain, b51, shunt);
    let mut bus = Bus::new(tape, log);
    let answer = switches::discharge(&device, enable, &mut bus);
    told::tell(answer, bus.at, out)
}

#[unsafe(no_mangle)]
pub extern "C" fn bench_charge(
    x: u8,
    cell_count: u8,
    address: u8,
    check: bool,
    gain: u16,
    b51: u8,
    shunt: u32,
    enable: bool,
    tape: &[u8],
    log: &mut [u8],
    out: &mut [usize; 3],
) -> u8
    ensures { given result out.new log.new []
        ≡ as_told nothing (on_tape (charge (record_by x cell_count address check gain b51 shunt) enable)
        (lent_bus tape log start)) }
{
    let device = bench::record_by(x, cell_count, address, check, gain, b51, shunt);
    let mut bus = Bus::new(tape, log);
    let answer = switches::charge(&device, enable, &mut bus);
    told::tell(answer, bus.at, out)
}

#[unsafe(no_mangle)]
pub extern "C" fn bench_is_charge_enabled(
    x: u8,
    cell_count: u8,
    address: u8,
    check: bool,
    gain: u16,
    b51: u8,
    shunt: u32,
    tape: &[u8],
    log: &mut [u8],
    out: &mut [usize; 3],
) -> u8
    ensures { given result out.new log.new []
        ≡ as_told bit_of (on_tape (is_charge_enabled (record_by x cell_count address check gain b51 shunt))
        (lent_bus tape log start)) }
{
    let device = bench::record_by(x, cell_count, address, check, gain, b51, shunt);
    let mut bus = Bus::new(tape, log);
    let answer = switches::is_charge_enabled(&device, &mut bus);
    told::tell(answer, bus.at, out)
}

#[unsafe(no_mangle)]
pub extern "C" fn bench_ship_enter(
    x: u8,
    cell_count: u8,
    address: u8,
    check: bool,
    gain: u16,
    b51: u8,
    shunt: u32,
    tape: &[u8],
    log: &mut [u8],
    out: &mut [usize; 3],
) -> u8
    ensures { given result out.new log.new []
        ≡ as_told nothing (on_tape (ship_enter (record_by x cell_count address check gain b51 shunt))
        (lent_bus tape log start)) }
{
    let device = bench::record_by(x, cell_count, address, check, gain, b51, shunt);
    let mut bus = Bus::new(tape, log);
    let answer = ship::ship_enter(&device, &mut bus);
    told::tell(answer, bus.at, out)
}

#[unsafe(no_mangle)]
pub extern "C" fn bench_enable_adc(
    x: u8,
    cell_count: u8,
    address: u8,
    check: bool,
    gain: u16,
    b51: u8,
    shunt: u32,
    enable: bool,
    tape: &[u8],
    log: &mut [u8],
    out: &mut [usize; 3],
) -> u8
    ensures { given result out.new log.new []
        ≡ as_told nothing (on_tape (enable_adc (record_by x cell_count address check gain b51 shunt) enable)
        (lent_bus tape log start)) }
{
    let device = bench::record_by(x, cell_count, address, check, gain, b51, shunt);
    let mut bus = Bus::new(tape, log);
    let answer = control::enable_adc(&device, enable, &mut bus);
    told::tell(answer, bus.at, out)
}

#[unsafe(no_mangle)]
pub extern "C" fn bench_set_temperature_source(
    x: u8,
    cell_count: u8,
    address: u8,
    check: bool,
    gain: u16,
    b51: u8,
    shunt: u32,
    thermistor: bool,
    tape: &[u8],
    log: &mut [u8],
    out: &mut [usize; 3],
) -> u8
    ensures { given result out.new log.new []
        ≡ as_told nothing (on_tape (set_temperature_source (record_by x cell_count address check gain b51 shunt) (source_by thermistor))
        (lent_bus tape log start)) }
{
    let device = bench::record_by(x, cell_count, address, check, gain, b51, shunt);
    let mut bus = Bus::new(tape, log);
    let answer = control::set_temperature_source(
        &device,
        TemperatureSource::from(thermistor),
        &mut bus,
    );
    told::tell(answer, bus.at, out)
}

#[unsafe(no_mangle)]
pub extern "C" fn bench_temperature_source(
    x: u8,
    cell_count: u8,
    address: u8,
    check: bool,
    gain: u16,
    b51: u8,
    shunt: u32,
    tape: &[u8],
    log: &mut [u8],
    out: &mut [usize; 3],
) -> u8
    ensures { given result out.new log.new []
        ≡ as_told code_of (on_tape (temperature_source (record_by x cell_count address check gain b51 shunt))
        (lent_bus tape log start)) }
{
    let device = bench::record_by(x, cell_count, address, check, gain, b51, shunt);
    let mut bus = Bus::new(tape, log);
    let answer = control::temperature_source(&device, &mut bus);
    told::tell(answer, bus.at, out)
}

#[unsafe(no_mangle)]
pub extern "C" fn bench_coulomb_counter_mode(
    x: u8,
    cell_count: u8,
    address: u8,
    check: bool,
    gain: u16,
    b51: u8,
    shunt: u32,
    code: u8,
    tape: &[u8],
    log: &mut [u8],
    out: &mut [usize; 3],
) -> u8
    ensures { given result out.new log.new []
        ≡ as_told nothing (on_tape (coulomb_counter_mode (record_by x cell_count address check gain b51 shunt) (mode_by code))
        (lent_bus tape log start)) }
{
    let device = bench::record_by(x, cell_count, address, check, gain, b51, shunt);
    let mut bus = Bus::new(tape, log);
    let answer = counter::coulomb_counter_mode(&device, CoulombCounterMode::from(code), &mut bus);
    told::tell(answer, bus.at, out)
}
