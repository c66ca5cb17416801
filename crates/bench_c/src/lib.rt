// Four calls for the bench's C, each on a tape and a log that nothing is used of: the number, 0 where accepted, and in out how far tape and log are
// then used, and the answer's value as a number.
#![tactic(auto)]

ghost use Rattle.std.specs.Prelude.{◌≡◌, []};
ghost use Rattle.bus.specs.Transfers.{start};
ghost use Rattle.bus.specs.Programs.{on_tape};
ghost use Rattle.bus.specs.Lent.{lent_bus};
ghost use Rattle.bus.specs.Raw.{read_raw, write_raw};
ghost use Rattle.measuring.specs.Pack.{voltage};
ghost use Rattle.measuring.specs.Temperature.{temperature};
ghost use Rattle.numbers.specs.Numbers.{as_u32};
ghost use Rattle.bench.specs.Calls.{link_by, record_by, nothing, sensed};
ghost use Rattle.bench.specs.Calls.{given, as_read, as_told};

use bench::told;
use bus::Bus;
use bus::link::Link;
use measuring::{pack, temperature};

#[unsafe(no_mangle)]
pub extern "C" fn bench_read_raw(
    x: u8,
    address: u8,
    check: bool,
    reg: u8,
    data: &mut [u8],
    tape: &[u8],
    log: &mut [u8],
    out: &mut [usize; 3],
) -> u8
    ensures { given result out.new log.new «data».new
        ≡ as_read (on_tape (read_raw (link_by x address check) reg «data».old) (lent_bus tape log start)) }
{
    let link = Link { address, check, x };
    let mut bus = Bus::new(tape, log);
    let answer = raw::read_raw(link, reg, data, &mut bus);
    told::tell(answer, bus.at, out)
}

#[unsafe(no_mangle)]
pub extern "C" fn bench_write_raw(
    x: u8,
    address: u8,
    check: bool,
    reg: u8,
    data: &[u8],
    tape: &[u8],
    log: &mut [u8],
    out: &mut [usize; 3],
) -> u8
    ensures { given result out.new log.new []
        ≡ as_told nothing (on_tape (write_raw (link_by x address check) reg «data».now) (lent_bus tape log start)) }
{
    let link = Link { address, check, x };
    let mut bus = Bus::new(tape, log);
    let answer = raw::write_raw(link, reg, data, &mut bus);
    told::tell(answer, bus.at, out)
}

#[unsafe(no_mangle)]
pub extern "C" fn bench_voltage(
    x: u8,
    cell_count: u8,
    address: u8,
    check: bool,
    gain: u16,
    b51: u8,
    shunt: u32,
    tape: &[u8],
    log: &mut [u8],
    out: &mut [usize; 3],
) -> u8
    ensures { given result out.new log.new []
        ≡ as_told as_u32 (on_tape (voltage (record_by x cell_count address check gain b51 shunt)) (lent_bus tape log start)) }
{
    let device = bench::record_by(x, cell_count, address, check, gain, b51, shunt);
    let mut bus = Bus::new(tape, log);
    let answer = pack::voltage(&device, &mut bus);
    told::tell(answer, bus.at, out)
}

#[unsafe(no_mangle)]
pub extern "C" fn bench_temperature(
    x: u8,
    cell_count: u8,
    address: u8,
    check: bool,
    gain: u16,
    b51: u8,
    shunt: u32,
    tape: &[u8],
    log: &mut [u8],
    out: &mut [usize; 3],
) -> u8
    ensures { given result out.new log.new []
        ≡ as_told sensed (on_tape (temperature (record_by x cell_count address check gain b51 shunt))
        (lent_bus tape log start)) }
{
    let device = bench::record_by(x, cell_count, address, check, gain, b51, shunt);
    let mut bus = Bus::new(tape, log);
    let answer = temperature::temperature(&device, &mut bus);
    told::tell(answer, bus.at, out)
}
