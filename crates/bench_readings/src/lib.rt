// The cells by the crate's list and the current for the bench's C, apart from the other calls: in one library with `read_raw`, which
// reads the inputs too, or with the pack's voltage, which reads two registers too, the compiler calls what they share and takes it into none.
#![tactic(auto)]

ghost use Rattle.std.specs.Prelude.{◌≡◌, []};
ghost use Rattle.numbers.specs.Numbers.{as_u32};
ghost use Rattle.bus.specs.Transfers.{start};
ghost use Rattle.bus.specs.Programs.{on_tape};
ghost use Rattle.bus.specs.Lent.{lent_bus};
ghost use Rattle.procedure.specs.Cells.{cell_voltages};
ghost use Rattle.measuring.specs.Pack.{current};
ghost use Rattle.bench.specs.Calls.{record_by, given, as_told};
ghost use Rattle.bench_readings.specs.Listed.{as_cells};

use bench::told;
use bus::Bus;
use cells::crate_list;
use measuring::pack;

#[unsafe(no_mangle)]
pub extern "C" fn bench_cells(
    x: u8,
    cell_count: u8,
    address: u8,
    check: bool,
    gain: u16,
    b51: u8,
    shunt: u32,
    list: &mut [i32],
    tape: &[u8],
    log: &mut [u8],
    out: &mut [usize; 3],
) -> u8
    ensures { given result out.new log.new list.new
        ≡ as_cells (on_tape (cell_voltages (record_by x cell_count address check gain b51 shunt) list.old)
        (lent_bus tape log start)) }
{
    let mut device = bench::record_by(x, cell_count, address, check, gain, b51, shunt);
    let mut bus = Bus::new(tape, log);
    let answer = crate_list::cell_voltages(&mut device, list, &mut bus);
    told::tell(answer, bus.at, out)
}

#[unsafe(no_mangle)]
pub extern "C" fn bench_current(
    x: u8,
    cell_count: u8,
    address: u8,
    check: bool,
    gain: u16,
    b51: u8,
    shunt: u32,
    tape: &[u8],
    log: &mut [u8],
    out: &mut [usize; 3],
) -> u8
    ensures { given result out.new log.new []
        ≡ as_told as_u32 (on_tape (current (record_by x cell_count address check gain b51 shunt)) (lent_bus tape log start)) }
{
    let device = bench::record_by(x, cell_count, address, check, gain, b51, shunt);
    let mut bus = Bus::new(tape, log);
    let answer = pack::current(&device, &mut bus);
    told::tell(answer, bus.at, out)
}
