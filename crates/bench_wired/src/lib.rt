// The reading by the wiring, and the question for its figures, for the bench's C; apart from the calls that the reading is counted beside: in one
// library with them it would share the reading of the inputs, which the compiler then calls and does not take in.
#![tactic(auto)]

ghost use Rattle.std.specs.Prelude.{[], ◌∷◌, ◌≡◌};
ghost use Rattle.bus.specs.Transfers.{start};
ghost use Rattle.bus.specs.Programs.{on_tape};
ghost use Rattle.bus.specs.Lent.{lent_bus};
ghost use Rattle.procedure.specs.Wired.{wired};
ghost use Rattle.bench.specs.Calls.{record_by};
ghost use Rattle.bench_wired.specs.Both.{shown_by, as_shown};

use bench::told;
use bq769x0::{Readings, Spread};
use bus::Bus;
use cells::wired;
use units::MilliVolts;

#[unsafe(no_mangle)]
pub extern "C" fn bench_wired(
    x: u8,
    cell_count: u8,
    address: u8,
    check: bool,
    gain: u16,
    b51: u8,
    shunt: u32,
    inputs: &mut [u8],
    list: &mut [i32],
    tape: &[u8],
    log: &mut [u8],
    out: &mut [usize; 3],
) -> u8
    ensures { shown_by result out.new log.new inputs.new list.new
        ≡ as_shown (on_tape (wired (record_by x cell_count address check gain b51 shunt)
        inputs.old list.old) (lent_bus tape log start)) }
{
    let mut device = bench::record_by(x, cell_count, address, check, gain, b51, shunt);
    let mut bus = Bus::new(tape, log);
    let answer = wired::wired(&mut device, inputs, list, &mut bus);
    told::tell(answer, bus.at, out)
}

// Of a record that holds these three.
#[unsafe(no_mangle)]
pub extern "C" fn bench_spread(sum: i32, lowest: i32, highest: i32, out: &mut [i32; 3])
    ensures { out.new ≡ sum ∷ lowest ∷ highest ∷ [] }
{
    let mut device = bench::record_by(5, 5, 8, false, 365, 0, 1000);
    device.store_readings(Readings {
        cells: [MilliVolts(0); 15],
        wired: [MilliVolts(0); 15],
        spread: Spread {
            sum: MilliVolts(sum),
            lowest: MilliVolts(lowest),
            highest: MilliVolts(highest),
        },
    });
    let held = device.spread();
    *out = [held.sum.0, held.lowest.0, held.highest.0];
}
