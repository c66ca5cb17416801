// A reading of all inputs, over the cells that the record holds.
ghost use Rattle.std.specs.Prelude.{◌≡◌, ◌≤◌, true, length, take, IfOk};
ghost use Rattle.sizes.specs.Sizes.{is_count};
ghost use Rattle.laws.specs.Over.{◌over◌};
ghost use Rattle.refusals.specs.Refusal.{answering};
ghost use Rattle.bus.specs.Lent.{does};
ghost use Rattle.bus.specs.Raw.{as_raw};
ghost use Rattle.bq769x0.specs.Figures.{first_cells};
ghost use Rattle.procedure.specs.Inputs.{as_cells};
ghost use Rattle.procedure.specs.Taking.{voltages, taken};
ghost use Rattle.cells.specs.Inside.{Small, Ready, reads};

use crate::{figures, inputs};
use bq769x0::{BQ769x0, Readings};
use bus::Bus;
use refusals::Error;
use units::MilliVolts;
use wiring::tables;

// All inputs, for a caller with room for so many cells: 9, 4, 19, then as they are read.
#[tactic(auto, using(bus::proofs::Steps::step), unfolding(bus::specs::Programs::proceed, bus::specs::Programs::on_tape))]
#[inline(always)]
pub(crate) fn read(
    device: &BQ769x0,
    room: usize,
    inputs: &mut [i32; 16],
    bus: &mut Bus,
) -> Result<(), Error>
    ensures read { does (reads device.now room) bus (answering (as_raw result) (take device.now.link.x inputs.new)) }
    ensures ready { IfOk result (λ _. Ready device.now room inputs.new) }
{
    device.sound()?;
    if !device.init_complete {
        return Err(Error::Uninitialized);
    }
    if room < device.cell_count as usize {
        return Err(Error::NoRoom);
    }
    inputs::read_inputs(device.link, device.adc, inputs, bus)
}

// The fitted inputs' millivolts, over the first of the list.
#[inline(always)]
pub(crate) fn by_wiring(x: u8, cell_count: u8, inputs: &[i32; 16], list: &mut [i32])
    requires pack { is_count x cell_count ≡ true }
    requires room { cell_count ≤ length list.old }
    ensures { list.new ≡ voltages x cell_count (take x inputs.now) over list.old }
{
    let fitted = tables::fitted(x, cell_count);
    for (i, &input) in fitted.iter().enumerate() {
        list[i] = inputs[input as usize - 1];
    }
}

// What a reading of all inputs leaves of the readings held, with the fitted ones' millivolts at hand; the inputs are moved on the way.
#[inline(always)]
pub(crate) fn take(
    x: u8,
    cell_count: u8,
    fitted: &[i32],
    inputs: &mut [i32; 16],
    readings: &mut Readings,
)
    requires pack { is_count x cell_count ≡ true }
    requires small { Small x inputs.old }
    requires volts { fitted.now ≡ voltages x cell_count (take x inputs.old) }
    ensures stored { readings.new ≡ taken x cell_count readings.old (take x inputs.old) }
    ensures moved { take cell_count inputs.new ≡ first_cells cell_count readings.new.cells }
{
    store(fitted, &mut readings.wired);
    readings.spread = figures::spread_of(fitted);
    moves::in_turn(x, cell_count, inputs);
    store(&inputs[..x as usize], &mut readings.cells);
}

// The numbers, over the cells held.
#[inline(always)]
fn store(millivolts: &[i32], cells: &mut [MilliVolts; 15])
    requires { length millivolts.now ≤ 15 }
    ensures { cells.new ≡ as_cells millivolts.now over cells.old }
{
    for (i, &mv) in millivolts.iter().enumerate() {
        cells[i] = MilliVolts(mv);
    }
}
