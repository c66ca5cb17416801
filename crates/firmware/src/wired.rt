// One cell reading after an init, by the datasheet's wiring.
ghost use Rattle.bus.specs.Lent.{does};
ghost use Rattle.plan.specs.Plan.{as_init, as_values};
ghost use Rattle.firmware.specs.JobWired.{beside, read_wired};

use bq769x0::BQ769x0;
use bus::Bus;
use cells::wired;
use layout::list::{has_room, put_cells};
use plan::CalculatedValues;
use refusals::Error;

// The reading of a device that was set up with these values, which are then the answer;
// a refusal leaves both lists as they were.
#[tactic(auto, using(bus::proofs::Steps::steps, bus::proofs::Programs::on_tape_bind, layout::proofs::Room::stored_first, layout::proofs::Room::has_room_is), unfolding(crate::specs::JobWired::read_wired))]
#[inline(always)]
pub(crate) fn read_wired(
    values: CalculatedValues,
    device: &mut BQ769x0,
    inputs: &mut [u8],
    list: &mut [u8],
    bus: &mut Bus,
) -> Result<CalculatedValues, Error>
    ensures { does (read_wired inputs.old list.old (as_values values) device.old) bus
        (beside (as_init result) device.new inputs.new list.new) }
{
    let n = device.cell_count as usize;
    if !has_room(n, list.len()) {
        return Err(Error::NoRoom);
    }
    let mut millivolts = [0i32; 15];
    wired::wired(device, inputs, &mut millivolts, bus)?;
    put_cells(&millivolts[..n], list);
    Ok(values)
}
