// One cell reading after an init, by the crate's list.
ghost use Rattle.bus.specs.Lent.{does};
ghost use Rattle.plan.specs.Plan.{as_init, as_values};
ghost use Rattle.firmware.specs.JobCells.{listed, read_cells};

use bq769x0::BQ769x0;
use bus::Bus;
use cells::crate_list;
use layout::list::{has_room, put_cells};
use plan::CalculatedValues;
use refusals::Error;

// The reading of a device that was set up with these values, which are then the answer;
// a refusal leaves the list as it was.
#[tactic(auto, using(bus::proofs::Steps::steps, bus::proofs::Programs::on_tape_bind, layout::proofs::Room::stored_first, layout::proofs::Room::has_room_is), unfolding(crate::specs::JobCells::read_cells))]
#[inline(always)]
pub(crate) fn read_cells(
    values: CalculatedValues,
    device: &mut BQ769x0,
    list: &mut [u8],
    bus: &mut Bus,
) -> Result<CalculatedValues, Error>
    ensures { does (read_cells list.old (as_values values) device.old) bus (listed (as_init result) device.new list.new) }
{
    let n = device.cell_count as usize;
    if !has_room(n, list.len()) {
        return Err(Error::NoRoom);
    }
    let mut millivolts = [0i32; 15];
    crate_list::cell_voltages(device, &mut millivolts, bus)?;
    put_cells(&millivolts[..n], list);
    Ok(values)
}
