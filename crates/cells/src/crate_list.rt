// The cells by the crate's list: read, stored in the record, and filled into the caller's list.
ghost use Rattle.std.specs.Prelude.{◌≡◌, ◌≤◌, map, length};
ghost use Rattle.laws.specs.Over.{◌over◌};
ghost use Rattle.bq769x0.specs.Figures.{volts};
ghost use Rattle.bus.specs.Lent.{does};
ghost use Rattle.bus.specs.Raw.{as_raw};
ghost use Rattle.procedure.specs.Cells.{filled, handed_back, cell_voltages};

use crate::taking;
use bq769x0::BQ769x0;
use bus::Bus;
use refusals::Error;
use units::MilliVolts;

#[inline(always)]
pub fn cell_voltages(device: &mut BQ769x0, list: &mut [i32], bus: &mut Bus) -> Result<(), Error>
    ensures { does (cell_voltages device.old list.old) bus (filled (as_raw result) device.new list.new) }
{
    let (x, n) = (device.link.x, device.cell_count);
    let mut inputs = [0; 16];
    taking::read(device, list.len(), &mut inputs, bus)?;
    let mut fitted = [0; 15];
    taking::by_wiring(x, n, &inputs, &mut fitted);
    taking::take(
        x,
        n,
        &fitted[..n as usize],
        &mut inputs,
        &mut device.readings,
    );
    list[..n as usize].copy_from_slice(&inputs[..n as usize]);
    Ok(())
}

// The leading part of the list, filled from the record; nothing where the count exceeds the list or 15.
pub fn cells_of<'a>(device: &BQ769x0, list: &'a mut [i32]) -> &'a mut [i32]
    ensures { (result.now ≡ handed_back device.now.cell_count device.now.readings.cells (length list.old))
        × (result.ref_ptr ≡ list.entry.ref_ptr) }
{
    let n = device.cell_count as usize;
    if list.len() < n || 15 < n {
        return &mut list[..0];
    }
    fill(&device.readings.cells[..n], list);
    &mut list[..n]
}

// The cells, over the list's first.
fn fill(cells: &[MilliVolts], list: &mut [i32])
    requires { length cells.now ≤ length list.old }
    ensures { list.new ≡ map volts cells.now over list.old }
{
    for (i, cell) in cells.iter().enumerate() {
        list[i] = cell.0;
    }
}
