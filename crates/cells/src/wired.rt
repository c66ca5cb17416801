// The cells by the datasheet's wiring: each fitted input once, bottom of the pack first, with its number beside it.
ghost use Rattle.std.specs.Prelude.{◌≡◌, ◌≤◌, length};
ghost use Rattle.laws.specs.Over.{◌over◌};
ghost use Rattle.bus.specs.Lent.{does};
ghost use Rattle.bus.specs.Raw.{as_raw};
ghost use Rattle.procedure.specs.Wired.{shown, wired};

use crate::taking;
use bq769x0::BQ769x0;
use bus::Bus;
use refusals::Error;
use wiring::tables;

#[inline(always)]
pub fn wired(
    device: &mut BQ769x0,
    inputs: &mut [u8],
    list: &mut [i32],
    bus: &mut Bus,
) -> Result<(), Error>
    ensures { does (wired device.old inputs.old list.old) bus
        (shown (as_raw result) device.new inputs.new list.new) }
{
    let (x, n) = (device.link.x, device.cell_count);
    let mut millivolts = [0; 16];
    taking::read(device, inputs.len().min(list.len()), &mut millivolts, bus)?;
    show(tables::fitted(x, n), inputs);
    taking::by_wiring(x, n, &millivolts, list);
    taking::take(
        x,
        n,
        &list[..n as usize],
        &mut millivolts,
        &mut device.readings,
    );
    Ok(())
}

// The fitted inputs, over the first of the caller's: a byte a turn, as `raw::transfer` copies.
fn show(fitted: &[u8], inputs: &mut [u8])
    requires { length fitted.now ≤ length inputs.old }
    ensures { inputs.new ≡ fitted.now over inputs.old }
{
    for (i, &input) in fitted.iter().enumerate() {
        inputs[i] = input;
    }
}
