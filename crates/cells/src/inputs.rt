// All of the chip's inputs, read at once and converted to millivolts.
ghost use Rattle.std.specs.Prelude.{◌≡◌, ◌+◌, ◌≤◌, nat_abs, take, IfOk};
ghost use Rattle.numbers.specs.Numbers.{word};
ghost use Rattle.adc.specs.Conversion.{millivolts};
ghost use Rattle.refusals.specs.Refusal.{answering};
ghost use Rattle.bus.specs.Lent.{does};
ghost use Rattle.bus.specs.Raw.{as_raw};
ghost use Rattle.procedure.specs.Inputs.{read_inputs};
ghost use Rattle.cells.specs.Inside.{Small, Held};

use adc::transfer::AdcTransferFunction;
use bus::Bus;
use bus::link::Link;
use refusals::Error;

// The first X of the inputs are the chip's then.
pub(crate) fn read_inputs(
    link: Link,
    adc: AdcTransferFunction,
    inputs: &mut [i32; 16],
    bus: &mut Bus,
) -> Result<(), Error>
    requires { (link.x ≤ 15) × (adc.gain ≤ 396) }
    ensures read { does (read_inputs link adc) bus (answering (as_raw result) (take link.x inputs.new)) }
    ensures small { IfOk result (λ _. Small link.x inputs.new) }
{
    let x = link.x as usize;
    let mut buf = [0; 32];
    raw::read_raw(link, 0x0c, &mut buf[..2 * x], bus)?;
    convert(adc, x, &buf, inputs);
    Ok(())
}

// The first n inputs of the bytes: eight of them, or sixteen.
fn convert(adc: AdcTransferFunction, n: usize, buf: &[u8; 32], inputs: &mut [i32; 16])
    requires n_bound { (n ≤ 15) × (adc.gain ≤ 396) }
    requires held { Held adc buf.now 0 inputs.old }
    ensures { Held adc buf.now n inputs.new }
{
    convert_eight(adc, buf, 0, inputs);
    if 8 < n {
        convert_eight(adc, buf, 8, inputs);
    }
}

// After the first k inputs the next eight.
fn convert_eight(adc: AdcTransferFunction, buf: &[u8; 32], k: usize, inputs: &mut [i32; 16])
    requires k_bound { (k ≤ 8) × (adc.gain ≤ 396) }
    requires held { Held adc buf.now k inputs.old }
    ensures { Held adc buf.now (k + 8) inputs.new }
{
    for i in 0..8 {
        inputs[k + i] = millivolts(adc, buf[2 * (k + i)], buf[2 * (k + i) + 1]);
    }
}

// As `AdcTransferFunction::apply`, of a gain that registers give or none: an i32 holds it.
fn millivolts(adc: AdcTransferFunction, high: u8, low: u8) -> i32
    requires { adc.gain ≤ 396 }
    ensures { (result ≡ millivolts adc.gain adc.offset (word high low)) × (nat_abs result ≤ 27000) }
{
    let reading = numbers::be_u16(high, low) as i32;
    (reading * adc.gain as i32 + adc.offset as i32 * 1000) / 1000
}
