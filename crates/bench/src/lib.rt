// What the calls for the bench's C have in common: the record of the numbers that C gives, and what C is told of an answer.
#![tactic(auto)]

ghost use Rattle.std.specs.Prelude.{◌≡◌};
ghost use Rattle.bench.specs.Calls.{record_by};

use adc::transfer::AdcTransferFunction;
use bq769x0::BQ769x0;
use bus::link::Link;
use units::MicroOhms;

pub mod told;

// A record that was set up with this shunt, where it is not 0; its offset is register 51's.
pub fn record_by(
    x: u8,
    cell_count: u8,
    dev_address: u8,
    check: bool,
    adc_gain: u16,
    b51: u8,
    shunt: u32,
) -> BQ769x0
    ensures { result ≡ record_by x cell_count dev_address check adc_gain b51 shunt }
{
    let link = Link {
        address: dev_address,
        check,
        x,
    };
    let adc = AdcTransferFunction {
        gain: adc_gain,
        offset: numbers::as_i8(b51),
    };
    BQ769x0::of_parts(link, cell_count, adc, MicroOhms(shunt), shunt != 0)
}
