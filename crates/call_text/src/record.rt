// The record's line, and how far tape and log are used.
use bq769x0::{BQ769x0, Spread};
use bus::Cursor;
use std::io;
use text::Spaced;
use units::MilliVolts;

// Sum, lowest, highest.
pub(crate) fn figures(spread: Spread) -> [MilliVolts; 3] {
    [spread.sum, spread.lowest, spread.highest]
}

pub(crate) fn print(rt: &impl Print, device: &BQ769x0, at: Cursor) -> io::Result<()> {
    let link = device.link;
    print!(rt;
        "record {} {} {} {} {} {} {} {}",
        link.x,
        device.cell_count,
        link.address,
        link.check as u8,
        device.adc_gain(),
        device.adc_offset(),
        device.is_initialized() as u8,
        device.shunt.0
    )?;
    let readings = &device.readings;
    println!(rt;
        "{}{}{} tape {} log {}",
        Spaced(&readings.cells),
        Spaced(&readings.wired),
        Spaced(&figures(device.spread())),
        at.tape,
        at.log
    )
}
