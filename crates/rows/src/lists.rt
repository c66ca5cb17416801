// The cells of a BQ76930, by one reading in which input k holds 365 k mV: so each cell tells its input.
use bq769x0::BQ769x0;
use bus::Bus;
use bus::link::Link;
use cells::crate_list;
use std::io;
use units::MicroOhms;

// At gain 365 and offset 0.
fn device(cell_count: u8) -> BQ769x0 {
    let link = Link {
        address: 8,
        check: false,
        x: 10,
    };
    BQ769x0::of_parts(link, cell_count, crate::adc(365, 0), MicroOhms(1000), true)
}

// Readings 1000, 2000 up to 10000.
fn read(cell_count: u8) -> [i32; 10] {
    let tape = [
        0x01, 0x00, 0x14, 0x03, 0xE8, 0x07, 0xD0, 0x0B, 0xB8, 0x0F, 0xA0, 0x13, 0x88, 0x17, 0x70,
        0x1B, 0x58, 0x1F, 0x40, 0x23, 0x28, 0x27, 0x10,
    ];
    let mut log = [0; 7];
    let mut list = [0; 10];
    let mut device = device(cell_count);
    crate_list::cell_voltages(&mut device, &mut list, &mut Bus::new(&tape, &mut log)).ok();
    list
}

// A row for each cell of so many, with the input that it should tell.
pub(crate) fn cells(rt: &impl Print, cell_count: u8, inputs: &[i32]) -> io::Result<()> {
    println!(rt; "BQ76930, {cell_count} cells")?;
    for (i, (millivolts, should)) in read(cell_count).iter().zip(inputs).enumerate() {
        println!(rt;
            "  cell {}, input: {}, should be {should}",
            i + 1,
            millivolts / 365
        )?;
    }
    Ok(())
}
