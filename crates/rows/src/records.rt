// What docs/DIFFERENCES.md lists and no job can ask for, as in `beyond`, but about records and about transfers over a tape and a log.
use crate::print::{refusal, rows};
use bq769x0::BQ769x0;
use bus::Bus;
use bus::link::Link;
use cells::crate_list;
use measuring::pack;
use refusals::Error;
use std::io;
use units::{MicroOhms, MilliAmperes};

fn link(address: u8, x: u8) -> Link {
    Link {
        address,
        check: false,
        x,
    }
}

// The status read from a log's begin.
fn read_status(link: Link, log: &mut [u8]) -> Result<(), Error> {
    let tape = [0x01, 0x00, 0x01, 0x80];
    let mut data = [0];
    raw::read_raw(link, 0x00, &mut data, &mut Bus::new(&tape, log))
}

fn transfers(rt: &impl Print) -> io::Result<()> {
    let mut log = [0; 7];
    let far = refusal(read_status(link(128, 5), &mut log));
    let none = refusal(read_status(link(8, 6), &mut log));
    let short = refusal(read_status(link(8, 5), &mut log[..6]));
    let enough = refusal(read_status(link(8, 5), &mut log));
    rows(
        rt,
        &[
            ("D11 setup with address 128: refused", far, 9),
            ("D11 setup with X 6: refused", none, 9),
            ("D27 a read with 6 bytes of log: refused", short, 17),
            ("D27 the same with 7: refused", enough, 0),
        ],
    )
}

// A BQ76920 of five cells that is marked as initialised.
fn marked(shunt: u32) -> BQ769x0 {
    BQ769x0::of_parts(link(8, 5), 5, crate::adc(365, 0), MicroOhms(shunt), true)
}

fn current(device: &BQ769x0) -> Result<MilliAmperes, Error> {
    let tape = [0x01, 0x00, 0x02, 0x00, 0x01];
    let mut log = [0; 7];
    pack::current(device, &mut Bus::new(&tape, &mut log))
}

fn unsound(rt: &impl Print) -> io::Result<()> {
    let none = refusal(current(&marked(0)));
    let large = refusal(current(&marked(2147483648)));
    rows(
        rt,
        &[
            (
                "D29 current of a record marked with shunt 0: refused",
                none,
                9,
            ),
            ("D29 the same with shunt 2147483648: refused", large, 9),
        ],
    )
}

fn not_made(rt: &impl Print) -> io::Result<()> {
    let made = BQ769x0::new(6, 8, 6, false);
    let flow = refusal(current(&made.device));
    rows(
        rt,
        &[
            ("D30 new with X 6: refused", refusal(made.answer), 9),
            ("D30 X of the record it leaves", made.device.link.x, 0),
            ("D30 current of that record: refused", flow, 9),
        ],
    )
}

// How many cells of five are handed back.
fn handed(list: &mut [i32]) -> usize {
    crate_list::cells_of(&marked(1000), list).len()
}

fn parts(rt: &impl Print) -> io::Result<()> {
    let mut list = [0; 6];
    let short = handed(&mut list[..4]);
    let long = handed(&mut list);
    rows(
        rt,
        &[
            ("D33 cells handed back of a list of 4", short, 0),
            ("D33 cells handed back of a list of 6", long, 5),
        ],
    )
}

fn constants(rt: &impl Print) -> io::Result<()> {
    rows(
        rt,
        &[
            ("D34 BQ76920", BQ769x0::BQ76920, 5),
            ("D34 BQ76930", BQ769x0::BQ76930, 10),
            ("D34 BQ76940", BQ769x0::BQ76940, 15),
            ("D34 SYS_CTRL2", BQ769x0::SYS_CTRL2, 0x05),
            ("D34 PROTECT1", BQ769x0::PROTECT1, 0x06),
            ("D34 ADCGAIN1", BQ769x0::ADCGAIN1, 0x50),
        ],
    )
}

pub(crate) fn records(rt: &impl Print) -> io::Result<()> {
    transfers(rt)?;
    unsound(rt)?;
    not_made(rt)?;
    parts(rt)?;
    constants(rt)
}
