// What the programs print of one call: its transfers, and what it answered.
#![tactic(auto)]

use bus::Cursor;
use plan::CalculatedValues;
use std::io;

mod log_fields;
pub mod refused;

// A line each, of the fields that a call added to the log, from where it began to where it ended.
pub fn transfers(rt: &impl Print, log: &[u8], from: Cursor, to: Cursor) -> io::Result<()> {
    let mut left = log.get(from.log..to.log).unwrap_or(&[]);
    while let Some((transfer, rest)) = log_fields::first(left) {
        println!(rt; "{}", log_fields::Transfer(transfer))?;
        left = rest;
    }
    Ok(())
}

// What an init reports.
pub fn init(rt: &impl Print, values: CalculatedValues) -> io::Result<()> {
    println!(rt;
        "init range {} scd {} ocd {} uv {} ov {}",
        values.ocdscd_range_used as u8,
        values.scd_threshold.0,
        values.ocd_threshold.0,
        values.uv_threshold.0,
        values.ov_threshold.0
    )
}
