// From the converter's readings to volts and amperes, and from asked volts to the codes of the trip registers.
#![tactic(auto)]

pub mod counter;
pub mod transfer;
pub mod trips;
