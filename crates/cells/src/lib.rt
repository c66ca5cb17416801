// The cells: all inputs read at once, listed as the crate does and by the datasheet's wiring, and stored in the record.
#![tactic(auto)]

pub mod crate_list;
mod figures;
mod inputs;
mod taking;
pub mod wired;
