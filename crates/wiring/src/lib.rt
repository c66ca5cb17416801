// Packs: which inputs of a device carry its cells, by the datasheet's tables.
#![tactic(auto)]

pub mod questions;
pub mod tables;
