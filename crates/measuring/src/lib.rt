// Measuring: the current, the pack's voltage and the temperature.
#![tactic(auto)]

pub mod degrees;
pub mod pack;
pub mod temperature;
mod word;
