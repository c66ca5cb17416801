// One line a row: what it is, what came, what should have come.
use refusals::Error;
use std::fmt::Display;
use std::io;

pub(crate) fn rows<N: Display + Copy>(rt: &impl Print, rows: &[(&str, N, N)]) -> io::Result<()> {
    for &(name, came, should) in rows {
        println!(rt; "{name}: {came}, should be {should}")?;
    }
    Ok(())
}

// The refusal's number, or 0.
pub(crate) fn refusal<T: Drop>(answer: Result<T, Error>) -> u8 {
    answer.err().map_or(0, |e| e.number())
}
