// What a call refuses with: the crate's errors, then those that are added here.
#![tactic(auto)]

ghost use Rattle.std.specs.Prelude.{◌≡◌};
ghost use Rattle.refusals.specs.Refusal.{as_refusal, in_numbers};

use std::fmt;
use units::MilliVolts;

#[derive(Clone, Copy, Debug, PartialEq, Eq)]
pub enum Error {
    CRCMismatch,
    I2CError,
    BufTooLarge,
    Uninitialized,
    VerifyError(u8),
    OCDSCDRangeMismatch,
    UVThresholdUnobtainable(MilliVolts, MilliVolts),
    OVThresholdUnobtainable(MilliVolts, MilliVolts),
    BadDevice,
    BadCellCount,
    BadAddress,
    BadShunt,
    CurrentTooLarge,
    RegisterRunsOut,
    BadTape,
    TapeEnded,
    LogFull,
    UnknownFlags,
    NoRoom,
    UnknownRange,
    NoSuchInput,
    NotOnDevice,
    Neighbours,
    TooManyCells,
}

// Its name, for a person.
impl fmt::Display for Error {
    ghost use Rattle.std.specs.Prelude.{Some};
    ghost use Rattle.refusals.specs.Names.{name_of};

    ghost output = { λ e. Some (name_of e) };

    fn fmt<W: fmt::Write>(&self, f: &mut fmt::Formatter<W>) -> fmt::Result {
        f.write_str(match self {
            Error::CRCMismatch => "CRCMismatch",
            Error::I2CError => "I2CError",
            Error::BufTooLarge => "BufTooLarge",
            Error::Uninitialized => "Uninitialized",
            Error::VerifyError(_) => "VerifyError",
            Error::OCDSCDRangeMismatch => "OCDSCDRangeMismatch",
            Error::UVThresholdUnobtainable(_, _) => "UVThresholdUnobtainable",
            Error::OVThresholdUnobtainable(_, _) => "OVThresholdUnobtainable",
            Error::BadDevice => "BadDevice",
            Error::BadCellCount => "BadCellCount",
            Error::BadAddress => "BadAddress",
            Error::BadShunt => "BadShunt",
            Error::CurrentTooLarge => "CurrentTooLarge",
            Error::RegisterRunsOut => "RegisterRunsOut",
            Error::BadTape => "BadTape",
            Error::TapeEnded => "TapeEnded",
            Error::LogFull => "LogFull",
            Error::UnknownFlags => "UnknownFlags",
            Error::NoRoom => "NoRoom",
            Error::UnknownRange => "UnknownRange",
            Error::NoSuchInput => "NoSuchInput",
            Error::NotOnDevice => "NotOnDevice",
            Error::Neighbours => "Neighbours",
            Error::TooManyCells => "TooManyCells",
        })
    }
}

impl std::error::Error for Error {}

// A refusal as numbers: its number, how many figures it names, and those; a figure that it does not name is 0.
#[derive(Clone, Copy)]
pub struct InNumbers(pub u8, pub u8, pub i32, pub i32);

impl Error {
    pub fn number(self) -> u8
        ensures { result ≡ (as_refusal self).number }
    {
        match self {
            Error::CRCMismatch => 1,
            Error::I2CError => 2,
            Error::BufTooLarge => 3,
            Error::Uninitialized => 4,
            Error::VerifyError(_) => 5,
            Error::OCDSCDRangeMismatch => 6,
            Error::UVThresholdUnobtainable(_, _) => 7,
            Error::OVThresholdUnobtainable(_, _) => 8,
            Error::BadDevice => 9,
            Error::BadCellCount => 10,
            Error::BadAddress => 11,
            Error::BadShunt => 12,
            Error::CurrentTooLarge => 13,
            Error::RegisterRunsOut => 14,
            Error::BadTape => 15,
            Error::TapeEnded => 16,
            Error::LogFull => 17,
            Error::UnknownFlags => 18,
            Error::NoRoom => 19,
            Error::UnknownRange => 20,
            Error::NoSuchInput => 21,
            Error::NotOnDevice => 22,
            Error::Neighbours => 23,
            Error::TooManyCells => 24,
        }
    }

    pub fn in_numbers(self) -> InNumbers
        ensures { result ≡ in_numbers (as_refusal self) }
    {
        let number = self.number();
        match self {
            Error::VerifyError(reg) => InNumbers(number, 1, reg as i32, 0),
            Error::UVThresholdUnobtainable(low, high) | Error::OVThresholdUnobtainable(low, high) =>
                InNumbers(number, 2, low.0, high.0),
            _ => InNumbers(number, 0, 0, 0),
        }
    }
}
