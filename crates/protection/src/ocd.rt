// The steps at which an overcurrent trips.
ghost use Rattle.std.specs.Prelude.{◌≡◌};
ghost use Rattle.protection.specs.Inside.{On, ocd_line};
ghost use Rattle.protection.specs.Steps.{ocd_lower, ocd_upper};
ghost use Rattle.protection.specs.Ocd.{mv_of};

use crate::Threshold;
use crate::range::{Codes, OCDSCDRange};

#[derive(Clone, Copy)]
pub enum OCDThreshold {
    _8mV = 8,
    _11mV = 11,
    _14mV = 14,
    _17mV = 17,
    _19mV = 19,
    _22mV = 22,
    _25mV = 25,
    _28mV = 28,
    _31mV = 31,
    _33mV = 33,
    _36mV = 36,
    _39mV = 39,
    _42mV = 42,
    _44mV = 44,
    _47mV = 47,
    _50mV = 50,
    _56mV = 56,
    _61mV = 61,
    _67mV = 67,
    _72mV = 72,
    _78mV = 78,
    _83mV = 83,
    _89mV = 89,
    _94mV = 94,
    _100mV = 100,
}

impl Threshold for OCDThreshold {
    ghost mv_of = { mv_of };

    ghost lower = { ocd_lower };

    ghost upper = { ocd_upper };

    fn mv(self) -> u8 {
        self as u8
    }

    #[tactic(auto, unfolding(crate::specs::Ranges::range_for))]
    fn range(self) -> OCDSCDRange {
        match self {
            OCDThreshold::_17mV
            | OCDThreshold::_22mV
            | OCDThreshold::_28mV
            | OCDThreshold::_33mV
            | OCDThreshold::_39mV
            | OCDThreshold::_44mV
            | OCDThreshold::_50mV => OCDSCDRange::Unknown,
            OCDThreshold::_56mV
            | OCDThreshold::_61mV
            | OCDThreshold::_67mV
            | OCDThreshold::_72mV
            | OCDThreshold::_78mV
            | OCDThreshold::_83mV
            | OCDThreshold::_89mV
            | OCDThreshold::_94mV
            | OCDThreshold::_100mV => OCDSCDRange::Upper,
            _ => OCDSCDRange::Lower,
        }
    }

    fn codes(self) -> Codes {
        match self {
            OCDThreshold::_8mV => Codes(0, 0),
            OCDThreshold::_11mV => Codes(1, 0),
            OCDThreshold::_14mV => Codes(2, 0),
            OCDThreshold::_17mV => Codes(3, 0),
            OCDThreshold::_19mV => Codes(4, 0),
            OCDThreshold::_22mV => Codes(5, 1),
            OCDThreshold::_25mV => Codes(6, 0),
            OCDThreshold::_28mV => Codes(7, 2),
            OCDThreshold::_31mV => Codes(8, 0),
            OCDThreshold::_33mV => Codes(9, 3),
            OCDThreshold::_36mV => Codes(10, 0),
            OCDThreshold::_39mV => Codes(11, 4),
            OCDThreshold::_42mV => Codes(12, 0),
            OCDThreshold::_44mV => Codes(13, 5),
            OCDThreshold::_47mV => Codes(14, 0),
            OCDThreshold::_50mV => Codes(15, 6),
            OCDThreshold::_56mV => Codes(0, 7),
            OCDThreshold::_61mV => Codes(0, 8),
            OCDThreshold::_67mV => Codes(0, 9),
            OCDThreshold::_72mV => Codes(0, 10),
            OCDThreshold::_78mV => Codes(0, 11),
            OCDThreshold::_83mV => Codes(0, 12),
            OCDThreshold::_89mV => Codes(0, 13),
            OCDThreshold::_94mV => Codes(0, 14),
            OCDThreshold::_100mV => Codes(0, 15),
        }
    }

    fn from_mv(mv_threshold: u8) -> Self {
        ladder(mv_threshold)
    }
}

// A line a step, lowest first; a step that both of the datasheet's tables have has one line. Stated by the answer's own line, which the prover
// closes at each arm by itself; `from_mv` says it by the tables.
fn ladder(mv_threshold: u8) -> OCDThreshold
    ensures { On (ocd_line result) mv_threshold }
{
    match mv_threshold {
        0..=8 => OCDThreshold::_8mV,
        9..=11 => OCDThreshold::_11mV,
        12..=14 => OCDThreshold::_14mV,
        15..=17 => OCDThreshold::_17mV,
        18..=19 => OCDThreshold::_19mV,
        20..=22 => OCDThreshold::_22mV,
        23..=25 => OCDThreshold::_25mV,
        26..=28 => OCDThreshold::_28mV,
        29..=31 => OCDThreshold::_31mV,
        32..=33 => OCDThreshold::_33mV,
        34..=36 => OCDThreshold::_36mV,
        37..=39 => OCDThreshold::_39mV,
        40..=42 => OCDThreshold::_42mV,
        43..=44 => OCDThreshold::_44mV,
        45..=47 => OCDThreshold::_47mV,
        48..=50 => OCDThreshold::_50mV,
        51..=56 => OCDThreshold::_56mV,
        57..=61 => OCDThreshold::_61mV,
        62..=67 => OCDThreshold::_67mV,
        68..=72 => OCDThreshold::_72mV,
        73..=78 => OCDThreshold::_78mV,
        79..=83 => OCDThreshold::_83mV,
        84..=89 => OCDThreshold::_89mV,
        90..=94 => OCDThreshold::_94mV,
        95..=255 => OCDThreshold::_100mV,
    }
}
