// The steps at which a short circuit trips.
ghost use Rattle.std.specs.Prelude.{◌≡◌};
ghost use Rattle.protection.specs.Inside.{On, scd_line};
ghost use Rattle.protection.specs.Steps.{scd_lower, scd_upper};
ghost use Rattle.protection.specs.Scd.{mv_of};

use crate::Threshold;
use crate::range::{Codes, OCDSCDRange};

#[derive(Clone, Copy)]
pub enum SCDThreshold {
    _22mV = 22,
    _33mV = 33,
    _44mV = 44,
    _56mV = 56,
    _67mV = 67,
    _78mV = 78,
    _89mV = 89,
    _100mV = 100,
    _111mV = 111,
    _133mV = 133,
    _155mV = 155,
    _178mV = 178,
    _200mV = 200,
}

impl Threshold for SCDThreshold {
    ghost mv_of = { mv_of };

    ghost lower = { scd_lower };

    ghost upper = { scd_upper };

    fn mv(self) -> u8 {
        self as u8
    }

    #[tactic(auto, unfolding(crate::specs::Ranges::range_for))]
    fn range(self) -> OCDSCDRange {
        match self {
            SCDThreshold::_44mV | SCDThreshold::_67mV | SCDThreshold::_89mV => OCDSCDRange::Unknown,
            SCDThreshold::_111mV
            | SCDThreshold::_133mV
            | SCDThreshold::_155mV
            | SCDThreshold::_178mV
            | SCDThreshold::_200mV => OCDSCDRange::Upper,
            _ => OCDSCDRange::Lower,
        }
    }

    fn codes(self) -> Codes {
        match self {
            SCDThreshold::_22mV => Codes(0, 0),
            SCDThreshold::_33mV => Codes(1, 0),
            SCDThreshold::_44mV => Codes(2, 0),
            SCDThreshold::_56mV => Codes(3, 0),
            SCDThreshold::_67mV => Codes(4, 1),
            SCDThreshold::_78mV => Codes(5, 0),
            SCDThreshold::_89mV => Codes(6, 2),
            SCDThreshold::_100mV => Codes(7, 0),
            SCDThreshold::_111mV => Codes(0, 3),
            SCDThreshold::_133mV => Codes(0, 4),
            SCDThreshold::_155mV => Codes(0, 5),
            SCDThreshold::_178mV => Codes(0, 6),
            SCDThreshold::_200mV => Codes(0, 7),
        }
    }

    fn from_mv(mv_threshold: u8) -> Self {
        ladder(mv_threshold)
    }
}

// A line a step, lowest first; a step that both of the datasheet's tables have has one line. Stated by the answer's own line, which the prover
// closes at each arm by itself; `from_mv` says it by the tables.
fn ladder(mv_threshold: u8) -> SCDThreshold
    ensures { On (scd_line result) mv_threshold }
{
    match mv_threshold {
        0..=22 => SCDThreshold::_22mV,
        23..=33 => SCDThreshold::_33mV,
        34..=44 => SCDThreshold::_44mV,
        45..=56 => SCDThreshold::_56mV,
        57..=67 => SCDThreshold::_67mV,
        68..=78 => SCDThreshold::_78mV,
        79..=89 => SCDThreshold::_89mV,
        90..=100 => SCDThreshold::_100mV,
        101..=111 => SCDThreshold::_111mV,
        112..=133 => SCDThreshold::_133mV,
        134..=155 => SCDThreshold::_155mV,
        156..=178 => SCDThreshold::_178mV,
        179..=255 => SCDThreshold::_200mV,
    }
}
