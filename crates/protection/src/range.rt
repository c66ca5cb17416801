// The two ranges of steps, of which the chip is set to one.
ghost use Rattle.std.specs.Prelude.{◌≡◌};
ghost use Rattle.protection.specs.Answers.{as_number, as_range};
ghost use Rattle.protection.specs.Ranges.{range_bits, has_lower, has_upper, for_both, in_range};

use refusals::Error;

#[derive(Clone, Copy, PartialEq, Eq)]
pub enum OCDSCDRange {
    Lower,
    Upper,
    Unknown,
}

// The range that has both steps; where both ranges have both, the lower.
pub fn range_to_use(scd_range: OCDSCDRange, ocd_range: OCDSCDRange) -> Result<OCDSCDRange, Error>
    ensures { as_range result ≡ for_both scd_range ocd_range }
{
    if scd_range.has_lower() & ocd_range.has_lower() {
        Ok(OCDSCDRange::Lower)
    } else if scd_range.has_upper() & ocd_range.has_upper() {
        Ok(OCDSCDRange::Upper)
    } else {
        Err(Error::OCDSCDRangeMismatch)
    }
}

impl OCDSCDRange {
    pub fn bits(self) -> Result<u8, Error>
        ensures { as_number result ≡ range_bits self }
    {
        match self {
            OCDSCDRange::Lower => Ok(0 << 7),
            OCDSCDRange::Upper => Ok(1 << 7),
            OCDSCDRange::Unknown => Err(Error::UnknownRange),
        }
    }

    fn has_lower(self) -> bool
        ensures { result ≡ has_lower self }
    {
        self != OCDSCDRange::Upper
    }

    fn has_upper(self) -> bool
        ensures { result ≡ has_upper self }
    {
        self != OCDSCDRange::Lower
    }
}

// A step's codes in the lower range and in the upper one, 0 where the range lacks the step.
#[derive(Clone, Copy)]
pub struct Codes(pub u8, pub u8);

impl Codes {
    pub fn code_in(self, range: OCDSCDRange) -> Result<u8, Error>
        ensures { as_number result ≡ in_range range self.0 self.1 }
    {
        match range {
            OCDSCDRange::Lower => Ok(self.0),
            OCDSCDRange::Upper => Ok(self.1),
            OCDSCDRange::Unknown => Err(Error::UnknownRange),
        }
    }
}
