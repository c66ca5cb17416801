// How long a fault stands before the chip acts on it.
ghost use Rattle.std.specs.Prelude.{◌≡◌};
ghost use Rattle.protection.specs.Delays.{scd_bits, ocd_bits, uv_bits, ov_bits, uv_seconds, ov_seconds};
ghost use Rattle.protection.specs.Delays.{scd_for, ocd_for, uv_for, ov_for};

use refusals::Error;

#[derive(Clone, Copy)]
pub enum SCDDelay {
    _70uS = 0,
    _100uS = 1,
    _200uS = 2,
    _400uS = 3,
}

#[derive(Clone, Copy)]
pub enum OCDDelay {
    _8ms = 0,
    _20ms = 1,
    _40ms = 2,
    _80ms = 3,
    _160ms = 4,
    _320ms = 5,
    _640ms = 6,
    _1280ms = 7,
}

#[derive(Clone, Copy)]
pub enum UVDelay {
    _1s = 0,
    _4s = 1,
    _8s = 2,
    _16s = 3,
}

#[derive(Clone, Copy)]
pub enum OVDelay {
    _1s = 0,
    _2s = 1,
    _4s = 2,
    _8s = 3,
}

// The datasheet's seconds, by code from 0.
const UV_SECONDS: [u8; 4] = [1, 4, 8, 16];

const OV_SECONDS: [u8; 4] = [1, 2, 4, 8];

impl SCDDelay {
    pub fn bits(self) -> u8
        ensures { result ≡ scd_bits self }
    {
        self as u8 * 8
    }
}

// By its code.
impl TryFrom<u8> for SCDDelay {
    type Error = Error;

    ghost try_from_gives = { scd_for };

    fn try_from(code: u8) -> Result<Self, Error> {
        match code {
            0 => Ok(SCDDelay::_70uS),
            1 => Ok(SCDDelay::_100uS),
            2 => Ok(SCDDelay::_200uS),
            3 => Ok(SCDDelay::_400uS),
            _ => Err(Error::BadTape),
        }
    }
}

impl OCDDelay {
    pub fn bits(self) -> u8
        ensures { result ≡ ocd_bits self }
    {
        self as u8 * 16
    }
}

// By its code.
impl TryFrom<u8> for OCDDelay {
    type Error = Error;

    ghost try_from_gives = { ocd_for };

    fn try_from(code: u8) -> Result<Self, Error> {
        match code {
            0 => Ok(OCDDelay::_8ms),
            1 => Ok(OCDDelay::_20ms),
            2 => Ok(OCDDelay::_40ms),
            3 => Ok(OCDDelay::_80ms),
            4 => Ok(OCDDelay::_160ms),
            5 => Ok(OCDDelay::_320ms),
            6 => Ok(OCDDelay::_640ms),
            7 => Ok(OCDDelay::_1280ms),
            _ => Err(Error::BadTape),
        }
    }
}

impl UVDelay {
    pub fn bits(self) -> u8
        ensures { result ≡ uv_bits self }
    {
        self as u8 * 64
    }

    pub fn seconds(self) -> u8
        ensures { result ≡ uv_seconds self }
    {
        UV_SECONDS[self as usize]
    }
}

// By its code.
impl TryFrom<u8> for UVDelay {
    type Error = Error;

    ghost try_from_gives = { uv_for };

    fn try_from(code: u8) -> Result<Self, Error> {
        match code {
            0 => Ok(UVDelay::_1s),
            1 => Ok(UVDelay::_4s),
            2 => Ok(UVDelay::_8s),
            3 => Ok(UVDelay::_16s),
            _ => Err(Error::BadTape),
        }
    }
}

impl OVDelay {
    pub fn bits(self) -> u8
        ensures { result ≡ ov_bits self }
    {
        self as u8 * 16
    }

    pub fn seconds(self) -> u8
        ensures { result ≡ ov_seconds self }
    {
        OV_SECONDS[self as usize]
    }
}

// By its code.
impl TryFrom<u8> for OVDelay {
    type Error = Error;

    ghost try_from_gives = { ov_for };

    fn try_from(code: u8) -> Result<Self, Error> {
        match code {
            0 => Ok(OVDelay::_1s),
            1 => Ok(OVDelay::_2s),
            2 => Ok(OVDelay::_4s),
            3 => Ok(OVDelay::_8s),
            _ => Err(Error::BadTape),
        }
    }
}
