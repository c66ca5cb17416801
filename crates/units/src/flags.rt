// SYS_STAT (00): `Stat` is what was read of it, `SysStat` a set of its flags.
ghost use Rattle.std.specs.Prelude.{◌≡◌, ◌/◌, ◌%◌, ◌<◌, eqb};
ghost use Rattle.std.specs.Int.Bits.{bit_or};
ghost use Rattle.units.specs.Flags.{bit, is_ok, all_flags};

#[derive(Clone, Copy)]
pub struct Stat {
    pub bits: u8,
}

#[derive(Clone, Copy)]
pub struct SysStat {
    pub bits: u8,
}

impl SysStat {
    pub const CC_READY: SysStat = SysStat { bits: 0b1000_0000 };

    pub const DEVICE_XREADY: SysStat = SysStat { bits: 0b0010_0000 };

    pub const OVRD_ALERT: SysStat = SysStat { bits: 0b0001_0000 };

    pub const UNDERVOLTAGE: SysStat = SysStat { bits: 0b0000_1000 };

    pub const OVERVOLTAGE: SysStat = SysStat { bits: 0b0000_0100 };

    pub const SHORTCIRCUIT: SysStat = SysStat { bits: 0b0000_0010 };

    pub const OVERCURRENT: SysStat = SysStat { bits: 0b0000_0001 };

    pub const ALL: SysStat = SysStat { bits: 0b1011_1111 };

    pub fn all() -> SysStat
        ensures { result.bits ≡ all_flags }
    {
        SysStat::ALL
    }

    pub fn bits(self) -> u8
        ensures { result ≡ self.bits }
    {
        self.bits
    }

    pub fn union(self, other: SysStat) -> SysStat
        ensures { result.bits ≡ bit_or self.bits other.bits }
    {
        SysStat {
            bits: self.bits | other.bits,
        }
    }

    // Bit 6, which is no flag.
    pub fn has_reserved(self) -> bool
        ensures { result ≡ bit 6 self.bits }
    {
        self.bits / 0b0100_0000 % 2 == 1
    }
}

// A flag of `Stat` is tested by the constant of `SysStat`, so that the promise holds the constant too.
impl Stat {
    fn has(self, flag: SysStat) -> bool
        requires { 0 < flag.bits }
        ensures { result ≡ eqb (self.bits / flag.bits % 2) 1 }
    {
        self.bits / flag.bits % 2 == 1
    }

    pub fn cc_ready_is_set(self) -> bool
        ensures { result ≡ bit 7 self.bits }
    {
        self.has(SysStat::CC_READY)
    }

    pub fn device_xready_is_set(self) -> bool
        ensures { result ≡ bit 5 self.bits }
    {
        self.has(SysStat::DEVICE_XREADY)
    }

    pub fn ovrd_alert_is_set(self) -> bool
        ensures { result ≡ bit 4 self.bits }
    {
        self.has(SysStat::OVRD_ALERT)
    }

    pub fn undervoltage_is_set(self) -> bool
        ensures { result ≡ bit 3 self.bits }
    {
        self.has(SysStat::UNDERVOLTAGE)
    }

    pub fn overvoltage_is_set(self) -> bool
        ensures { result ≡ bit 2 self.bits }
    {
        self.has(SysStat::OVERVOLTAGE)
    }

    pub fn scd_is_set(self) -> bool
        ensures { result ≡ bit 1 self.bits }
    {
        self.has(SysStat::SHORTCIRCUIT)
    }

    pub fn ocd_is_set(self) -> bool
        ensures { result ≡ bit 0 self.bits }
    {
        self.has(SysStat::OVERCURRENT)
    }

    pub fn is_ok(self) -> bool
        ensures { result ≡ is_ok self.bits }
    {
        self.bits % 64 == 0
    }
}
