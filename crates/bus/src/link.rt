// How a chip is spoken to.
ghost use Rattle.std.specs.Prelude.{◌≡◌};
ghost use Rattle.bus.specs.Raw.{sound};

// Its bus address, whether with check bytes, and its count of inputs.
#[derive(Clone, Copy, PartialEq, Eq)]
pub struct Link {
    pub address: u8,
    pub check: bool,
    pub x: u8,
}

impl Link {
    pub fn is_sound(self) -> bool
        ensures { result ≡ sound self }
    {
        (self.address <= 127) & sizes::is_size(self.x)
    }
}
