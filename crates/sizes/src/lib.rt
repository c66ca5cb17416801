// The devices: the count of a device's inputs, and the counts of cells that a pack on it may have.
#![tactic(auto)]

ghost use Rattle.std.specs.Prelude.{◌≡◌};
ghost use Rattle.sizes.specs.Sizes.{is_size, is_count};

pub const BQ76920: u8 = 5;

pub const BQ76930: u8 = 10;

pub const BQ76940: u8 = 15;

pub fn is_size(x: u8) -> bool
    ensures { result ≡ is_size x }
{
    matches!(x, BQ76920 | BQ76930 | BQ76940)
}

pub fn is_count(x: u8, cells: u8) -> bool
    ensures { result ≡ is_count x cells }
{
    match x {
        BQ76920 => (3..=5).contains(&cells),
        BQ76930 => (6..=10).contains(&cells),
        BQ76940 => (9..=15).contains(&cells),
        _ => false,
    }
}
