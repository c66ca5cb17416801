// The inputs of a pack's cells, bottom of the pack first; none for a pack that the device does not allow.
ghost use Rattle.std.specs.Prelude.{◌≡◌};
ghost use Rattle.wiring.specs.Tables.{fitted};

use sizes::{BQ76920, BQ76930, BQ76940};

#[tactic(auto, unfolding(crate::specs::Tables::fitted))]
pub fn fitted(x: u8, cells: u8) -> &'static [u8]
    ensures { result.now ≡ fitted x cells }
{
    match (x, cells) {
        (BQ76920, 3) => &[1, 2, 5],
        (BQ76920, 4) => &[1, 2, 3, 5],
        (BQ76920, 5) => &[1, 2, 3, 4, 5],
        (BQ76930, 6) => &[1, 2, 5, 6, 7, 10],
        (BQ76930, 7) => &[1, 2, 3, 5, 6, 7, 10],
        (BQ76930, 8) => &[1, 2, 3, 5, 6, 7, 8, 10],
        (BQ76930, 9) => &[1, 2, 3, 4, 5, 6, 7, 8, 10],
        (BQ76930, 10) => &[1, 2, 3, 4, 5, 6, 7, 8, 9, 10],
        (BQ76940, 9) => &[1, 2, 5, 6, 7, 10, 11, 12, 15],
        (BQ76940, 10) => &[1, 2, 3, 5, 6, 7, 10, 11, 12, 15],
        (BQ76940, 11) => &[1, 2, 3, 5, 6, 7, 8, 10, 11, 12, 15],
        (BQ76940, 12) => &[1, 2, 3, 5, 6, 7, 8, 10, 11, 12, 13, 15],
        (BQ76940, 13) => &[1, 2, 3, 4, 5, 6, 7, 8, 10, 11, 12, 13, 15],
        (BQ76940, 14) => &[1, 2, 3, 4, 5, 6, 7, 8, 9, 10, 11, 12, 13, 15],
        (BQ76940, 15) => &[1, 2, 3, 4, 5, 6, 7, 8, 9, 10, 11, 12, 13, 14, 15],
        _ => &[],
    }
}
