// Sum, lowest and highest of a pack's cells.
ghost use Rattle.std.specs.Prelude.{◌≡◌, ◌≤◌, length};
ghost use Rattle.bq769x0.specs.Figures.{spread_of};
ghost use Rattle.cells.specs.Inside.{Small};

use bq769x0::Spread;
use units::MilliVolts;

// Of at least one cell, each small.
#[inline(always)]
pub(crate) fn spread_of(millivolts: &[i32]) -> Spread
    requires { (1 ≤ length millivolts.now) × (length millivolts.now ≤ 15) × Small (length millivolts.now) millivolts.now }
    ensures { result ≡ spread_of millivolts.now }
{
    let first = millivolts[0];
    let mut sum = first;
    let mut lowest = first;
    let mut highest = first;
    for &mv in &millivolts[1..] {
        sum += mv;
        lowest = lowest.min(mv);
        highest = highest.max(mv);
    }
    Spread {
        sum: MilliVolts(sum),
        lowest: MilliVolts(lowest),
        highest: MilliVolts(highest),
    }
}
