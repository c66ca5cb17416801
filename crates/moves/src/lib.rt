// The moves of the crate's `cell_voltages`, in its order: by X and the count alone, one cell goes over another.
#![tactic(auto)]

ghost use Rattle.std.specs.Prelude.{◌≡◌, pos};
ghost use Rattle.moves.specs.Moves.{moves, in_turn};

// In place, on the cells' numbers. With 15 cells nothing moves, and no test below is made.
pub fn in_turn(x: u8, cell_count: u8, cells: &mut [i32; 16])
    ensures { cells.new ≡ in_turn (pos 0) (moves x cell_count) cells.old }
{
    let cc = cell_count;
    if cc == 15 {
        return;
    }
    if (cc == 3) | (cc == 6) | (cc == 9) {
        cells[2] = cells[4];
    } else if (cc == 4) | (cc == 7) | (cc == 8) | (cc == 10) | (cc == 11) | (cc == 12) {
        cells[3] = cells[4];
    }
    if (x == sizes::BQ76930) | (x == sizes::BQ76940) {
        if (cc == 6) | (cc == 7) | (cc == 9) | (cc == 10) {
            cells[7] = cells[9];
        }
        if (cc == 8) | (cc == 9) | (cc == 11) | (cc == 12) | (cc == 13) {
            cells[8] = cells[9];
        }
    }
    if x == sizes::BQ76940 {
        if (cc == 9) | (cc == 10) | (cc == 11) {
            cells[12] = cells[14];
        }
        if (cc == 12) | (cc == 13) | (cc == 14) {
            cells[13] = cells[14];
        }
    }
}
