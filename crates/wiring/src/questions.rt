// The two questions: which inputs carry a pack's cells, and which cell sits on an input. Cells and inputs count from 1.
ghost use Rattle.std.specs.Prelude.{◌≡◌, ◌≤◌, length};
ghost use Rattle.wiring.specs.Packs.{of_pack};
ghost use Rattle.wiring.specs.Questions.{inputs_for, as_inputs, listed, cell_from, cell_on, as_cell_answer, as_allowed};
ghost use Rattle.refusals.specs.Refusal.{value};

use crate::tables;
use refusals::Error;

// As many inputs as the pack has cells, and 0 behind them.
#[tactic(auto, using(crate::proofs::Packs::asked, crate::proofs::Rows::few, crate::proofs::Rows::zeros_behind, crate::proofs::Rows::places), unfolding(crate::specs::Questions::inputs_for))]
pub fn inputs(x: u8, cells: u8) -> Result<[u8; 15], Error>
    ensures { as_inputs result ≡ listed (inputs_for x cells) }
{
    allowed(x, cells)?;
    let fitted = tables::fitted(x, cells);
    let mut inputs = [0; 15];
    inputs[..fitted.len()].copy_from_slice(fitted);
    Ok(inputs)
}

#[tactic(auto, using(crate::proofs::Packs::asked, crate::proofs::Rows::few), unfolding(crate::specs::Questions::cell_on))]
pub fn cell_on(x: u8, cells: u8, input: u8) -> Result<u8, Error>
    ensures { as_cell_answer result ≡ cell_on x cells input }
{
    allowed(x, cells)?;
    place(tables::fitted(x, cells), input)
}

// Where the input stands among these.
fn place(inputs: &[u8], input: u8) -> Result<u8, Error>
    requires { length inputs.now ≤ 15 }
    ensures { as_cell_answer result ≡ cell_from 1 inputs.now input }
{
    match inputs.iter().position(|&of_cell| input == of_cell) {
        Some(place) => Ok(place as u8 + 1),
        None => Err(Error::NoSuchInput),
    }
}

// 9, 10.
pub fn allowed(x: u8, cells: u8) -> Result<(), Error>
    ensures { as_allowed result ≡ of_pack x cells (value tt) }
{
    if !sizes::is_size(x) {
        return Err(Error::BadDevice);
    }
    if !sizes::is_count(x, cells) {
        return Err(Error::BadCellCount);
    }
    Ok(())
}
