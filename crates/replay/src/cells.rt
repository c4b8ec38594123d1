// Operation 16: the cells of a line, from the bits of their doubles.
ghost use Rattle.std.specs.Prelude.{◌≡◌, ◌≤◌, ◌<◌, MatchResult};
ghost use Rattle.std.specs.Float.{binary64};
ghost use Rattle.std.specs.Float.Ieee.{of_bits};
ghost use Rattle.replay.specs.Cells.{cell_of};
ghost use Rattle.replay.specs.Inner.Operations.{cell_put};
ghost use Rattle.replay.specs.Stages.{stage_of, on_machine};

use crate::records::{BadRecord, Words};
use crate::state::State;
use workbook::Cell;

// The cells of a line.
pub const COUNT: usize = 3;

impl State {
    // Lists a cell, where there is room for it.
    pub fn list_cell(&mut self, cell: Cell)
        ensures stage_after { stage_of self.new ≡ on_machine (cell_put cell) (stage_of self.old) }
        ensures ok_after { self.new.output.ok ≡ self.old.output.ok }
    {
        if self.cells.try_push(cell).is_err() {
            self.set_bad();
        }
    }
}

// The cell of a form, 0 blank, 1 a number, 2 a span, and of the bits of its doubles.
impl TryFrom<Words> for Cell {
    type Error = BadRecord;

    ghost try_from_gives = { λ words result. MatchResult result (λ cell. words.first ≤ 2 × (cell ≡ cell_of words)) (λ bad. 2 < words.first) };

    fn try_from(words: Words) -> Result<Cell, BadRecord> {
        match words.first {
            0 => Ok(Cell::Blank),
            1 => Ok(Cell::Number(double(words.second))),
            2 => Ok(Cell::Span(double(words.second), double(words.third))),
            _ => Err(BadRecord),
        }
    }
}

// The weight of the sign (a constant of the format, which `workbook` has for itself too), and the bits of infinity: above these, without the sign, are those of the NaNs.
const SIGN: u64 = 1 << 63;

const INFINITY: u64 = 9_218_868_437_227_405_312;

// The double of these bits. Those of a NaN cannot be made into one, so a division makes it.
fn double(bits: u64) -> f64
    ensures { result ≡ of_bits binary64 bits }
{
    if bits % SIGN > INFINITY {
        return 0.0 / 0.0;
    }
    f64::from_bits(bits)
}
