// A line, and what it is posted with.
ghost use Rattle.std.specs.Prelude.{◌≡◌};
ghost use Rattle.workbook.specs.Lines.{line_conversion_in, converted_line};

use crate::cells;
use crate::cells::Cell;
use apportion::Refusal;

// The limits: 10^9 for a quantity, 10^7 for a factor.
const QUANTITY_LIMIT: u32 = 1_000_000_000;

const FACTOR_LIMIT: u32 = 10_000_000;

// Of cells, in units and in grams per unit; of what they become, in thousandths of these.
#[derive(Clone, Copy)]
pub struct Line<T> {
    pub quantity: T,
    pub operation_factor: T,
    pub provision_factor: T,
}

// Converts the cells of a line, from the left.
pub fn convert(line: Line<Cell>) -> Result<Line<u64>, Refusal>
    ensures { line_conversion_in result ≡ converted_line line }
{
    let quantity = cells::convert_cell(line.quantity, QUANTITY_LIMIT)?;
    let operation_factor = cells::convert_cell(line.operation_factor, FACTOR_LIMIT)?;
    let provision_factor = cells::convert_cell(line.provision_factor, FACTOR_LIMIT)?;
    Ok(Line {
        quantity,
        operation_factor,
        provision_factor,
    })
}
