// A cell, and its conversion.
ghost use Rattle.std.specs.Prelude.{◌≡◌};
ghost use Rattle.workbook.specs.declared.cells.Cell.TheVariants.{Span};
ghost use Rattle.workbook.specs.Cells.{mean};
ghost use Rattle.workbook.specs.Inner.Steps.{conversion_in, conversion_of};

use crate::doubles;
use apportion::{Refusal, added_by_rounding};

#[derive(Clone, Copy, Default)]
pub enum Cell {
    #[default]
    Blank,
    Number(f64),
    Span(f64, f64),
}

// The two doubles of a span.
#[derive(Clone, Copy)]
pub struct Ends {
    pub first: f64,
    pub second: f64,
}

// The thousandths that a cell with this limit becomes.
#[tactic(auto, unfolding(crate::specs::Inner::Steps::conversion_of))]
pub fn convert_cell(cell: Cell, limit: u32) -> Result<u64, Refusal>
    ensures { conversion_in result ≡ conversion_of limit cell }
{
    match cell {
        Cell::Blank => Err(Refusal::WrongCell),
        Cell::Number(x) => doubles::convert_double(x, limit),
        Cell::Span(first, second) => convert_span(Ends { first, second }, limit),
    }
}

// Those of a span.
fn convert_span(span: Ends, limit: u32) -> Result<u64, Refusal>
    ensures { conversion_in result ≡ conversion_of limit (Span span.first span.second) }
{
    let low = doubles::convert_double(span.first, limit)?;
    let high = doubles::convert_double(span.second, limit)?;
    if span.second < span.first {
        return Err(Refusal::ReversedSpan);
    }
    Ok(mean(low, high))
}

// (a + b) / 2, nearest, halves to even.
fn mean(a: u64, b: u64) -> u64
    ensures { result ≡ mean a b }
{
    let rest = a % 2 + b % 2;
    let quotient = a.midpoint(b);
    quotient + added_by_rounding(quotient, rest % 2, 2)
}
