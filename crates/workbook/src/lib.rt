// Lines of old workbooks (document 02, (iii)): three cells, and what they are posted as. Knows no book.
#![tactic(auto)]

mod cells;
mod doubles;
mod lines;

pub use cells::Cell;
pub use lines::{Line, convert};
