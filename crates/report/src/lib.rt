// The text of a statement sheet as bytes, and of a refusal (document 01, "The file": what the program prints).
#![tactic(auto)]

mod printing;
mod refusals;
mod sheets;
mod table;
mod text;

pub use printing::Unprinted;
pub use refusals::refusal_line;
pub use sheets::{SHEET_ROOM, sheet, sheet_sound};
pub use text::put_number;
