// Loading a book from a file (document 01, "The file"): the header, the sections, and the records, each of which asks for a
// call.
#![tactic(auto)]

mod answers;
mod header;
mod loading;
mod numbers;
mod reading;
mod records;
mod tables;

pub use answers::{Load, Numbers, Place};
pub use loading::load;
pub use numbers::u64_at;
pub use reading::read_full;
