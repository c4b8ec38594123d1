// The calls of a book of transport emissions (document 01, "Calls").
#![tactic(auto)]

mod appending;
mod arguments;
mod clearing;
mod closing;
mod enrolling;
mod intensities;
mod lines;
mod opening;
mod posting;
mod previews;
mod quoting;
mod replies;
mod sound_books;
mod statements;
mod striking;
mod walks;

pub use apportion::Refusal;
pub use arguments::{EnrolArguments, LineArguments, PostArguments, QuoteArguments};
pub use book_shares::{Intensity, close_sound};
pub use clearing::fresh;
pub use closing::close;
pub use enrolling::enrol;
pub use intensities::intensity;
pub use lines::post_line;
pub use opening::{open, open_sound};
pub use posting::post;
pub use previews::preview;
pub use quoting::quote;
pub use replies::Statement;
pub use sound_books::SoundBook;
pub use statements::statement;
pub use striking::strike;
pub use walks::{Held, NOTHING, walk_on};
