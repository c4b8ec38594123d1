// The shares of a category (document 01, "Close" and "Intensity"; document 02, a preview): the pools of its
// unstruck entries, the activities that they are divided by, and what each element gets.
#![tactic(auto)]

mod closings;
mod handing_out;
mod intensities;
mod listing;
mod pools;
mod previews;
mod sharing;
mod weights;

pub use closings::close_sound;
pub use intensities::{Intensity, intensity_sound};
pub use previews::preview_sound;
