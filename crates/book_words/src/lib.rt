// The words of a book (document 01, "The book"): its records, the sums over them, and the test of its
// soundness. What the calls of the crate above are made of.
#![tactic(auto)]

mod counted_words;
mod measures;
mod mixture;
mod records;
mod sound_words;
mod soundness;
mod totals;

pub use measures::{
    MOST_CHAINS, activity, is_amount, is_chain, is_code, is_distance, is_distance_in, is_freight,
    is_group, is_hub, is_kg_per_head, is_kind, is_mass, is_passenger, mass_per_head, unsuited,
    unsuited_group,
};
pub use records::{
    BOOK_LENGTH, CATEGORIES, CLOSED_WORD, Category, ELEMENTS, ENTRIES, Element, Entry, Layout,
    MARK, OPERATION_SHARE_WORD, PROVISION_SHARE_WORD, Record, STRUCK_WORD, set_word,
};
pub use sound_words::SoundWords;
pub use soundness::is_sound;
pub use totals::{Amounts, Side, Summed, Sums, add, are_within, capped, multiply};
