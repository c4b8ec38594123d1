// A lent book that is known to be sound, with the sums of ground 10: many calls can be made on it after one test.
// Each method promises `same_words`: without it, it could put another slice into the field, and nothing would be said of the caller's.
// Where a call first reads the words, it takes them as `&mut *self.words`: a part of `self` that is lent by `&` loses what is known of it.
ghost use Rattle.std.specs.Prelude.{true, ◌≡◌};
ghost use Rattle.book_words.specs.Soundness.{sound};
ghost use Rattle.book_words.specs.Totals.{sums_of};

use book_words::Sums;

#[derive(Drop)]
pub struct SoundBook<'a> {
    pub words: &'a mut [u64],
    // The sums of the book, which a call that appends goes on with.
    pub sums: Sums,
    ghost sound: { sound words.now ≡ true },
    ghost counted: { sums ≡ sums_of words.now },
}
