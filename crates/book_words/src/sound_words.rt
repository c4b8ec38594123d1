// The words of a book that is known to be sound and is only read: the fact is in the type, and no contract asks it. A `Model` and no ghost
// field, so that a reader's clauses say `book.now` and not `book.now.words.now`.
ghost use Rattle.std.specs.Prelude.{true, ◌≡◌, ◌<◌, cond, Ok, Err};
ghost use Rattle.apportion.specs.declared.refusing.Refusal.TheVariants.{Unfit};
ghost use Rattle.book_words.specs.Book.{count_of, elements};
ghost use Rattle.book_words.specs.Inner.Steps.{numbered};
ghost use Rattle.book_words.specs.Mixture.{mixes};
ghost use Rattle.book_words.specs.Soundness.{sound};
ghost use Rattle.book_words.specs.Totals.{sums_of};

use crate::counted_words::CountedWords;
use crate::records::{Element, Record};
use crate::soundness::is_sound;
use crate::totals::Sums;
use crate::{measures, totals};
use apportion::Refusal;
use std::marker::Model;

#[derive(Drop)]
pub struct SoundWords<'a> {
    words: CountedWords<'a>,
}

impl<'a> Model for SoundWords<'a> {
    // Lines of its own: with the file's the struct would depend on itself.
    ghost use Rattle.std.specs.Prelude.{◌≡◌, true, List, ℕ};
    ghost use Rattle.book_words.specs.Soundness.{sound};

    ghost Value = { List ℕ };

    ghost view = { λ s. s.words };

    ghost invariant = { λ s. sound s.words ≡ true };
}

impl<'a> SoundWords<'a> {
    // Those of a book that is known to be sound.
    pub fn of(words: &'a [u64]) -> SoundWords<'a>
        requires { sound words.now ≡ true }
        ensures { result ≡ words.now }
    {
        SoundWords {
            words: CountedWords::of(words),
        }
    }

    // Those of any book, if it is sound.
    pub fn tested(words: &'a [u64]) -> Result<SoundWords<'a>, Refusal>
        ensures { result ≡ cond (sound words.now) (Ok words.now) (Err Unfit) }
    {
        if is_sound(words) {
            Ok(SoundWords::of(words))
        } else {
            Err(Refusal::Unfit)
        }
    }

    // How many records a list has. A clause sees the words alone, so a reader also says that they are sound.
    pub fn count<R: Record>(&self) -> u64
        ensures value { result ≡ count_of self.now R.LIST }
        ensures book { sound self.now ≡ true }
    {
        self.words.count::<R>()
    }

    // The record of this number.
    pub fn numbered<R: Record>(&self, number: u64) -> Option<R>
        ensures value { result ≡ numbered (count_of self.now R.LIST) (R.record_at self.now) number }
        ensures book { sound self.now ≡ true }
    {
        self.words.numbered(number)
    }

    // The record at a place that is counted.
    pub fn record_at<R: Record>(&self, place: usize) -> R
        requires { place < count_of self.now R.LIST }
        ensures value { result ≡ R.record_at self.now place }
        ensures book { sound self.now ≡ true }
    {
        self.words.record_at(place)
    }

    // The sums of ground 10.
    pub fn sums(&self) -> Sums
        ensures { result ≡ sums_of self.now }
    {
        // The sums of a sound book are not capped.
        totals::capped_sums(&self.words)
    }

    // An element of this category, code and kg per head would come behind passengers of its category that are
    // weighed where it is not, or the reverse. These are alike, and the first of them tells.
    #[tactic(auto, unfolding(crate::specs::Mixture::mixes))]
    pub fn mixes(&self, category: u64, code: u64, kg_per_head: u64) -> bool
        ensures { result ≡ mixes self.now (elements self.now) category code kg_per_head }
    {
        if !measures::is_passenger(code) {
            return false;
        }
        for place in 0..self.count::<Element>() as usize {
            let r: Element = self.record_at(place);
            if measures::is_passenger(r.code) && r.category == category {
                return measures::is_weighed(r.kg_per_head) != measures::is_weighed(kg_per_head);
            }
        }
        false
    }
}
