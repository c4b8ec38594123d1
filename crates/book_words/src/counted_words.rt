// The words of a book whose counts are within their limits, and which are only read: the fact is in the type, and no contract asks it.
ghost use Rattle.std.specs.Prelude.{◌≡◌, ◌<◌, cond, Some, None};
ghost use Rattle.book_words.specs.Book.{count_of};
ghost use Rattle.book_words.specs.Inner.Steps.{CountsWithin, numbered};
ghost use Rattle.book_words.specs.Soundness.{header_fine};

use crate::records;
use crate::records::{Category, Element, Entry, Record};
use std::marker::Model;

#[derive(Drop)]
pub struct CountedWords<'a> {
    words: &'a [u64],
}

impl<'a> Model for CountedWords<'a> {
    // Lines of its own: with the file's the struct would depend on itself.
    ghost use Rattle.std.specs.Prelude.{List, ℕ};
    ghost use Rattle.book_words.specs.Inner.Steps.{CountsWithin};

    ghost Value = { List ℕ };

    ghost view = { λ s. s.words.now };

    ghost invariant = { λ s. CountsWithin s.words.now };
}

impl<'a> CountedWords<'a> {
    // Those of a book whose counts are known to be within their limits.
    pub fn of(words: &'a [u64]) -> CountedWords<'a>
        requires { CountsWithin words.now }
        ensures { result ≡ words.now }
    {
        CountedWords { words }
    }

    // Those of any book, if its length, word 0 and the counts are as they should be.
    #[tactic(auto, unfolding(crate::specs::Soundness::header_fine))]
    pub fn tested(words: &'a [u64]) -> Option<CountedWords<'a>>
        ensures { result ≡ cond (header_fine words.now) (Some words.now) None }
    {
        let fine = records::BOOK_LENGTH <= words.len()
            && words[0] == records::MARK
            && words[records::CATEGORIES] <= Category::MOST
            && words[records::ENTRIES] <= Entry::MOST
            && words[records::ELEMENTS] <= Element::MOST;
        if fine {
            Some(CountedWords::of(words))
        } else {
            None
        }
    }

    // How many records a list has. Walks go by the numbers of these, as the definitions count places: there is no slice of records to iterate
    // over. A clause sees the words alone, so a reader also says what the type says of them.
    pub fn count<R: Record>(&self) -> u64
        ensures value { result ≡ count_of self.now R.LIST }
        ensures book { CountsWithin self.now }
    {
        self.words[R::LIST.counter]
    }

    // The record of this number.
    pub fn numbered<R: Record>(&self, number: u64) -> Option<R>
        ensures { result ≡ numbered (count_of self.now R.LIST) (R.record_at self.now) number }
    {
        // Not by `then`: in its closure the test is not known.
        if (1..=self.count::<R>()).contains(&number) {
            Some(self.record_at(number as usize - 1))
        } else {
            None
        }
    }

    // The record at a place that is counted.
    pub fn record_at<R: Record>(&self, place: usize) -> R
        requires { place < count_of self.now R.LIST }
        ensures value { result ≡ R.record_at self.now place }
        ensures book { CountsWithin self.now }
    {
        R::read(self.words, place)
    }
}
