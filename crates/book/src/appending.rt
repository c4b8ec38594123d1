// Appended records: every word of the record is written, and the record is counted. An entry or an element is appended only
// where ground 10 does not hold.
ghost use Rattle.std.specs.Prelude.{true, ◌≡◌, ◌≤◌, ◌<◌, ◌+◌, ℕ, List, length};
ghost use Rattle.apportion.specs.Grounds.{accepted};
ghost use Rattle.book_words.specs.Book.{book_length, count_of, appended};
ghost use Rattle.book_words.specs.Soundness.{sound};
ghost use Rattle.book_words.specs.Totals.{sums_of, within_limits};
ghost use Rattle.book_words.specs.declared.totals.Sums.{Sums};
ghost use Rattle.book.specs.Replies.{reply_of, reply_in};
ghost use Rattle.book.specs.Inner.Appending.{ten_of};
ghost use Rattle.book_words.proofs.SumsAfterWrite.{entry-counted, element-counted};

use crate::sound_books::SoundBook;
use apportion::Refusal;
use book_words::{Element, Entry, Record, Summed};

// Appends a record and answers its number.
pub fn append<R: Record>(book: &mut [u64], added: R) -> u64
    requires { (book_length ≤ length book.old) × (count_of book.old R.LIST < R.MOST) }
    ensures value { result ≡ count_of book.old R.LIST + 1 }
    ensures book_after { book.new ≡ appended book.old R.LIST (R.words_of added) }
{
    let list = R::LIST;
    let count = book[list.counter];
    let start = list.first + list.width * (count as usize);
    added.write(&mut book[start..start + list.width]);
    book[list.counter] = count + 1;
    count + 1
}

// The sums with a record are those of the book that it is appended to. A law apart, as `book_words` proves it: a `ghost use` cites no
// proof of its own crate.
pub trait Counted: Summed {
    ghost counted_with: { (ws : List ℕ) (sums : Sums) (r : Self) → (sound ws ≡ true) × ((sums ≡ sums_of ws) × (count_of ws Self.LIST < Self.MOST))
        → sums_of (appended ws Self.LIST (Self.words_of r)) ≡ Self.with_record sums r };
}

impl Counted for Entry {
    ghost counted_with = { λ ws sums r. entry-counted ws sums r };
}

impl Counted for Element {
    ghost counted_with = { λ ws sums r. element-counted ws sums r };
}

impl SoundBook<'_> {
    // Appends a record with which the book stays sound, unless the sums with it would pass their limits.
    pub(crate) fn admit<R: Counted>(&mut self, added: R) -> Result<u64, Refusal>
        requires book_bound { count_of self.old.words.now R.LIST < R.MOST }
        requires suits { within_limits (R.with_record (sums_of self.old.words.now) added) ≡ true
            → sound (appended self.old.words.now R.LIST (R.words_of added)) ≡ true }
        ensures value { reply_in result ≡ reply_of (ten_of (R.with_record (sums_of self.old.words.now) added)) (count_of self.old.words.now R.LIST + 1) }
        ensures book_after { self.new.words.now
            ≡ accepted (ten_of (R.with_record (sums_of self.old.words.now) added)) (appended self.old.words.now R.LIST (R.words_of added)) self.old.words.now }
        ensures same_words { self.new.words.ghost_name ≡ self.old.words.ghost_name }
    {
        let after = added.capped_with(self.sums);
        if !book_words::are_within(after) {
            return Err(Refusal::TooLarge);
        }
        let number = append(self.words, added);
        self.sums = after;
        Ok(number)
    }
}
