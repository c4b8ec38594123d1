// Post: appends an entry.
ghost use Rattle.std.specs.Prelude.{◌≡◌};
ghost use Rattle.apportion.specs.Grounds.{first_of};
ghost use Rattle.apportion.specs.Inner.Grounds.{grounds_before};
ghost use Rattle.apportion.specs.Refusals.{refusal_in};
ghost use Rattle.book.specs.Inner.Appending.{cap_amounts};
ghost use Rattle.book.specs.Calls.{post_reply, post_book, post_grounds, posted_entry};
ghost use Rattle.book.specs.Replies.{reply_in};

use crate::arguments::PostArguments;
use crate::sound_books::SoundBook;
use apportion::{Refusal, first_of};
use book_words::{Category, Entry, Record, SoundWords};

// The largest quantity, 10^12 thousandths of a unit.
const MOST_QUANTITY: u64 = 1_000_000_000_000;

// The largest factor, 10^10 mg per unit.
const MOST_FACTOR: u64 = 10_000_000_000;

// Posts quantity × factor to a category and group, and answers the entry's number.
#[tactic(auto, unfolding(crate::specs::Calls::post_refusal, crate::specs::Calls::post_reply, crate::specs::Calls::post_book))]
pub fn post(book: &mut [u64], p: PostArguments) -> Result<u64, Refusal>
    ensures value { reply_in result ≡ post_reply book.old p }
    ensures book_after { book.new ≡ post_book book.old p }
{
    let sums = SoundWords::tested(book)?.sums();
    SoundBook { words: book, sums }.post(p)
}

// Here and in enrolling.rt and quoting.rt: the calls differ in their grounds and their record, and share `admit`. A trait of their arguments
// would have both as ghosts, and two laws: that the record decides as it does capped, and that the book stays sound; it would be longer
// than the bodies, of two and three lines.
impl SoundBook<'_> {
    // The same, and the book goes on to other calls.
    pub fn post(&mut self, p: PostArguments) -> Result<u64, Refusal>
        ensures value { reply_in result ≡ post_reply self.old.words.now p }
        ensures book_after { self.new.words.now ≡ post_book self.old.words.now p }
        ensures same_words { self.new.words.ghost_name ≡ self.old.words.ghost_name }
    {
        let words = &mut *self.words;
        check_grounds(&SoundWords::of(words), p)?;
        self.admit(posted(p))
    }
}

// The grounds before 10.
fn check_grounds(book: &SoundWords, p: PostArguments) -> Result<(), Refusal>
    ensures { refusal_in result ≡ first_of (grounds_before 10 (post_grounds book.now p)) }
{
    let category = book
        .numbered::<Category>(p.category)
        .ok_or(Refusal::Unnumbered)?;
    let entries = book.count::<Entry>();
    let unknown = !book_words::is_group(p.group);
    let closed = category.has_closed();
    let unsuited = book_words::unsuited_group(category.kind, p.group);
    let out_of_range = !((p.quantity <= MOST_QUANTITY)
        & (p.operation_factor <= MOST_FACTOR)
        & (p.provision_factor <= MOST_FACTOR));
    let full = Entry::MOST <= entries;
    first_of(&[
        (Refusal::Unknown, unknown),
        (Refusal::Closed, closed),
        (Refusal::Unsuited, unsuited),
        (Refusal::OutOfRange, out_of_range),
        (Refusal::Full, full),
    ])
}

// The entry that a post appends, its amounts capped.
fn posted(p: PostArguments) -> Entry
    ensures { result ≡ cap_amounts (posted_entry p) }
{
    Entry {
        category: p.category,
        group: p.group,
        operation: book_words::multiply(p.quantity, p.operation_factor),
        provision: book_words::multiply(p.quantity, p.provision_factor),
        struck: 0,
    }
}
