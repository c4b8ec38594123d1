// Open: appends a category.
ghost use Rattle.std.specs.Prelude.{true, ◌≡◌};
ghost use Rattle.book_words.specs.Soundness.{sound};
ghost use Rattle.apportion.specs.Refusals.{refusal_in};
ghost use Rattle.book.specs.Calls.{open_reply, open_book, open_refusal};
ghost use Rattle.book.specs.Replies.{reply_in};

use crate::appending;
use crate::sound_books::SoundBook;
use apportion::{Refusal, first_of};
use book_words::{Category, Record, SoundWords};

// Opens a category of this kind, and answers its number.
#[tactic(auto, unfolding(crate::specs::Calls::open_refusal, crate::specs::Calls::open_reply, crate::specs::Calls::open_book))]
pub fn open(book: &mut [u64], kind: u64) -> Result<u64, Refusal>
    ensures value { reply_in result ≡ open_reply book.old kind }
    ensures book_after { book.new ≡ open_book book.old kind }
{
    SoundWords::tested(book)?;
    open_sound(book, kind)
}

// The same on a book that is known to be sound: an opening needs no sums, so it is made on the words, and a caller who has none can make it.
pub fn open_sound(book: &mut [u64], kind: u64) -> Result<u64, Refusal>
    requires { sound book.old ≡ true }
    ensures value { reply_in result ≡ open_reply book.old kind }
    ensures book_after { book.new ≡ open_book book.old kind }
{
    check_grounds(&SoundWords::of(book), kind)?;
    Ok(appending::append(book, Category { kind, closed: 0 }))
}

impl SoundBook<'_> {
    // The same, and the book goes on to other calls.
    pub fn open(&mut self, kind: u64) -> Result<u64, Refusal>
        ensures value { reply_in result ≡ open_reply self.old.words.now kind }
        ensures book_after { self.new.words.now ≡ open_book self.old.words.now kind }
        ensures same_words { self.new.words.ghost_name ≡ self.old.words.ghost_name }
    {
        open_sound(self.words, kind)
    }
}

// The grounds of an opening.
#[tactic(auto, unfolding(crate::specs::Calls::open_refusal))]
fn check_grounds(book: &SoundWords, kind: u64) -> Result<(), Refusal>
    ensures { refusal_in result ≡ open_refusal book.now kind }
{
    let categories = book.count::<Category>();
    let unknown = !book_words::is_kind(kind);
    let full = Category::MOST <= categories;
    first_of(&[(Refusal::Unknown, unknown), (Refusal::Full, full)])
}
