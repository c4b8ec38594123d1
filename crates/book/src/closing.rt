// Close: the pools of a category are handed out.
ghost use Rattle.std.specs.Prelude.{◌≡◌};
ghost use Rattle.apportion.specs.Refusals.{refusal_in};
ghost use Rattle.book_shares.specs.Closing.{close_refusal, close_book};

use crate::sound_books::SoundBook;
use apportion::Refusal;
use book_words::SoundWords;

// Closes the category of this number.
#[tactic(auto, unfolding(book_shares::specs::Closing::close_refusal, book_shares::specs::Closing::close_book))]
pub fn close(book: &mut [u64], category: u64) -> Result<(), Refusal>
    ensures value { refusal_in result ≡ close_refusal book.old category }
    ensures book_after { book.new ≡ close_book book.old category }
{
    SoundWords::tested(book)?;
    book_shares::close_sound(book, category)
}

impl SoundBook<'_> {
    // The same, and the book goes on to other calls.
    pub fn close(&mut self, category: u64) -> Result<(), Refusal>
        ensures value { refusal_in result ≡ close_refusal self.old.words.now category }
        ensures book_after { self.new.words.now ≡ close_book self.old.words.now category }
        ensures same_words { self.new.words.ghost_name ≡ self.old.words.ghost_name }
    {
        book_shares::close_sound(self.words, category)
    }
}
