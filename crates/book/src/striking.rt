// Strike: sets an entry's struck word.
ghost use Rattle.std.specs.Prelude.{true, ◌≡◌};
ghost use Rattle.book_words.specs.Soundness.{sound};
ghost use Rattle.apportion.specs.Refusals.{refusal_in};
ghost use Rattle.book.specs.Calls.{strike_refusal, strike_book};

use apportion::{Refusal, first_of};
use book_words::{Category, Entry, STRUCK_WORD, SoundWords, set_word};

// Strikes the entry of this number.
#[tactic(auto, unfolding(crate::specs::Calls::strike_refusal, crate::specs::Calls::strike_book))]
pub fn strike(book: &mut [u64], entry: u64) -> Result<(), Refusal>
    ensures value { refusal_in result ≡ strike_refusal book.old entry }
    ensures book_after { book.new ≡ strike_book book.old entry }
{
    let words = SoundWords::tested(book)?;
    check_grounds(&words, entry)?;
    set_word::<Entry>(book, entry, STRUCK_WORD, 1);
    Ok(())
}

// The grounds of a strike.
#[tactic(auto, unfolding(crate::specs::Calls::strike_refusal))]
fn check_grounds(book: &SoundWords, entry: u64) -> Result<(), Refusal>
    ensures { refusal_in result ≡ strike_refusal book.now entry }
{
    let e = book.numbered::<Entry>(entry).ok_or(Refusal::Unnumbered)?;
    // An entry of a sound book is of a category that is there.
    let category = book.numbered::<Category>(e.category).unwrap();
    let closed = category.has_closed() | e.is_struck();
    first_of(&[(Refusal::Closed, closed)])
}
