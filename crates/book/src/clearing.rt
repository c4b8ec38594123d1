// Fresh: the words of the book become 0, then word 0 is set.
ghost use Rattle.std.specs.Prelude.{◌≡◌};
ghost use Rattle.apportion.specs.Refusals.{refusal_in};
ghost use Rattle.book.specs.Calls.{fresh_refusal, fresh_book};

use apportion::Refusal;

// Makes an empty book of any words.
#[tactic(auto, unfolding(crate::specs::Calls::fresh_book, crate::specs::Calls::fresh_refusal))]
pub fn fresh(book: &mut [u64]) -> Result<(), Refusal>
    ensures value { refusal_in result ≡ fresh_refusal book.old }
    ensures book_after { book.new ≡ fresh_book book.old }
{
    if book.len() < book_words::BOOK_LENGTH {
        return Err(Refusal::Unfit);
    }
    book[..book_words::BOOK_LENGTH].fill(0);
    book[0] = book_words::MARK;
    Ok(())
}
