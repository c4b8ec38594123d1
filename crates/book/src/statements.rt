// Statement: what the elements of a chain got, in one walk over the elements.
ghost use Rattle.std.specs.Prelude.{◌≡◌};
ghost use Rattle.book.specs.Statements.{statement_of, statement_reply, statement_reply_in, reply_with};

use crate::replies::Statement;
use crate::walks;
use apportion::Refusal;
use book_words::{Element, SoundWords};

// The statement of a chain.
#[tactic(auto, unfolding(crate::specs::Statements::statement_reply, crate::specs::Statements::statement_refusal))]
pub fn statement(book: &[u64], chain: u64) -> Result<Statement, Refusal>
    ensures { statement_reply_in result ≡ statement_reply book.now chain }
{
    let book = SoundWords::tested(book)?;
    if !book_words::is_chain(chain) {
        return Err(Refusal::Unknown);
    }
    Ok(walk(&book, chain))
}

// Counts and adds over the elements of the chain, in one walk; the total is added at its end.
fn walk(book: &SoundWords, chain: u64) -> Statement
    ensures { reply_with result ≡ statement_of book.now chain }
{
    let count = book.count::<Element>();
    let mut held = walks::NOTHING;
    for passed in 0..count {
        held = walks::walk_on(book, chain, chain, passed, held);
    }
    held.with_total()
}
