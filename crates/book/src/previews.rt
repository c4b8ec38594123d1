// Preview: a closing is seen before it is made.
ghost use Rattle.std.specs.Prelude.{◌≡◌};
ghost use Rattle.apportion.specs.Refusals.{refusal_in};
ghost use Rattle.book_shares.specs.Previews.{preview_refusal, preview_pairs};

use apportion::Refusal;
use book_words::SoundWords;

// Writes what each element would hold after the closing of the category of this number.
#[tactic(auto, unfolding(book_shares::specs::Previews::preview_refusal, book_shares::specs::Previews::preview_pairs))]
pub fn preview(book: &[u64], pairs: &mut [u64], category: u64) -> Result<(), Refusal>
    ensures value { refusal_in result ≡ preview_refusal book.now pairs.old category }
    ensures pairs_after { pairs.new ≡ preview_pairs book.now pairs.old category }
{
    let book = SoundWords::tested(book)?;
    book_shares::preview_sound(&book, pairs, category)
}
