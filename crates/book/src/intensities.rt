// Intensity: the emissions of a closed category by its activity.
ghost use Rattle.std.specs.Prelude.{◌≡◌};
ghost use Rattle.book_shares.specs.Intensities.{intensity_in, intensity_reply};

use apportion::Refusal;
use book_shares::Intensity;
use book_words::SoundWords;

// The intensity of a category for this code.
#[tactic(auto, unfolding(book_shares::specs::Intensities::intensity_reply, book_shares::specs::Intensities::intensity_refusal))]
pub fn intensity(book: &[u64], category: u64, code: u64) -> Result<Intensity, Refusal>
    ensures { intensity_in result ≡ intensity_reply book.now category code }
{
    let book = SoundWords::tested(book)?;
    book_shares::intensity_sound(&book, category, code)
}
