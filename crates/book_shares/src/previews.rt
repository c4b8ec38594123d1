// Preview: what the elements would hold after a closing, written beside the book.
ghost use Rattle.std.specs.Prelude.{◌≡◌, ◌≤◌, length};
ghost use Rattle.apportion.specs.Refusals.{refusal_in};
ghost use Rattle.book_shares.specs.Previews.{pair_words, pairs_written, preview_refusal, preview_pairs};

use crate::closings::work_out;
use crate::handing_out::{hand_out_to, put_two};
use crate::listing::list_members;
use crate::sharing::Shares;
use crate::weights::Members;
use apportion::Refusal;
use book_words::{Element, SoundWords};

// A pair, of two words, for each of 256 elements.
const PAIRS: usize = 256;

const PAIR_WORDS: usize = 2 * PAIRS;

// Previews the closing of a category.
pub fn preview_sound(book: &SoundWords, pairs: &mut [u64], category: u64) -> Result<(), Refusal>
    ensures value { refusal_in result ≡ preview_refusal book.now pairs.old category }
    ensures pairs_after { pairs.new ≡ preview_pairs book.now pairs.old category }
{
    // One word is read: as every reader, this says that the book is sound. The elements are read behind 17 alone.
    let _count = book.count::<Element>();
    let short = pairs.len() < PAIR_WORDS;
    if short {
        return Err(Refusal::ShortPairs);
    }
    let listed = list_members(book, category);
    let places = listed.as_slice();
    let members = Members {
        // Lent again: `put_pairs` reads it after this.
        book: &*book,
        category,
        places,
    };
    let mut shares = Shares {
        operation: [0; PAIRS],
        provision: [0; PAIRS],
    };
    work_out(members, &mut shares)?;
    put_pairs(book, pairs);
    // The pair of the place p begins at word 2 × p.
    hand_out_to(pairs, 0, 2, places, &shares);
    Ok(())
}

// Writes the pairs of the book as it is, zeros past the last element.
fn put_pairs(book: &SoundWords, pairs: &mut [u64])
    requires { pair_words ≤ length pairs.old }
    ensures { pairs.new ≡ pairs_written book.now pairs.old }
{
    let count = book.count::<Element>() as usize;
    pairs[..PAIR_WORDS].fill(0);
    // By place: of chunks that are written the library does not say what was written.
    for place in 0..count {
        let e: Element = book.record_at(place);
        put_two(pairs, 2 * place, e.operation, e.provision);
    }
}
