// Quote: appends an element of category 0 with its own shares.
ghost use Rattle.std.specs.Prelude.{true, ◌≡◌, ◌*◌};
ghost use Rattle.apportion.specs.Fractions.{nearest};
ghost use Rattle.apportion.specs.Grounds.{first_of};
ghost use Rattle.apportion.specs.Inner.Grounds.{grounds_before};
ghost use Rattle.apportion.specs.Refusals.{refusal_in};
ghost use Rattle.book_words.specs.Measures.{is_distance, is_intensity};
ghost use Rattle.book_words.specs.Inner.Steps.{capped};
ghost use Rattle.book.specs.Inner.Appending.{cap_shares};
ghost use Rattle.book.specs.Calls.{quote_reply, quote_book, quote_in_range, quote_grounds, quoted_element, adjusted};
ghost use Rattle.book.specs.Replies.{reply_in};

use crate::arguments::QuoteArguments;
use crate::sound_books::SoundBook;
use apportion::{Refusal, added_by_rounding, first_of};
use book_words::{Element, Record, SoundWords};

// The largest intensity, 10^9 mg per tonne-km.
const MOST_INTENSITY: u64 = 1_000_000_000;

// The air default of Annex A.3.2, in m.
const AIR_DISTANCE: u64 = 95_000;

// Quotes a chain's element by two intensities, and answers its number.
#[tactic(auto, unfolding(crate::specs::Calls::quote_refusal, crate::specs::Calls::quote_reply, crate::specs::Calls::quote_book))]
pub fn quote(book: &mut [u64], q: QuoteArguments) -> Result<u64, Refusal>
    ensures value { reply_in result ≡ quote_reply book.old q }
    ensures book_after { book.new ≡ quote_book book.old q }
{
    let sums = SoundWords::tested(book)?.sums();
    SoundBook { words: book, sums }.quote(q)
}

impl SoundBook<'_> {
    // The same, and the book goes on to other calls.
    pub fn quote(&mut self, q: QuoteArguments) -> Result<u64, Refusal>
        ensures value { reply_in result ≡ quote_reply self.old.words.now q }
        ensures book_after { self.new.words.now ≡ quote_book self.old.words.now q }
        ensures same_words { self.new.words.ghost_name ≡ self.old.words.ghost_name }
    {
        let words = &mut *self.words;
        check_grounds(&SoundWords::of(words), q)?;
        self.admit(quoted(q))
    }
}

// The grounds before 10.
fn check_grounds(book: &SoundWords, q: QuoteArguments) -> Result<(), Refusal>
    ensures { refusal_in result ≡ first_of (grounds_before 10 (quote_grounds book.now q)) }
{
    let elements = book.count::<Element>();
    let unknown = !(book_words::is_chain(q.chain) & (q.adjust <= 1));
    let out_of_range = !(book_words::is_mass(q.mass)
        & book_words::is_distance(q.distance)
        & (q.operation_intensity <= MOST_INTENSITY)
        & (q.provision_intensity <= MOST_INTENSITY));
    let full = Element::MOST <= elements;
    first_of(&[
        (Refusal::Unknown, unknown),
        (Refusal::OutOfRange, out_of_range),
        (Refusal::Full, full),
    ])
}

// The element that a quote appends, its shares capped.
fn quoted(q: QuoteArguments) -> Element
    requires { quote_in_range q ≡ true }
    ensures { result ≡ cap_shares (quoted_element q) }
{
    let mass = q.mass;
    let distance = q.distance;
    let far = adjusted(q);
    let product = mass * far;
    Element {
        category: 0,
        chain: q.chain,
        code: 0,
        amount: mass,
        distance,
        activity: mass * distance,
        operation: nearest_thousandth(q.operation_intensity, product),
        provision: nearest_thousandth(q.provision_intensity, product),
        kg_per_head: 0,
    }
}

// Intensity × product / 1000, nearest, halves to even, capped; the product is mass × D. With the intensity it passes 64
// bits, so its thousands are multiplied apart from what is left of it: no one function with `quotient` of `book_shares`, whose divisor is
// too large for that.
fn nearest_thousandth(intensity: u64, product: u64) -> u64
    requires { is_intensity intensity ≡ true }
    ensures { result ≡ capped (nearest (intensity * product) 1000) }
{
    let whole = book_words::multiply(intensity, product / 1000);
    let rest = intensity * (product % 1000);
    let quotient = book_words::add(whole, rest / 1000);
    book_words::add(quotient, added_by_rounding(quotient, rest % 1000, 1000))
}

// D: the distance, with adjust 1 plus the air default.
fn adjusted(q: QuoteArguments) -> u64
    requires { is_distance q.distance ≡ true }
    ensures { result ≡ adjusted q }
{
    if q.adjust == 1 {
        return q.distance + AIR_DISTANCE;
    }
    q.distance
}
