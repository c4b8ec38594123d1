// Enrol: appends an element of a category.
ghost use Rattle.std.specs.Prelude.{true, ◌≡◌, IfOk};
ghost use Rattle.apportion.specs.Grounds.{first_of};
ghost use Rattle.apportion.specs.Inner.Grounds.{grounds_before};
ghost use Rattle.apportion.specs.Refusals.{refusal_in};
ghost use Rattle.book_words.specs.Book.{category_of};
ghost use Rattle.book_words.specs.Measures.{is_code};
ghost use Rattle.book.specs.Calls.{enrol_reply, enrol_book, enrol_in_range, enrol_grounds, enrolled_element};
ghost use Rattle.book.specs.Replies.{reply_in};

use crate::arguments::EnrolArguments;
use crate::sound_books::SoundBook;
use apportion::{Refusal, first_of};
use book_words::{Category, Element, Record, SoundWords};

// Enrols an element in a category, and answers its number.
#[tactic(auto, unfolding(crate::specs::Calls::enrol_refusal, crate::specs::Calls::enrol_reply, crate::specs::Calls::enrol_book))]
pub fn enrol(book: &mut [u64], e: EnrolArguments) -> Result<u64, Refusal>
    ensures value { reply_in result ≡ enrol_reply book.old e }
    ensures book_after { book.new ≡ enrol_book book.old e }
{
    let sums = SoundWords::tested(book)?.sums();
    SoundBook { words: book, sums }.enrol(e)
}

impl SoundBook<'_> {
    // The same, and the book goes on to other calls.
    pub fn enrol(&mut self, e: EnrolArguments) -> Result<u64, Refusal>
        ensures value { reply_in result ≡ enrol_reply self.old.words.now e }
        ensures book_after { self.new.words.now ≡ enrol_book self.old.words.now e }
        ensures same_words { self.new.words.ghost_name ≡ self.old.words.ghost_name }
    {
        let words = &mut *self.words;
        let category = check_grounds(&SoundWords::of(words), e)?;
        self.admit(enrolled(category, e))
    }
}

// The grounds before 10. Where none holds, answers the category.
fn check_grounds(book: &SoundWords, e: EnrolArguments) -> Result<Category, Refusal>
    ensures refusal { refusal_in result ≡ first_of (grounds_before 10 (enrol_grounds book.now e)) }
    ensures category { IfOk result (λ here. here ≡ category_of book.now e.category) }
{
    let category = book
        .numbered::<Category>(e.category)
        .ok_or(Refusal::Unnumbered)?;
    let elements = book.count::<Element>();
    let unknown = !(book_words::is_chain(e.chain) & book_words::is_code(e.code));
    let closed = category.has_closed();
    let unsuited = book_words::unsuited(category.kind, e.code);
    let mixed = book.mixes(e.category, e.code, e.kg_per_head);
    let out_of_range = !enrol_in_range(category, e);
    let full = Element::MOST <= elements;
    first_of(&[
        (Refusal::Unknown, unknown),
        (Refusal::Closed, closed),
        (Refusal::Unsuited, unsuited),
        (Refusal::Mixed, mixed),
        (Refusal::OutOfRange, out_of_range),
        (Refusal::Full, full),
    ])?;
    Ok(category)
}

// The amount, the distance and the kg per head are in range.
fn enrol_in_range(category: Category, e: EnrolArguments) -> bool
    ensures { result ≡ enrol_in_range category e }
{
    book_words::is_amount(e.code, e.amount)
        & book_words::is_distance_in(category.kind, e.distance)
        & book_words::is_kg_per_head(e.code, e.kg_per_head)
}

// The element that an enrolment appends: its activity by its category's kind, its shares 0.
fn enrolled(category: Category, e: EnrolArguments) -> Element
    requires code_value { is_code e.code ≡ true }
    requires e_value { enrol_in_range category e ≡ true }
    ensures { result ≡ enrolled_element category e }
{
    Element {
        category: e.category,
        chain: e.chain,
        code: e.code,
        amount: e.amount,
        distance: e.distance,
        activity: book_words::activity(category.kind, e.code, e.amount, e.distance),
        operation: 0,
        provision: 0,
        kg_per_head: e.kg_per_head,
    }
}
