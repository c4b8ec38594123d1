// The elements of a category, listed once by their places: what comes after looks at these alone.
ghost use Rattle.std.specs.Prelude.{true, ◌≡◌};
ghost use Rattle.book_words.specs.Soundness.{sound};
ghost use Rattle.book_shares.specs.Inner.Members.{members};

use arrayvec::ArrayVec;
use book_words::{Element, SoundWords};

// The places of the category's elements, in their order. As the readers of a sound book, this says that it is one.
pub fn list_members(book: &SoundWords, category: u64) -> ArrayVec<u16, 256>
    ensures places { result.items ≡ members book.now category }
    ensures book { sound book.now ≡ true }
{
    let count = book.count::<Element>() as usize;
    let mut places = ArrayVec::new();
    for place in 0..count {
        if book.record_at::<Element>(place).category == category {
            places.push(place as u16);
        }
    }
    places
}
