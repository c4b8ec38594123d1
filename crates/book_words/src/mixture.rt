// Weighed and unweighed passengers of a category are not mixed: ground 14, and its rule of soundness.
ghost use Rattle.std.specs.Prelude.{true, ◌≡◌};
ghost use Rattle.book_words.specs.Soundness.{elements_fine, passengers_fine};

use crate::counted_words::CountedWords;
use crate::measures;
use crate::records::{Category, Element, Record};

// The numbers of categories, from 0 to the most.
const NUMBERS: usize = Category::MOST as usize + 1;

// No element mixes with those before it: of each category it is remembered whether the passengers seen so far are
// weighed.
pub fn passengers_fine(words: &CountedWords) -> bool
    requires { elements_fine words.now ≡ true }
    ensures { result ≡ passengers_fine words.now }
{
    let count = words.count::<Element>() as usize;
    let mut seen = [None; NUMBERS];
    for place in 0..count {
        let r: Element = words.record_at(place);
        if measures::is_passenger(r.code) {
            let weighed = measures::is_weighed(r.kg_per_head);
            let known = seen[r.category as usize].replace(weighed);
            if known == Some(!weighed) {
                return false;
            }
        }
    }
    true
}
