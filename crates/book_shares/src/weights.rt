// The elements that a pool goes to, and their activities: F, C and S, and P. The elements are those of a
// category, by their places.
ghost use Rattle.std.specs.Prelude.{true, ◌≡◌, ◌<◌, ℕ};
ghost use Rattle.apportion.specs.Places.{at};
ghost use Rattle.book_words.specs.Soundness.{sound};
ghost use Rattle.book_words.specs.Inner.Steps.{capped};
ghost use Rattle.book_words.specs.declared.records.Element.{Element};
ghost use Rattle.book_shares.specs.Inner.Members.{members as members_of, by_number, activity_in, mass_in, weights_at, sum_at, activity_at, mass_at};
ghost use Rattle.book_shares.specs.Sums.{receives};

use book_words::{Element, SoundWords};

// Group 1 and group 2: those of freight that have elements of their own.
#[derive(Clone, Copy)]
pub enum Group {
    Chilled,
    Frozen,
}

// The elements that a pool goes to.
#[derive(Clone, Copy)]
pub enum Recipients {
    // Ambient, chilled or frozen.
    Freight,
    Passengers,
    Group(Group),
}

// An element with this code is one of them.
fn receives(recipients: Recipients, code: u64) -> bool
    ensures { result ≡ receives (by_number recipients) code }
{
    match recipients {
        Recipients::Freight => book_words::is_freight(code),
        Recipients::Passengers => book_words::is_passenger(code),
        Recipients::Group(Group::Chilled) => code == 1,
        Recipients::Group(Group::Frozen) => code == 2,
    }
}

// The activity of such an element; 0 for any other.
fn weight_of(recipients: Recipients, e: Element) -> u64
    ensures { result ≡ activity_in (by_number recipients) e }
{
    if receives(recipients, e.code) {
        return e.activity;
    }
    0
}

// Head count × kg per head × distance of a passenger element, capped; 0 for any other.
fn capped_mass(e: Element) -> u64
    ensures { result ≡ capped (mass_in e) }
{
    if receives(Recipients::Passengers, e.code) {
        let mass = book_words::mass_per_head(e.kg_per_head);
        return book_words::multiply(book_words::multiply(e.amount, mass), e.distance);
    }
    0
}

// The elements of a category, by their places. Clauses name its parts: of a `Model` of the three they would be taken out again.
#[derive(Clone, Copy)]
pub struct Members<'a> {
    pub book: &'a SoundWords<'a>,
    pub category: u64,
    pub places: &'a [u16],
    // As the type of the book says: a clause sees its words alone.
    ghost fine: { sound book.now ≡ true },
    ghost are: { places.now ≡ members_of book.now category },
}

impl<'a> Members<'a> {
    // The weight of each element, in the order of the places, and zeros past the last.
    #[tactic(auto, using(crate::proofs::MemberSums::listed_few, crate::proofs::MemberSums::listed_inside))]
    pub fn weights(self, recipients: Recipients) -> [u64; 256]
        ensures { (k : ℕ) → at result k ≡ at (weights_at self.entry.book.now self.entry.places.now (by_number recipients)) k }
    {
        let mut weights = [0u64; 256];
        // By index: the array is longer than the places.
        for (index, place) in self.places.iter().enumerate() {
            let e = self.book.record_at(usize::from(*place));
            weights[index] = weight_of(recipients, e);
        }
        weights
    }

    // The sum of what the elements add, capped.
    #[tactic(auto, using(crate::proofs::MemberSums::listed_inside))]
    fn sum<F: Fn(Element) -> u64>(self, added: F) -> u64
        requires { F.IsAlwaysCallable added }
        ensures { (measure : Element → ℕ) → ((e : Element) (n : ℕ) → F.post added e n → n ≡ capped (measure e))
            → result ≡ capped (sum_at self.entry.book.now self.entry.places.now measure) }
    {
        let mut sum = 0;
        for place in self.places {
            sum = book_words::add(sum, added(self.book.record_at(usize::from(*place))));
        }
        sum
    }

    // The activity of the elements that a pool goes to: F, C or S.
    pub fn activity(self, recipients: Recipients) -> u64
        ensures { result ≡ activity_at self.entry.book.now self.entry.places.now (by_number recipients) }
    {
        self.sum(|e| book_words::capped(weight_of(recipients, e)))
    }

    // P.
    pub fn mass(self) -> u64
        ensures { result ≡ mass_at self.entry.book.now self.entry.places.now }
    {
        self.sum(capped_mass)
    }
}
