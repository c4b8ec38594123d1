// A walk over the elements: what it holds, and what one element adds. The walks of a statement and of a sheet are made of it.
ghost use Rattle.std.specs.Prelude.{◌≡◌, ◌+◌, ◌≤◌, ◌<◌};
ghost use Rattle.apportion.specs.Places.{one_if};
ghost use Rattle.book_words.specs.Book.{categories, elements};
ghost use Rattle.book.specs.Inner.Chains.{of_chains};
ghost use Rattle.book.specs.Statements.{waits, reply_with};
ghost use Rattle.book.specs.Walk.{HeldFits, held_after, with_total};

use crate::replies::Statement;
use book_words::{Category, Element, SoundWords};

// What a walk holds, over those of the elements passed that it asks for.
#[derive(Clone, Copy, Default)]
pub struct Held {
    // How many there are, and how many of them are in open categories.
    pub elements: u64,
    pub waiting: u64,
    // Their shares, in micrograms.
    pub operation: u64,
    pub provision: u64,
}

impl Held {
    // What is held, with the total.
    pub fn with_total(self) -> Statement
        requires { HeldFits self }
        ensures { reply_with result ≡ with_total self }
    {
        Statement {
            elements: self.elements,
            waiting: self.waiting,
            operation: self.operation,
            provision: self.provision,
            total: self.operation + self.provision,
        }
    }
}

// What it holds at its start: `Held::default()`, as a constant that is given out.
pub const NOTHING: Held = Held {
    elements: 0,
    waiting: 0,
    operation: 0,
    provision: 0,
};

// One element more: what the walk over the elements of the chains from `first` to `last` holds after it. Two numbers and no range, as
// `of_chains` of the definitions takes them.
pub fn walk_on(book: &SoundWords, first: u64, last: u64, passed: u64, held: Held) -> Held
    requires passed_bound { passed < elements book.now }
    requires held_value { held ≡ held_after book.now (of_chains first last) passed }
    ensures { result ≡ held_after book.now (of_chains first last) (passed + 1) }
{
    let e: Element = book.record_at(passed as usize);
    if !of_chains(first, last, e) {
        return held;
    }
    Held {
        elements: held.elements + 1,
        waiting: held.waiting + waiting_of(book, e),
        operation: held.operation + e.operation,
        provision: held.provision + e.provision,
    }
}

// Whether an element is on one of the chains from `first` to `last`.
fn of_chains(first: u64, last: u64, e: Element) -> bool
    ensures { result ≡ of_chains first last e }
{
    (first <= e.chain) & (e.chain <= last)
}

// 1 for an element in an open category, else 0.
fn waiting_of(book: &SoundWords, e: Element) -> u64
    requires { e.category ≤ categories book.now }
    ensures { result ≡ one_if (waits book.now e) }
{
    let here = book.numbered::<Category>(e.category);
    u64::from(here.is_some_and(|r| !r.has_closed()))
}
