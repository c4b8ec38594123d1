// The sums of ground 10 and of soundness. A sum stops at 10^18 + 1, where it has passed every limit.
ghost use Rattle.std.specs.Prelude.{cond, ◌≡◌, ◌+◌, ◌*◌, ℕ, eqb};
ghost use Rattle.std.specs.List.{fold, range_with_len};
ghost use Rattle.apportion.specs.Places.{sum_below};
ghost use Rattle.book_words.specs.Book.{count_of};
ghost use Rattle.book_words.specs.Measures.{standard_activity};
ghost use Rattle.book_words.specs.Inner.Steps.{by_sides, side_of, capped, cap_sums};
ghost use Rattle.book_words.specs.Totals.{unstruck, share_of, sums_of, with_entry, with_element, within_limits};

use crate::counted_words::CountedWords;
use crate::measures;
use crate::records::{Element, Entry, Record};

// The largest sum of unstruck entries and quoted shares, 10^18 µg.
const MOST_EMISSIONS: u64 = 1_000_000_000_000_000_000;

// Sums and products are exact up to this; one more stands for all that is more.
const MOST_EXACT: u64 = 1_000_000_000_000_000_000;

// The largest sum of activities, 10^17.
const MOST_ACTIVITY: u64 = 100_000_000_000_000_000;

// Vehicle operation or energy provision.
#[derive(Clone, Copy)]
pub enum Side {
    Operation,
    Provision,
}

// An amount of operation and one of provision, kept apart.
#[derive(Clone, Copy, Default, PartialEq, Eq)]
pub struct Amounts {
    pub operation: u64,
    pub provision: u64,
}

// The sums of ground 10: unstruck entries plus quoted shares, and the activity over all elements.
#[derive(Clone, Copy, Default)]
pub struct Sums {
    pub operation: u64,
    pub provision: u64,
    pub activity: u64,
}

// A number as far as it is exact.
pub fn capped(n: u64) -> u64
    ensures { result ≡ capped n }
{
    n.min(MOST_EXACT + 1)
}

// a + b, capped.
pub fn add(a: u64, b: u64) -> u64
    ensures { result ≡ capped (a + b) }
{
    capped(a.saturating_add(b))
}

// a × b, capped.
pub fn multiply(a: u64, b: u64) -> u64
    ensures { result ≡ capped (a * b) }
{
    capped(a.saturating_mul(b))
}

// Both sides of a + b, capped: no `impl Add`, whose `+` would hide the cap.
fn add_sides(a: Amounts, b: Amounts) -> Amounts
    ensures { result ≡ by_sides (λ s. capped (side_of s a + side_of s b)) }
{
    Amounts {
        operation: add(a.operation, b.operation),
        provision: add(a.provision, b.provision),
    }
}

// Amounts where a test holds, and nothing elsewhere.
fn amounts_where(test: bool, amounts: Amounts) -> Amounts
    ensures { result ≡ by_sides (λ s. cond test (side_of s amounts) 0) }
{
    if test { amounts } else { Amounts::default() }
}

// What an entry adds: its amounts, or nothing where it is struck. Field by field, as in `amounts_in` of an element: a `From` for entries
// and one for elements would be twice as long.
fn unstruck_amounts(e: Entry) -> Amounts
    ensures { result ≡ by_sides (λ s. unstruck s e) }
{
    let amounts = Amounts {
        operation: e.operation,
        provision: e.provision,
    };
    amounts_where(!e.is_struck(), amounts)
}

// A record that ground 10 sums: an entry or an element.
pub trait Summed: Record {
    ghost use Rattle.book_words.specs.declared.totals.Side.{Side};
    ghost use Rattle.book_words.specs.declared.totals.Sums.{Sums};

    ghost amount_in: { ℕ → Side → Self → ℕ };

    ghost with_record: { Sums → Self → Sums };

    // What it adds to this category: an entry its amounts where it is not struck, an element its shares.
    fn amounts_in(self, category: u64) -> Amounts
        ensures { result ≡ by_sides (λ s. amount_in category s self) };

    // The sums with the record, capped.
    fn capped_with(self, sums: Sums) -> Sums
        ensures { result ≡ cap_sums (with_record sums self) };
}

impl Summed for Entry {
    ghost amount_in = { λ category s e. cond (eqb e.category category) (unstruck s e) 0 };

    ghost with_record = { with_entry };

    fn amounts_in(self, category: u64) -> Amounts {
        amounts_where(self.category == category, unstruck_amounts(self))
    }

    fn capped_with(self, sums: Sums) -> Sums {
        let added = unstruck_amounts(self);
        Sums {
            operation: add(sums.operation, added.operation),
            provision: add(sums.provision, added.provision),
            activity: capped(sums.activity),
        }
    }
}

impl Summed for Element {
    ghost amount_in = { λ category s e. cond (eqb e.category category) (share_of s e) 0 };

    ghost with_record = { with_element };

    fn amounts_in(self, category: u64) -> Amounts {
        let shares = Amounts {
            operation: self.operation,
            provision: self.provision,
        };
        amounts_where(self.category == category, shares)
    }

    fn capped_with(self, sums: Sums) -> Sums {
        let quoted = self.amounts_in(0);
        Sums {
            operation: add(sums.operation, quoted.operation),
            provision: add(sums.provision, quoted.provision),
            activity: add(sums.activity, capped_standard_activity(self)),
        }
    }
}

// An element's activity in ground 10, passengers by the standard mass.
#[tactic(auto, unfolding(crate::specs::Measures::standard_activity))]
fn capped_standard_activity(e: Element) -> u64
    ensures { result ≡ capped (standard_activity e) }
{
    if measures::is_freight(e.code) {
        return capped(e.activity);
    }
    multiply(multiply(e.amount, measures::STANDARD_MASS), e.distance)
}

// What the records of a list add to this category, capped: the unstruck entries, or the shares of the elements.
pub fn capped_amounts_of<R: Summed>(words: &CountedWords, category: u64) -> Amounts
    ensures { result
        ≡ by_sides (λ s. capped (sum_below (count_of words.now R.LIST) (λ p. R.amount_in category s (R.record_at words.now p)))) }
{
    (0..words.count::<R>() as usize).fold(Amounts::default(), |sum, place| {
        add_sides(sum, words.record_at::<R>(place).amounts_in(category))
    })
}

// The sums with one record of a list after the other, capped each time.
fn sums_over<R: Summed>(words: &CountedWords, sums: Sums) -> Sums
    ensures { result
        ≡ fold (λ s p. cap_sums (R.with_record s (R.record_at words.now p))) sums (range_with_len 0 (count_of words.now R.LIST)) }
{
    (0..words.count::<R>() as usize).fold(sums, |sums, place| {
        words.record_at::<R>(place).capped_with(sums)
    })
}

// The sums over a book, each capped.
pub fn capped_sums(words: &CountedWords) -> Sums
    ensures { result ≡ cap_sums (sums_of words.now) }
{
    let of_entries = sums_over::<Entry>(words, Sums::default());
    sums_over::<Element>(words, of_entries)
}

// The sums are within the limits of refusal 10.
pub fn are_within(sums: Sums) -> bool
    ensures { result ≡ within_limits sums }
{
    sums.operation <= MOST_EMISSIONS
        && sums.provision <= MOST_EMISSIONS
        && sums.activity <= MOST_ACTIVITY
}
