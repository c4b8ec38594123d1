// The test of soundness, ground 1: it looks through every record of every list and stops at the first
// that breaks a rule.
ghost use Rattle.std.specs.Prelude.{true, ◌≡◌, ◌<◌};
ghost use Rattle.book_words.specs.Book.{categories};
ghost use Rattle.book_words.specs.Measures.{is_code};
ghost use Rattle.book_words.specs.Inner.Steps.{Limited, ReadyFor, count_in, record_fine};
ghost use Rattle.book_words.specs.Soundness.{sound, category_fine, entry_fine, entry_suits, sums_fine, shares_fine};
ghost use Rattle.book_words.specs.Soundness.{element_fine, quoted_suits, element_suits, measured, shares_wait};

use crate::counted_words::CountedWords;
use crate::records::{Category, Element, Entry};
use crate::{measures, mixture, totals};

// The largest amount of an entry, 10^18 µg.
const MOST_AMOUNT: u64 = 1_000_000_000_000_000_000;

// The lists that the test looks through behind the header. The passengers and the sums are one record each.
#[derive(Clone, Copy)]
enum List {
    Categories,
    Entries,
    Elements,
    Passengers,
    Sums,
    Closings,
}

// In the order of the test: the rules of a list take those before it for granted.
const LISTS: [List; 6] = [
    List::Categories,
    List::Entries,
    List::Elements,
    List::Passengers,
    List::Sums,
    List::Closings,
];

// The book is sound: behind the header the first bad record decides, and the label is left with it, with a flag, as document 01 wants it
// here.
pub fn is_sound(book: &[u64]) -> bool
    ensures { result ≡ sound book.now }
{
    let Some(words) = CountedWords::tested(book) else {
        return false;
    };
    let mut good = true;
    'lists: for list in LISTS {
        let count = count_in(&words, list);
        for place in 0..count {
            if !record_fine(&words, list, place) {
                good = false;
                break 'lists;
            }
        }
    }
    good
}

// The sums are within the limits of refusal 10.
#[tactic(auto, unfolding(crate::specs::Soundness::sums_fine))]
fn sums_fine(words: &CountedWords) -> bool
    ensures { result ≡ sums_fine words.now }
{
    totals::are_within(totals::capped_sums(words))
}

// How many records a list has. Here and in `record_fine` a match: each list has another record and another test.
fn count_in(words: &CountedWords, list: List) -> usize
    ensures { result ≡ count_in words.now list }
{
    match list {
        List::Passengers | List::Sums => 1,
        List::Categories | List::Closings => words.count::<Category>() as usize,
        List::Entries => words.count::<Entry>() as usize,
        List::Elements => words.count::<Element>() as usize,
    }
}

// The record at this place of a list keeps its rules.
fn record_fine(words: &CountedWords, list: List, place: usize) -> bool
    requires ready { ReadyFor list words.now }
    requires place_bound { place < count_in words.now list }
    ensures { result ≡ record_fine words.now list place }
{
    match list {
        List::Categories => category_fine(words.record_at(place)),
        List::Entries => entry_fine(words, words.record_at(place)),
        List::Elements => element_fine(words, words.record_at(place)),
        List::Passengers => mixture::passengers_fine(words),
        List::Sums => sums_fine(words),
        List::Closings => shares_fine(words, place),
    }
}

#[tactic(auto, unfolding(crate::specs::Soundness::category_fine))]
fn category_fine(r: Category) -> bool
    ensures { result ≡ category_fine r }
{
    measures::is_kind(r.kind) && r.closed <= 1
}

#[tactic(auto, unfolding(crate::specs::Soundness::entry_fine))]
fn entry_fine(words: &CountedWords, r: Entry) -> bool
    ensures { result ≡ entry_fine words.now r }
{
    words
        .numbered(r.category)
        .is_some_and(|category| entry_suits(category, r))
}

#[tactic(auto, unfolding(crate::specs::Soundness::entry_suits))]
fn entry_suits(category: Category, r: Entry) -> bool
    ensures { result ≡ entry_suits category r }
{
    measures::is_group(r.group)
        && !measures::unsuited_group(category.kind, r.group)
        && r.operation <= MOST_AMOUNT
        && r.provision <= MOST_AMOUNT
        && r.struck <= 1
}

#[tactic(auto, unfolding(crate::specs::Soundness::element_fine))]
fn element_fine(words: &CountedWords, r: Element) -> bool
    ensures { result ≡ element_fine words.now r }
{
    if r.category == 0 {
        return quoted_suits(r);
    }
    words
        .numbered(r.category)
        .is_some_and(|category| element_suits(category, r))
}

#[tactic(auto, unfolding(crate::specs::Soundness::quoted_suits), using(crate::proofs::RecordRules::as_freight))]
fn quoted_suits(r: Element) -> bool
    ensures { result ≡ quoted_suits r }
{
    // As freight outside a hub.
    measures::is_chain(r.chain) && r.code == 0 && measured(1, r)
}

#[tactic(auto, unfolding(crate::specs::Soundness::element_suits))]
fn element_suits(category: Category, r: Element) -> bool
    ensures { result ≡ element_suits category r }
{
    measures::is_chain(r.chain)
        && measures::is_code(r.code)
        && !measures::unsuited(category.kind, r.code)
        && measured(category.kind, r)
        && shares_wait(category, r)
}

// The amount, the distance and the kg per head are in range, and the activity is right.
#[tactic(auto, unfolding(crate::specs::Soundness::measured), using(crate::proofs::Ranges::activity_small, crate::proofs::CappedSums::capped_small))]
fn measured(kind: u64, r: Element) -> bool
    requires { is_code r.code ≡ true }
    ensures { result ≡ measured kind r }
{
    measures::is_amount(r.code, r.amount)
        && measures::is_distance_in(kind, r.distance)
        && measures::is_kg_per_head(r.code, r.kg_per_head)
        && r.activity == measures::activity(kind, r.code, r.amount, r.distance)
}

// In an open category the shares are 0.
fn shares_wait(category: Category, r: Element) -> bool
    ensures { result ≡ shares_wait category r }
{
    category.has_closed() || (r.operation == 0 && r.provision == 0)
}

// In a closed category the shares sum to the unstruck entries.
#[tactic(auto, unfolding(crate::specs::Soundness::shares_fine))]
fn shares_fine(words: &CountedWords, place: usize) -> bool
    requires limited { Limited words.now }
    requires place_bound { place < categories words.now }
    ensures { result ≡ shares_fine words.now place }
{
    let r: Category = words.record_at(place);
    if !r.has_closed() {
        return true;
    }
    let number = place as u64 + 1;
    totals::capped_amounts_of::<Element>(words, number)
        == totals::capped_amounts_of::<Entry>(words, number)
}
