// Codes, ranges and activities: rules of the papers, each by the name of its definition, and no conversions.
ghost use Rattle.std.specs.Prelude.{◌≡◌};
ghost use Rattle.book_words.specs.Measures.{is_kind, is_hub, is_group, is_chain, is_code, is_freight, is_passenger, unsuited, unsuited_group, is_mass, is_heads, is_amount, is_distance, is_distance_in, is_weighed, is_kg_per_head, mass_per_head, activity_of};
ghost use Rattle.book_words.specs.Inner.Steps.{capped};

use crate::totals;

// The last chain; the first is 1.
pub const MOST_CHAINS: u64 = 10_000;

// The mass of a passenger that is not weighed, in kg.
pub const STANDARD_MASS: u64 = 100;

pub fn is_kind(kind: u64) -> bool
    ensures { result ≡ is_kind kind }
{
    (1..=4).contains(&kind)
}

pub fn is_chain(chain: u64) -> bool
    ensures { result ≡ is_chain chain }
{
    (1..=MOST_CHAINS).contains(&chain)
}

pub fn is_code(code: u64) -> bool
    ensures { result ≡ is_code code }
{
    is_freight(code) || is_passenger(code)
}

pub fn is_hub(kind: u64) -> bool
    ensures { result ≡ is_hub kind }
{
    kind == 4
}

pub fn is_group(group: u64) -> bool
    ensures { result ≡ is_group group }
{
    group <= 2
}

// Ambient, chilled or frozen.
pub fn is_freight(code: u64) -> bool
    ensures { result ≡ is_freight code }
{
    code <= 2
}

// A passenger class.
pub fn is_passenger(code: u64) -> bool
    ensures { result ≡ is_passenger code }
{
    (100..=1000).contains(&code)
}

// Freight in kind 2, or passengers in kind 1 or 4.
pub fn unsuited(kind: u64, code: u64) -> bool
    ensures { result ≡ unsuited kind code }
{
    (is_freight(code) && kind == 2) || (is_passenger(code) && (kind == 1 || is_hub(kind)))
}

// Group 1 or 2 in kind 2.
pub fn unsuited_group(kind: u64, group: u64) -> bool
    ensures { result ≡ unsuited_group kind group }
{
    (1..=2).contains(&group) && kind == 2
}

pub fn is_mass(mass: u64) -> bool
    ensures { result ≡ is_mass mass }
{
    (1..=1_000_000_000).contains(&mass)
}

fn is_heads(heads: u64) -> bool
    ensures { result ≡ is_heads heads }
{
    (1..=1_000_000).contains(&heads)
}

// A mass, or a head count.
pub fn is_amount(code: u64, amount: u64) -> bool
    ensures { result ≡ is_amount code amount }
{
    if is_freight(code) {
        is_mass(amount)
    } else {
        is_heads(amount)
    }
}

pub fn is_distance(distance: u64) -> bool
    ensures { result ≡ is_distance distance }
{
    (1..=40_000_000).contains(&distance)
}

// Only 0 in a hub.
pub fn is_distance_in(kind: u64, distance: u64) -> bool
    ensures { result ≡ is_distance_in kind distance }
{
    if is_hub(kind) {
        distance == 0
    } else {
        is_distance(distance)
    }
}

// 0 to 300 for passengers, 0 alone for freight.
pub fn is_kg_per_head(code: u64, kg_per_head: u64) -> bool
    ensures { result ≡ is_kg_per_head code kg_per_head }
{
    let most = if is_freight(code) { 0 } else { 300 };
    kg_per_head <= most
}

// The kg per head are stated.
pub fn is_weighed(kg_per_head: u64) -> bool
    ensures { result ≡ is_weighed kg_per_head }
{
    kg_per_head != 0
}

// The mass of a passenger in kg: as stated, or the standard one.
pub fn mass_per_head(kg_per_head: u64) -> u64
    ensures { result ≡ mass_per_head kg_per_head }
{
    if is_weighed(kg_per_head) {
        kg_per_head
    } else {
        STANDARD_MASS
    }
}

// The activity of an amount over a distance, capped.
#[tactic(auto, unfolding(crate::specs::Measures::activity_of))]
pub fn activity(kind: u64, code: u64, amount: u64, distance: u64) -> u64
    ensures { result ≡ capped (activity_of kind code amount distance) }
{
    if !is_freight(code) {
        return totals::multiply(totals::multiply(amount, code), distance);
    }
    if is_hub(kind) {
        return totals::capped(amount);
    }
    totals::multiply(amount, distance)
}
