// What each element of a category gets.
ghost use Rattle.std.specs.Prelude.{◌≡◌, ℕ, ◌≤◌, ◌<◌, ◌*◌, ◌+◌, length};
ghost use Rattle.apportion.specs.Dividing.{most_pool};
ghost use Rattle.apportion.specs.Places.{at, list_below};
ghost use Rattle.book_shares.specs.Sums.{Freight};
ghost use Rattle.book_shares.specs.Closing.{close_refusal};
ghost use Rattle.book_shares.specs.Inner.Steps.{DivisibleOver, listed_share, parts_by, with_parts_of};
ghost use Rattle.book_shares.specs.Inner.Members.{activity_at, by_number, mass_at};

use crate::pools;
use crate::weights::{Group, Members, Recipients};
use book_words::Side;

// A divided by the weights F and P.
#[derive(Clone, Copy)]
pub struct Parts {
    pub freight: u64,
    pub passengers: u64,
}

// The shares of elements, in the order that their places are listed in, and zeros past the last. Two arrays: one of pairs is 4,096
// bytes to set to 0, and with it a full sheet costs 18 % more. They are lent to what works them out: as an answer, by value, a closing of
// three elements takes 1.7 times as long.
#[derive(Clone, Copy)]
pub struct Shares {
    pub operation: [u64; 256],
    pub provision: [u64; 256],
}

// Divides A by the weights F and P of these elements, in that order. Where one of them is 0, the other gets all.
pub fn divide_all(members: Members, all: u64) -> Parts
    requires { (all ≤ most_pool) × (0 < activity_at members.book.now members.places.now Freight + mass_at members.book.now members.places.now) }
    ensures { result
        ≡ parts_by all (activity_at members.entry.book.now members.entry.places.now Freight) (mass_at members.entry.book.now members.entry.places.now) }
{
    let activity = members.activity(Recipients::Freight);
    let mass = members.mass();
    if mass == 0 {
        return Parts {
            freight: all,
            passengers: 0,
        };
    }
    if activity == 0 {
        return Parts {
            freight: 0,
            passengers: all,
        };
    }
    let mut parts = [0u64; 2];
    // Accepted: the weights sum to more than 0, and they and A are within 10^18.
    apportion::divide(all, &[activity, mass], &mut parts).unwrap();
    Parts {
        freight: parts[0],
        passengers: parts[1],
    }
}

// Adds to the share of each element its part of an amount. An amount of 0 adds nothing.
#[tactic(auto, using(crate::proofs::MemberSums::listed_few, crate::proofs::MemberSums::listed_cut))]
fn add_parts_of(members: Members, recipients: Recipients, amount: u64, shares: &mut [u64; 256])
    requires divisible_over { DivisibleOver members.book.now members.places.now (by_number recipients) amount }
    requires by_index { (k : ℕ) → at shares.old k ≤ 3 * most_pool }
    ensures { shares.new ≡ with_parts_of members.entry.book.now members.entry.places.now (by_number recipients) amount shares.old }
{
    if amount == 0 {
        return;
    }
    let count = members.places.len();
    // Arrays, cut: as ArrayVecs, by value, a full sheet costs 65 % more.
    let weights = members.weights(recipients);
    let mut parts = [0u64; 256];
    let parts = &mut parts[..count];
    // Accepted: where the weights sum to 0 the amount is 0, and both are within 10^18.
    apportion::divide(amount, &weights[..count], parts).unwrap();
    add_parts(parts, shares);
}

// Adds the parts to the first shares, place by place.
fn add_parts(parts: &[u64], shares: &mut [u64; 256])
    requires few { length parts.now ≤ 256 }
    requires by_index { (k : ℕ) → at parts.now k ≤ most_pool }
    requires by_index_2 { (k : ℕ) → at shares.old k ≤ 3 * most_pool }
    ensures { shares.new ≡ list_below (length shares.old) (λ k. at shares.old k + at parts.now k) }
{
    // By index: of a zip over iter_mut the library does not say what was written.
    for (place, part) in parts.iter().enumerate() {
        shares[place] += *part;
    }
}

// Writes the share of each element of the category, in the order of the places, into shares that are 0; past the last they stay so. One side
// is worked out after the other, as the definitions have it.
pub fn set_shares(members: Members, side: Side, shares: &mut [u64; 256])
    requires none { close_refusal members.book.now members.category ≡ 0 }
    requires zeros { (k : ℕ) → at shares.old k ≡ 0 }
    ensures { (k : ℕ) → at shares.new k ≡ listed_share members.entry.book.now members.entry.category members.entry.places.now side k }
{
    let pools = pools::pools_of(members.book, members.category, side);
    let parts = divide_all(members, pools.all);
    let chilled = Recipients::Group(Group::Chilled);
    let frozen = Recipients::Group(Group::Frozen);
    add_parts_of(members, Recipients::Freight, parts.freight, shares);
    add_parts_of(members, Recipients::Passengers, parts.passengers, shares);
    add_parts_of(members, chilled, pools.chilled, shares);
    add_parts_of(members, frozen, pools.frozen, shares);
}
