// Intensity: the emissions of a closed category by its activity.
ghost use Rattle.std.specs.Prelude.{Ok, ◌≡◌, ◌<◌, ◌≤◌, ◌*◌, ◌^◌};
ghost use Rattle.apportion.specs.Fractions.{nearest};
ghost use Rattle.apportion.specs.Grounds.{first_of};
ghost use Rattle.apportion.specs.Refusals.{refusal_in};
ghost use Rattle.apportion.specs.Inner.Grounds.{grounds_before};
ghost use Rattle.book_words.specs.Inner.Steps.{most_exact, capped};
ghost use Rattle.book_shares.specs.Inner.Steps.{scale_tens, Allowed, AskedBy, code_of};
ghost use Rattle.book_shares.specs.Intensities.{lacks_activity, intensity_in, intensity_reply, intensity_grounds, intensity_of};
ghost use Rattle.book_shares.specs.declared.weights.Recipients.{Recipients};
ghost use Rattle.book_shares.specs.Inner.Members.{activity_at, by_number};

use crate::listing::list_members;
use crate::weights::{Group, Members, Recipients};
use crate::{pools, sharing};
use apportion::{Refusal, added_by_rounding, first_of};
use book_words::{Category, Side, SoundWords};

// The largest result, 10^15.
const MOST_RESULT: u64 = 1_000_000_000_000_000;

// What an accepted intensity answers: mg by activity, so not the `Amounts` of `book_words`, which are of the same shape and in µg.
#[derive(Clone, Copy)]
pub struct Intensity {
    pub operation: u64,
    pub provision: u64,
}

// The intensity of a category.
pub fn intensity_sound(book: &SoundWords, category: u64, code: u64) -> Result<Intensity, Refusal>
    ensures { intensity_in result ≡ intensity_reply book.now category code }
{
    let recipients = check_grounds(book, category, code)?;
    let places = list_members(book, category);
    let members = Members {
        book,
        category,
        places: places.as_slice(),
    };
    if lacks_activity(members, recipients) {
        return Err(Refusal::Indivisible);
    }
    let operation = result(members, recipients, Side::Operation);
    let provision = result(members, recipients, Side::Provision);
    if (MOST_RESULT < operation) | (MOST_RESULT < provision) {
        return Err(Refusal::TooLarge);
    }
    Ok(Intensity {
        operation,
        provision,
    })
}

// The grounds before 9. Where none holds, whom the intensity of this code is of.
fn check_grounds(book: &SoundWords, category: u64, code: u64) -> Result<Recipients, Refusal>
    ensures value { refusal_in result ≡ first_of (grounds_before 9 (intensity_grounds book.now category code)) }
    ensures recipients { (r : Recipients) → result ≡ Ok r → code ≡ code_of r }
{
    let here = book
        .numbered::<Category>(category)
        .ok_or(Refusal::Unnumbered)?;
    let recipients = recipients_of(code).ok_or(Refusal::Unknown)?;
    if !here.has_closed() {
        return Err(Refusal::StillOpen);
    }
    Ok(recipients)
}

// Whom the intensity of a code is of.
fn recipients_of(code: u64) -> Option<Recipients>
    ensures { AskedBy code result }
{
    match code {
        0 => Some(Recipients::Freight),
        1 => Some(Recipients::Group(Group::Chilled)),
        2 => Some(Recipients::Group(Group::Frozen)),
        100 => Some(Recipients::Passengers),
        _ => None,
    }
}

// F, S or C of the intensity is 0.
fn lacks_activity(members: Members, recipients: Recipients) -> bool
    ensures { result ≡ lacks_activity (activity_at members.entry.book.now members.entry.places.now) (code_of recipients) }
{
    let lacking = members.activity(recipients) == 0;
    match recipients {
        Recipients::Group(_) => (members.activity(Recipients::Freight) == 0) | lacking,
        _ => lacking,
    }
}

// The intensity of one side, capped.
fn result(members: Members, recipients: Recipients, side: Side) -> u64
    requires { Allowed members.book.now members.category recipients }
    ensures { result ≡ capped (intensity_of members.entry.book.now members.entry.category (code_of recipients) side) }
{
    let pools = pools::pools_of(members.book, members.category, side);
    let parts = sharing::divide_all(members, pools.all);
    let here: Category = members.book.numbered(members.category).unwrap();
    let tens = scale_tens(here.kind);
    match recipients {
        Recipients::Passengers => per_activity(members, recipients, parts.passengers, 2),
        Recipients::Freight => per_activity(members, recipients, parts.freight, tens),
        Recipients::Group(group) => book_words::add(
            per_activity(members, Recipients::Freight, parts.freight, tens),
            per_activity(members, recipients, pools::group_pool(pools, group), tens),
        ),
    }
}

// An amount × 10^tens by the activity of the elements that it goes to, nearest, halves to even, capped.
#[tactic(auto, using(crate::proofs::MemberSums::listed_activity))]
fn per_activity(members: Members, recipients: Recipients, amount: u64, tens: u64) -> u64
    requires { 0 < activity_at members.book.now members.places.now (by_number recipients) }
    ensures { result ≡ capped (nearest (amount * 10 ^ tens) (activity_at members.entry.book.now members.entry.places.now (by_number recipients))) }
{
    let total = members.activity(recipients);
    quotient(amount, tens, total)
}

// How many tens the scale of a kind is the product of: none for a hub, else three.
fn scale_tens(kind: u64) -> u64
    ensures { result ≡ scale_tens kind }
{
    if book_words::is_hub(kind) { 0 } else { 3 }
}

// Amount × 10^tens / total, nearest, halves to even, capped. The product passes 64 bits, so the quotient is made
// ten by ten.
fn quotient(amount: u64, tens: u64, total: u64) -> u64
    requires { (0 < total) × (total ≤ most_exact) }
    ensures { result ≡ capped (nearest (amount * 10 ^ tens) total) }
{
    let mut whole = book_words::capped(amount / total);
    let mut rest = amount % total;
    for _ in 0..tens {
        rest *= 10;
        whole = book_words::add(book_words::multiply(whole, 10), rest / total);
        rest %= total;
    }
    book_words::add(whole, added_by_rounding(whole, rest, total))
}
