// Close: the pools of a category are handed out.
ghost use Rattle.std.specs.Prelude.{true, ◌||◌, ◌&&◌, ◌≡◌, ltb, eqb, ℕ, IfErr};
ghost use Rattle.apportion.specs.Refusals.{refusal_in};
ghost use Rattle.book_words.specs.Soundness.{sound};
ghost use Rattle.book_words.specs.declared.totals.Side.{Side as BySide};
ghost use Rattle.book_shares.specs.Closing.{close_refusal, close_book, nothing_to_divide_by, pool_without_elements};
ghost use Rattle.book_shares.specs.Inner.Steps.{WorkedOut, share_at};
ghost use Rattle.book_shares.specs.Inner.Members.{activity_at, group_number};
ghost use Rattle.book_shares.specs.Sums.{Group as of_group};

use crate::handing_out::hand_out_to;
use crate::listing::list_members;
use crate::pools;
use crate::sharing::{Shares, set_shares};
use crate::weights::{Group, Members, Recipients};
use apportion::{Refusal, first_of};
use book_words::{
    CLOSED_WORD, Category, Element, OPERATION_SHARE_WORD, Record, Side, SoundWords, set_word,
};

// Closes a category of a book that is known to be sound. It writes, and needs no sums, so a `requires` says it; `SoundBook` is of the
// crate above.
pub fn close_sound(book: &mut [u64], category: u64) -> Result<(), Refusal>
    requires { sound book.old ≡ true }
    ensures value { refusal_in result ≡ close_refusal book.old category }
    ensures book_after { book.new ≡ close_book book.old category }
{
    let lent = SoundWords::of(book);
    let listed = list_members(&lent, category);
    let places = listed.as_slice();
    let members = Members {
        book: &lent,
        category,
        places,
    };
    let mut shares = Shares {
        operation: [0; 256],
        provision: [0; 256],
    };
    work_out(members, &mut shares)?;
    let first_share = Element::LIST.first + OPERATION_SHARE_WORD;
    hand_out_to(book, first_share, Element::LIST.width, places, &shares);
    set_word::<Category>(book, category, CLOSED_WORD, 1);
    Ok(())
}

// Works out a closing beside the book: where it is not refused, writes the shares of the elements that are listed into shares that are 0.
pub fn work_out(members: Members, shares: &mut Shares) -> Result<(), Refusal>
    requires { (side : BySide) (k : ℕ) → share_at shares.old side k ≡ 0 }
    ensures value { refusal_in result ≡ close_refusal members.entry.book.now members.entry.category }
    ensures worked_out { close_refusal members.entry.book.now members.entry.category ≡ 0
        → WorkedOut members.entry.book.now members.entry.category members.entry.places.now shares.new }
    ensures refused { IfErr result (λ refusal. shares.new ≡ shares.old) }
{
    check_grounds(members)?;
    set_shares(members, Side::Operation, &mut shares.operation);
    set_shares(members, Side::Provision, &mut shares.provision);
    Ok(())
}

// The grounds of a closing.
#[tactic(auto, unfolding(crate::specs::Closing::close_refusal))]
fn check_grounds(members: Members) -> Result<(), Refusal>
    ensures { refusal_in result ≡ close_refusal members.entry.book.now members.entry.category }
{
    let Members { book, category, .. } = members;
    let here = book
        .numbered::<Category>(category)
        .ok_or(Refusal::Unnumbered)?;
    let closed = here.has_closed();
    let lacking = lacks_elements(members);
    first_of(&[(Refusal::Closed, closed), (Refusal::Indivisible, lacking)])
}

// There is nothing to divide A by, or a pool of a group is above 0 and no element can take it.
#[tactic(auto, using(crate::proofs::MemberSums::listed_served))]
fn lacks_elements(members: Members) -> bool
    ensures { result
        ≡ nothing_to_divide_by members.entry.book.now members.entry.category
        || pool_without_elements members.entry.book.now members.entry.category 1
        || pool_without_elements members.entry.book.now members.entry.category 2 }
{
    let activity = members.activity(Recipients::Freight);
    let mass = members.mass();
    if activity + mass == 0 {
        return true;
    }
    let operation = pools::pools_of(members.book, members.category, Side::Operation);
    let provision = pools::pools_of(members.book, members.category, Side::Provision);
    is_without_elements(
        members,
        Group::Chilled,
        operation.chilled,
        provision.chilled,
    ) | is_without_elements(members, Group::Frozen, operation.frozen, provision.frozen)
}

// A pool of this group, operation or provision, is above 0, and no element can take it.
fn is_without_elements(members: Members, group: Group, operation: u64, provision: u64) -> bool
    ensures { result ≡ (ltb 0 operation || ltb 0 provision) && eqb (activity_at members.entry.book.now members.entry.places.now (of_group (group_number group))) 0 }
{
    ((0 < operation) | (0 < provision)) & (members.activity(Recipients::Group(group)) == 0)
}
