// Shares written at the places of elements: in the book by a closing, in the pairs by a preview.
ghost use Rattle.std.specs.Prelude.{◌≡◌, ℕ, ◌+◌, ◌*◌, ◌<◌, ◌≤◌, length};
ghost use Rattle.apportion.specs.Places.{at};
ghost use Rattle.book_shares.specs.Inner.Steps.{share_at, put_two, hand_out_to};

use crate::sharing::Shares;

// Writes the two shares of each of these elements. The words of the place p begin at first + width × p:
// two numbers and no closure, since the promise speaks of them.
pub fn hand_out_to(words: &mut [u64], first: usize, width: usize, members: &[u16], shares: &Shares)
    requires few { length members.now ≤ 256 }
    requires by_index { (k : ℕ) → k < length members.now → first + width * at members.now k + 1 < length words.old }
    ensures { words.new ≡ hand_out_to first width members.now (length members.now) words.old (share_at shares.now) }
{
    // By index: tried as a zip with the two arrays, and the proof of the loop didn't close.
    for (index, place) in members.iter().enumerate() {
        put_two(
            words,
            first + width * usize::from(*place),
            shares.operation[index],
            shares.provision[index],
        );
    }
}

// Writes two words, one after the other.
pub fn put_two(words: &mut [u64], start: usize, operation: u64, provision: u64)
    requires { start + 1 < length words.old }
    ensures { words.new ≡ put_two words.old start operation provision }
{
    words[start] = operation;
    words[start + 1] = provision;
}
