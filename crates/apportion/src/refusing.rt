// Why a call is refused, and the first of several grounds that holds.
ghost use Rattle.std.specs.Prelude.{◌≡◌, ℕ};
ghost use Rattle.apportion.specs.Grounds.{first_of};
ghost use Rattle.apportion.specs.Refusals.{number_of, refusal_by, refusal_in, grounds_by};

// The grounds of documents 01 and 02, each with its number.
#[derive(Clone, Copy, Debug, PartialEq, Eq)]
pub enum Refusal {
    // A slice is too short, the lengths of a division do not fit, or the book is not sound.
    Unfit = 1,
    Unnumbered = 2,
    Unknown = 3,
    Closed = 4,
    StillOpen = 5,
    Unsuited = 6,
    OutOfRange = 7,
    Full = 8,
    Indivisible = 9,
    TooLarge = 10,
    WrongHeader = 11,
    Misplaced = 12,
    WrongField = 13,
    Mixed = 14,
    WrongCell = 15,
    ReversedSpan = 16,
    ShortPairs = 17,
}

impl From<Refusal> for u64 {
    ghost from_gives = { λ refusal number. number ≡ number_of refusal };

    fn from(refusal: Refusal) -> u64 {
        refusal as u64
    }
}

// Refuses with the first of these grounds whose condition holds, however the refusals are numbered. A call lists its grounds, as document 01
// does, in their order; a chain of `?` would not be that list.
pub fn first_of<E: Copy>(grounds: &[(E, bool)]) -> Result<(), E>
    ensures { (number : E → ℕ) → refusal_by number result ≡ first_of (grounds_by number grounds.now) }
{
    for (refusal, holds) in grounds {
        if *holds {
            return Err(*refusal);
        }
    }
    Ok(())
}

// The refusal number of an answer, 0 where it is accepted: the conversion, for C and for what is printed.
pub fn refusal_number<T: Copy>(answer: Result<T, Refusal>) -> u64
    ensures { result ≡ refusal_in answer }
{
    answer.err().map_or(0, u64::from)
}
