// A text printed into a lent buffer, whole or not at all. What prints says three things, as document 01 wants of an answer that is an enum:
// the answer, its numbers, and the buffer.
ghost use Rattle.std.specs.Prelude.{◌≡◌, length};
ghost use Rattle.report.specs.declared.printing.Unprinted.TheVariants.{Refused};
ghost use Rattle.report.specs.Printing.{printed_numbers, answer_for, numbers_for, buffer_with};

use apportion::Refusal;

// Why nothing is written.
#[derive(Clone, Copy)]
pub enum Unprinted {
    // The buffer is shorter than the text, which has this length.
    TooSmall(usize),
    Refused(Refusal),
}

impl From<Refusal> for Unprinted {
    ghost from_gives = { λ refusal unprinted. unprinted ≡ Refused refusal };

    fn from(refusal: Refusal) -> Unprinted {
        Unprinted::Refused(refusal)
    }
}

// Copies a text to the start of the buffer, where it fits, and answers its length.
#[tactic(auto, unfolding(crate::specs::Printing::answer_for, crate::specs::Printing::numbers_for, crate::specs::Printing::buffer_with))]
pub fn print_text(text: &[u8], out: &mut [u8]) -> Result<usize, Unprinted>
    ensures value { result ≡ answer_for text.now (length out.old) }
    ensures result_value { printed_numbers result ≡ numbers_for 0 text.now (length out.old) }
    ensures out_after { out.new ≡ buffer_with text.now out.old }
{
    let count = text.len();
    if out.len() < count {
        return Err(Unprinted::TooSmall(count));
    }
    out[..count].copy_from_slice(text);
    Ok(count)
}
