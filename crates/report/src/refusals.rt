// The line of a refused file.
ghost use Rattle.std.specs.Prelude.{◌≡◌, length};
ghost use Rattle.report.specs.Printing.{printed_numbers, answer_for, numbers_for, buffer_with};
ghost use Rattle.report.specs.Sheet.{refused_text};

use crate::printing::Unprinted;
use crate::{printing, text};

// The most bytes of the line: the word, three numbers of at most 20 digits, three spaces and the newline.
const ROOM: usize = 71;

// Prints the line of a refusal: its number, table and record. Three numbers, since this crate knows no file.
#[tactic(auto, using(crate::proofs::Puts::front_of), unfolding(crate::specs::Sheet::refused_text, crate::specs::Sheet::refused_word))]
pub fn refusal_line(
    number: u64,
    table: u64,
    record: u64,
    out: &mut [u8],
) -> Result<usize, Unprinted>
    ensures value { result ≡ answer_for (refused_text number table «record») (length out.old) }
    ensures result_value { printed_numbers result ≡ numbers_for 0 (refused_text number table «record») (length out.old) }
    ensures out_after { out.new ≡ buffer_with (refused_text number table «record») out.old }
{
    // A text is put into a lent slice, and an ArrayVec lends no room that is not filled: so the room is an array, and is cut.
    let mut room = [0u8; ROOM];
    let count = text::put_word_line(b"refused", &[number, table, record], &mut room);
    printing::print_text(&room[..count], out)
}
