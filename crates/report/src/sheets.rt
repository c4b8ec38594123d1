// A sheet: the heading, one line for each used chain, ascending, and the class total.
ghost use Rattle.std.specs.Prelude.{true, ◌≡◌, ◌≤◌, length};
ghost use Rattle.book.specs.Statements.{reply_with};
ghost use Rattle.book_words.specs.Book.{elements, most_elements};
ghost use Rattle.book_words.specs.Soundness.{sound};
ghost use Rattle.report.specs.Inner.Table.{row_lines, table_text};
ghost use Rattle.report.specs.Printing.{Put, printed_numbers, answer_for, numbers_for, buffer_with};
ghost use Rattle.report.specs.Sheet.{sheet_text, sheet_room, sheet_answer, sheet_numbers, sheet_buffer};

use crate::printing::Unprinted;
use crate::table::{Row, Table};
use crate::{printing, table, text};
use apportion::Refusal;
use arrayvec::ArrayVec;
use book_words::{Element, Record, SoundWords};

// Room enough for a sheet: the heading, 256 lines of at most 74 bytes, and a last one of at most 72.
pub const SHEET_ROOM: usize = 19_065;

// The most rows of a small table, and of any, which has one for each element at most.
const FEW: usize = 32;

const MOST: usize = Element::MOST as usize;

// Prints the sheet of a book of any words.
#[tactic(auto, unfolding(crate::specs::Sheet::sheet_refusal, crate::specs::Sheet::sheet_answer, crate::specs::Sheet::sheet_numbers, crate::specs::Sheet::sheet_buffer, crate::specs::Printing::numbers_for))]
pub fn sheet(book: &[u64], out: &mut [u8]) -> Result<usize, Unprinted>
    ensures value { result ≡ sheet_answer book.now (length out.old) }
    ensures result_value { printed_numbers result ≡ sheet_numbers book.now (length out.old) }
    ensures out_after { out.new ≡ sheet_buffer book.now out.old }
{
    let book = SoundWords::tested(book)?;
    sheet_sound(&book, out)
}

// The same of a book that is known to be sound.
#[tactic(auto, unfolding(crate::specs::Sheet::sheet_refusal, crate::specs::Sheet::sheet_answer, crate::specs::Sheet::sheet_numbers, crate::specs::Sheet::sheet_buffer, crate::specs::Printing::answer_for, crate::specs::Printing::numbers_for, crate::specs::Printing::buffer_with))]
pub fn sheet_sound(book: &SoundWords, out: &mut [u8]) -> Result<usize, Unprinted>
    ensures book { sound book.now ≡ true }
    ensures value { result ≡ sheet_answer book.now (length out.old) }
    ensures result_value { printed_numbers result ≡ sheet_numbers book.now (length out.old) }
    ensures out_after { out.new ≡ sheet_buffer book.now out.old }
{
    if SHEET_ROOM <= out.len() {
        return Ok(write_sheet(book, out));
    }
    print_within(book, out)
}

// The same, for a buffer that may be too small: the text is written beside it first.
#[tactic(auto, using(crate::proofs::Puts::front_of))]
fn print_within(book: &SoundWords, out: &mut [u8]) -> Result<usize, Unprinted>
    ensures book { sound book.now ≡ true }
    ensures value { result ≡ answer_for (sheet_text book.now) (length out.old) }
    ensures result_value { printed_numbers result ≡ numbers_for 0 (sheet_text book.now) (length out.old) }
    ensures out_after { out.new ≡ buffer_with (sheet_text book.now) out.old }
{
    // A text is put into a lent slice, and an ArrayVec lends no room that is not filled: so the room is an array, and is cut.
    let mut room = [0u8; SHEET_ROOM];
    let count = write_sheet(book, &mut room);
    printing::print_text(&room[..count], out)
}

// Writes the text of a sheet to the start of the buffer, and answers its length. Few elements are collected in a small table,
// which costs less to clear.
fn write_sheet(book: &SoundWords, out: &mut [u8]) -> usize
    requires { sheet_room ≤ length out.old }
    ensures book { sound book.now ≡ true }
    ensures put { Put (sheet_text book.now) out.old out.new result }
{
    if book.count::<Element>() <= FEW as u64 {
        return write_with_table::<FEW>(book, out);
    }
    write_with_table::<MOST>(book, out)
}

// The same with a table of at most N rows: one walk makes it, and all lines are put from it.
fn write_with_table<const N: usize>(book: &SoundWords, out: &mut [u8]) -> usize
    requires room { (elements book.now ≤ N) × (N ≤ most_elements) }
    requires sheet_room_in_bounds { sheet_room ≤ length out.old }
    ensures { Put (sheet_text book.now) out.old out.new result }
{
    let mut rows: ArrayVec<Row, N> = ArrayVec::new();
    let total = table::collect(book, &mut rows);
    let table = Table { rows: &rows, total };
    table.put(out)
}

impl<'a> Table<'a> {
    // Puts the heading, the lines of the rows, and the class total. The words are fixed byte strings, as document 01 has them.
    #[tactic(auto, unfolding(crate::specs::Inner::Table::table_text, crate::specs::Sheet::heading, crate::specs::Sheet::all_line, crate::specs::Sheet::all_word))]
    fn put(&self, out: &mut [u8]) -> usize
        requires { length (table_text self.now.rows.now (reply_with self.now.total)) ≤ length out.old }
        ensures { Put (table_text self.now.rows.now (reply_with self.now.total)) out.old out.new result }
    {
        let heading = text::put_bytes(b"chain elements waiting operation provision total\n", out);
        let lines = heading + self.put_lines(&mut out[heading..]);
        let numbers: [u64; 5] = self.total.into();
        lines + text::put_word_line(b"all", &numbers, &mut out[lines..])
    }

    // Puts the lines of the rows.
    fn put_lines(&self, out: &mut [u8]) -> usize
        requires { length (row_lines self.now.rows.now) ≤ length out.old }
        ensures { Put (row_lines self.now.rows.now) out.old out.new result }
    {
        let mut count = 0;
        for row in self.rows {
            let numbers: [u64; 5] = row.held.with_total().into();
            count += text::put_line(row.chain, &numbers, &mut out[count..]);
        }
        count
    }
}
