// The header: eight u32, namely 14083, categories, their offset, entries, offset, elements, offset, file length.
ghost use Rattle.std.specs.Prelude.{◌≡◌, ◌≤◌, ◌<◌, ◌^◌};
ghost use Rattle.apportion.specs.Refusals.{refusal_in};
ghost use Rattle.book_file.specs.File.{header_number, record_at, section_end, wrong_header, misplaced, wrong_sections, header_refusal};
ghost use Rattle.book_file.specs.Loading.{section_of};

use crate::numbers;
use crate::records::{CategoryRecord, ElementRecord, FileRecord};
use apportion::{Refusal, first_of};
use book::PostArguments;

// The bytes of the header, and the most bytes of a file.
const LENGTH: usize = 32;

const MOST_BYTES: usize = 16_384;

// A section: how many records it has, where the first starts, and the bytes of each.
#[derive(Clone, Copy)]
pub struct Section {
    pub count: u32,
    pub start: u32,
    pub size: u8,
}

impl Section {
    // Where the record at a place starts.
    pub fn record_at(self, place: u32) -> usize
        ensures value { result ≡ record_at self place }
        ensures upper_bound { result < 2 ^ 41 }
    {
        self.start as usize + place as usize * self.size as usize
    }

    // Where the section ends.
    fn end(self) -> usize
        ensures { result ≡ section_end self }
    {
        self.record_at(self.count)
    }

    // Whether it starts before `earliest`, or ends past the file.
    #[tactic(auto, unfolding(crate::specs::File::misplaced))]
    fn is_misplaced(self, earliest: usize, length: usize) -> bool
        ensures { result ≡ misplaced earliest self length }
    {
        ((self.start as usize) < earliest) | (length < self.end())
    }
}

// The grounds 1, 11 and 12. `words` is the length of the book's slice.
#[tactic(auto, unfolding(crate::specs::File::header_refusal))]
pub fn check_grounds(words: usize, file: &[u8]) -> Result<(), Refusal>
    ensures { refusal_in result ≡ header_refusal words file.now }
{
    let short = words < book_words::BOOK_LENGTH;
    let wrong = is_wrong(file);
    let misplaced = are_misplaced(file);
    first_of(&[
        (Refusal::Unfit, short),
        (Refusal::WrongHeader, wrong),
        (Refusal::Misplaced, misplaced),
    ])
}

// Ground 11: the length of the file, and the first and the last number of its header.
#[tactic(auto, unfolding(crate::specs::File::wrong_header))]
fn is_wrong(file: &[u8]) -> bool
    ensures { result ≡ wrong_header file.now }
{
    let length = file.len();
    (length < LENGTH)
        | (MOST_BYTES < length)
        | (u64::from(number(file, 0)) != book_words::MARK)
        | (number(file, 7) as usize != length)
}

// Ground 12, of the three sections.
#[tactic(auto, unfolding(crate::specs::File::wrong_sections))]
fn are_misplaced(file: &[u8]) -> bool
    ensures { result ≡ wrong_sections file.now }
{
    let length = file.len();
    let categories = section_of::<CategoryRecord>(file);
    let entries = section_of::<PostArguments>(file);
    let elements = section_of::<ElementRecord>(file);
    categories.is_misplaced(LENGTH, length)
        | entries.is_misplaced(categories.end(), length)
        | elements.is_misplaced(entries.end(), length)
}

// The section of a table's records.
pub fn section_of<R: FileRecord>(file: &[u8]) -> Section
    ensures { result ≡ section_of file.now R.TABLE }
{
    Section {
        count: number(file, R::POSITION),
        start: number(file, R::POSITION + 1),
        size: R::SIZE,
    }
}

// A number of the header, 0 to 7.
fn number(file: &[u8], position: usize) -> u32
    requires { position ≤ 7 }
    ensures { result ≡ header_number file.now position }
{
    numbers::u32_at(file, 4 * position)
}
