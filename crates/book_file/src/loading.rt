// Loading: the header's grounds, then a fresh book and the calls of the records.
ghost use Rattle.std.specs.Prelude.{◌≡◌};
ghost use Rattle.book_file.specs.declared.answers.Load.TheVariants.{Loaded};
ghost use Rattle.book_file.specs.Answers.{numbers_of};
ghost use Rattle.book_file.specs.Inner.Steps.{answer_in};
ghost use Rattle.book_file.specs.Loading.{loading_of, tasks_of, carried_on, load_of, load_answer, load_numbers, load_book};

use crate::answers::{Load, Place, Stop, stop_at};
use crate::header;
use crate::records::{CategoryRecord, Closing, ElementRecord};
use crate::tables::load_table;
use book::{PostArguments, SoundBook};
use book_words::SoundWords;

// Loads a file into a book of any words. A load that stops on a record leaves what the calls before it made; one that the
// header stops leaves the book untouched.
#[tactic(auto, unfolding(crate::specs::Loading::load_of))]
pub fn load(book: &mut [u64], file: &[u8]) -> Load
    ensures value { result ≡ load_answer book.old file.now }
    ensures result_value { numbers_of result ≡ load_numbers book.old file.now }
    ensures book_after { book.new ≡ load_book book.old file.now }
{
    // Into the form that document 01 names.
    match load_unless_stopped(book, file) {
        Ok(()) => Load::Loaded,
        Err(stop) => Load::Stopped(stop.refusal.into(), stop.place),
    }
}

// The same, with the answer as a result.
fn load_unless_stopped(book: &mut [u64], file: &[u8]) -> Result<(), Stop>
    ensures { loading_of (answer_in result) book.new ≡ load_of book.old file.now }
{
    stop_at(header::check_grounds(book.len(), file), Place::Header)?;
    // Accepted: the slice is long enough.
    book::fresh(book).unwrap();
    let sums = SoundWords::of(book).sums();
    load_records(&mut SoundBook { words: book, sums }, file)
}

// Opens all, posts all, enrols or quotes all, closes those flagged.
fn load_records(book: &mut SoundBook, file: &[u8]) -> Result<(), Stop>
    ensures book_after { loading_of (answer_in result) book.new.words.now
        ≡ carried_on (loading_of Loaded book.old.words.now) (tasks_of file.now) }
    ensures same_words { book.new.words.ghost_name ≡ book.old.words.ghost_name }
{
    load_table::<CategoryRecord>(book, file)?;
    load_table::<PostArguments>(book, file)?;
    load_table::<ElementRecord>(book, file)?;
    load_table::<Closing>(book, file)
}
