// Reads a file from standard input and prints its sheet, or the line of its refusal, to standard output.
#![tactic(auto)]

ghost use Rattle.std.specs.Prelude.{◌++◌, ◌≡◌, ◌≤◌, ◌<◌, length, take, drop};
ghost use Rattle.book_file.specs.Answers.{place_numbers};
ghost use Rattle.book_file.specs.File.{most_bytes};
ghost use Rattle.book_file.specs.Loading.{load_book};
ghost use Rattle.report.specs.Printing.{buffer_with};
ghost use Rattle.report.specs.Sheet.{sheet_text};
ghost use Rattle.quaymeter.specs.Program.{refused_line, printed_from, printed};

use book_file::{Load, Numbers, Place};
use book_words::SoundWords;

// One byte more than the longest file, so that a longer input is refused and not cut.
const INPUT_ROOM: usize = 16_385;

// The whole job, from bytes to bytes: puts what is printed for a file at the start of the buffer, and answers its length.
fn print_file(file: &[u8], out: &mut [u8; report::SHEET_ROOM]) -> usize
    ensures value { result ≡ length (printed file.now) }
    ensures out_after { out.new ≡ printed file.now ++ drop result out.old }
{
    let mut book = [0u64; book_words::BOOK_LENGTH];
    print_loaded(file, &mut book, out)
}

// The same, with the book that the file is loaded into.
#[tactic(auto, using(crate::proofs::Printing::printed_book, crate::proofs::Printing::printed_refusal))]
fn print_loaded(file: &[u8], book: &mut [u64], out: &mut [u8; report::SHEET_ROOM]) -> usize
    ensures value { result ≡ length (printed_from book.old file.now) }
    ensures book_after { book.new ≡ load_book book.old file.now }
    ensures out_after { out.new ≡ buffer_with (printed_from book.old file.now) out.old }
{
    // Matched, as document 01 wants it of the program that prints.
    let answer = book_file::load(book, file);
    match answer {
        Load::Loaded => print_book(&SoundWords::of(book), out),
        Load::Stopped(number, place) => print_refusal(number, place, out),
    }
}

// Prints the sheet of a loaded book.
#[tactic(auto, using(crate::proofs::Printing::sheet_whole))]
fn print_book(book: &SoundWords, out: &mut [u8; report::SHEET_ROOM]) -> usize
    ensures value { result ≡ length (sheet_text book.now) }
    ensures out_after { out.new ≡ buffer_with (sheet_text book.now) out.old }
{
    report::sheet_sound(book, out).unwrap()
}

// Prints the line of a stop at a place.
#[tactic(auto, using(crate::proofs::Printing::line_whole))]
fn print_refusal(number: u64, place: Place, out: &mut [u8; report::SHEET_ROOM]) -> usize
    ensures value { result ≡ length (refused_line (place_numbers number place)) }
    ensures out_after { out.new ≡ buffer_with (refused_line (place_numbers number place)) out.old }
{
    let numbers = Numbers::from(Load::Stopped(number, place));
    report::refusal_line(numbers.refusal, numbers.table, numbers.record, out).unwrap()
}

// Reads the input, or its first bytes where it is longer than any file: the buffer has room for the byte that shows it. A read
// that fails counts as the end of the input.
fn read_input(rt: &HostRuntime, input: &mut [u8]) -> usize
    requires { most_bytes < length input.old }
    ensures { (result ≤ length input.new) × (result ≡ length (take result input.new)) }
{
    book_file::read_full(&mut rt.stdin(), input).unwrap_or_else(|got| got)
}

// Writes what is to be printed for a file. A write that fails is told on standard error.
fn write_output(rt: &HostRuntime, file: &[u8], text: &[u8])
    requires { text.now ≡ printed file.now }
{
    if rt.stdout().write_all(text).is_err() {
        let _ = rt
            .stderr()
            .write_all(b"quaymeter: the sheet could not be written\n");
    }
}

fn main(rt: HostRuntime) {
    // A read needs bytes that are there, so the buffer is an array, cut at what came.
    let mut input = [0u8; INPUT_ROOM];
    let mut out = [0u8; report::SHEET_ROOM];
    let got = read_input(&rt, &mut input);
    let count = print_file(&input[..got], &mut out);
    write_output(&rt, &input[..got], &out[..count]);
}
