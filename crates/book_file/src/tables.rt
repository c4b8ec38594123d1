// The tables of a file, and the calls that their records ask for.
ghost use Rattle.std.specs.Prelude.{◌≡◌, ◌+◌, ℕ, List};
ghost use Rattle.std.proofs.Common.{refl};
ghost use Rattle.apportion.specs.Refusals.{refusal_in};
ghost use Rattle.book_file.specs.declared.answers.Load.TheVariants.{Loaded};
ghost use Rattle.book_file.specs.declared.answers.Place.{Place};
ghost use Rattle.book_file.specs.declared.answers.Place.TheVariants.{Category, Entry, Element, Closing};
ghost use Rattle.book_file.specs.Answers.{answer_at};
ghost use Rattle.book_file.specs.File.{record_at};
ghost use Rattle.book_file.specs.Inner.Steps.{answer_in, made_if};
ghost use Rattle.book_file.specs.Loading.{Loading, section_of, loading_of, opening, posting, quoting, enrolling, enrolling_or_quoting, made, tasks_in, carried_on, closing, is_flagged, is_asked, task_at};

use crate::answers::{Place, Stop};
use crate::header::Section;
use crate::records::{CategoryRecord, Closing, ElementRecord, FileRecord};
use crate::{answers, header};
use apportion::Refusal;
use book::{PostArguments, SoundBook};

// A record as a task: what it asks of a load.
pub trait Task: FileRecord {
    ghost place_of: { ℕ → Place };

    ghost made_by: { List ℕ → ℕ → Self → Loading };

    // The place of the record of this number.
    fn place(number: u64) -> Place
        ensures { result ≡ place_of number };

    // Makes the call that the record of this number asks for.
    fn call(self, book: &mut SoundBook, number: u64) -> Result<(), Refusal>
        ensures book_after { loading_of (answer_at (refusal_in result) (place_of number)) book.new.words.now
            ≡ made_by book.old.words.now number self }
        ensures same_words { book.new.words.ghost_name ≡ book.old.words.ghost_name };

    ghost as_asked: { (ws file : List ℕ) (place : ℕ)
        → made_by ws (place + 1) (Self.record_in file (record_at (section_of file Self.TABLE) place))
        ≡ made_if (is_asked file Self.TABLE place) ws (task_at file Self.TABLE place) };
}

// Opens a category.
impl Task for CategoryRecord {
    ghost place_of = { Category };

    ghost made_by = { λ ws number r. made ws (opening number r) };

    fn place(number: u64) -> Place {
        Place::Category(number)
    }

    #[tactic(auto, unfolding(crate::specs::Loading::made, crate::specs::Answers::answer_at))]
    fn call(self, book: &mut SoundBook, _number: u64) -> Result<(), Refusal> {
        let misflagged = self.flag > 1;
        if misflagged {
            return Err(Refusal::WrongField);
        }
        book.open(self.kind).map(|_| ())
    }

    ghost as_asked = { λ ws file place. refl };
}

// Posts an entry.
impl Task for PostArguments {
    ghost place_of = { Entry };

    ghost made_by = { λ ws number p. made ws (posting number p) };

    fn place(number: u64) -> Place {
        Place::Entry(number)
    }

    fn call(self, book: &mut SoundBook, _number: u64) -> Result<(), Refusal> {
        book.post(self).map(|_| ())
    }

    ghost as_asked = { λ ws file place. refl };
}

// Enrols an element or, with category 0, quotes one.
impl Task for ElementRecord {
    ghost place_of = { Element };

    ghost made_by = { λ ws number r. made ws (enrolling_or_quoting number r) };

    fn place(number: u64) -> Place {
        Place::Element(number)
    }

    fn call(self, book: &mut SoundBook, _number: u64) -> Result<(), Refusal> {
        if self.category == 0 {
            return quote(book, self);
        }
        enrol(book, self)
    }

    ghost as_asked = { λ ws file place. refl };
}

// Closes a category that is flagged.
impl Task for Closing {
    ghost place_of = { Closing };

    ghost made_by = { λ ws number r. made_if (is_flagged r.category) ws (closing number) };

    fn place(number: u64) -> Place {
        Place::Closing(number)
    }

    #[tactic(auto, unfolding(crate::specs::Loading::made, crate::specs::Answers::answer_at))]
    fn call(self, book: &mut SoundBook, number: u64) -> Result<(), Refusal> {
        if self.category.flag != 1 {
            return Ok(());
        }
        book.close(number)
    }

    ghost as_asked = { λ ws file place. refl };
}

// Quote and enrol: each has its own test of ground 13 and its own call.
#[tactic(auto, unfolding(crate::specs::Loading::made, crate::specs::Answers::answer_at))]
fn quote(book: &mut SoundBook, element: ElementRecord) -> Result<(), Refusal>
    ensures book_after { (number : ℕ) → loading_of (answer_at (refusal_in result) (Element number)) book.new.words.now
        ≡ made book.old.words.now (quoting number element) }
    ensures same_words { book.new.words.ghost_name ≡ book.old.words.ghost_name }
{
    if element.code != 0 {
        return Err(Refusal::WrongField);
    }
    book.quote(element.into()).map(|_| ())
}

#[tactic(auto, unfolding(crate::specs::Loading::made, crate::specs::Answers::answer_at))]
fn enrol(book: &mut SoundBook, element: ElementRecord) -> Result<(), Refusal>
    ensures book_after { (number : ℕ) → loading_of (answer_at (refusal_in result) (Element number)) book.new.words.now
        ≡ made book.old.words.now (enrolling number element) }
    ensures same_words { book.new.words.ghost_name ≡ book.old.words.ghost_name }
{
    let wrong_adjust = !book_words::is_passenger(element.code) & (element.adjust != 0);
    if wrong_adjust | (element.operation != 0) | (element.provision != 0) {
        return Err(Refusal::WrongField);
    }
    book.enrol(element.into()).map(|_| ())
}

// Makes the calls of the records of a table, up to one that stops the load.
pub fn load_table<R: Task>(book: &mut SoundBook, file: &[u8]) -> Result<(), Stop>
    ensures book_after { loading_of (answer_in result) book.new.words.now
        ≡ carried_on (loading_of Loaded book.old.words.now) (tasks_in file.now R.TABLE) }
    ensures same_words { book.new.words.ghost_name ≡ book.old.words.ghost_name }
{
    let section = header::section_of::<R>(file);
    for place in 0..section.count {
        load_record::<R>(book, file, section, place)?;
    }
    Ok(())
}

// Makes the call that the record at a place asks for.
fn load_record<R: Task>(
    book: &mut SoundBook,
    file: &[u8],
    section: Section,
    place: u32,
) -> Result<(), Stop>
    requires { section ≡ section_of file.now R.TABLE }
    ensures book_after { loading_of (answer_in result) book.new.words.now
        ≡ made_if (is_asked file.now R.TABLE place) book.old.words.now (task_at file.now R.TABLE place) }
    ensures same_words { book.new.words.ghost_name ≡ book.old.words.ghost_name }
{
    let record = R::read(file, section.record_at(place));
    let number = u64::from(place) + 1;
    answers::stop_at(record.call(book, number), R::place(number))
}
