// What a load answers.
ghost use Rattle.std.specs.Prelude.{◌≡◌, ℕ};
ghost use Rattle.apportion.specs.Refusals.{refusal_in};
ghost use Rattle.book_file.specs.Answers.{place_numbers, numbers_of, answer_at};
ghost use Rattle.book_file.specs.Inner.Steps.{answer_in};

use apportion::Refusal;

// Where a load stopped: the header, or a table and the number of its record.
#[derive(Clone, Copy)]
pub enum Place {
    Header,
    Category(u64),
    Entry(u64),
    Element(u64),
    // The number of the category that was to be closed.
    Closing(u64),
}

// No Result: document 01 names this form, loaded, or stopped with the refusal number and the place.
#[derive(Clone, Copy)]
pub enum Load {
    Loaded,
    // The refusal number and the place.
    Stopped(u64, Place),
}

// An answer as document 01's numbers; zeros where the file is loaded.
#[derive(Clone, Copy, Default)]
pub struct Numbers {
    pub refusal: u64,
    // 0 is the header, 1 categories, 2 entries, 3 elements, 4 closings.
    pub table: u64,
    // The record's number; a closing's is that of the category.
    pub record: u64,
}

impl Place {
    // Document 01's number of its table, and that of its record.
    fn numbers(self) -> (u64, u64)
        ensures { (refusal : ℕ) → place_numbers refusal self ≡ record { refusal = refusal; table = result.0; «record» = result.1 } }
    {
        match self {
            Place::Header => (0, 0),
            Place::Category(number) => (1, number),
            Place::Entry(number) => (2, number),
            Place::Element(number) => (3, number),
            Place::Closing(number) => (4, number),
        }
    }
}

impl From<Load> for Numbers {
    ghost from_gives = { λ answer numbers. numbers ≡ numbers_of answer };

    fn from(answer: Load) -> Numbers {
        match answer {
            Load::Loaded => Numbers::default(),
            Load::Stopped(refusal, place) => {
                let (table, record) = place.numbers();
                Numbers {
                    refusal,
                    table,
                    record,
                }
            }
        }
    }
}

// Why a load stops, and where.
#[derive(Clone, Copy)]
pub struct Stop {
    pub refusal: Refusal,
    pub place: Place,
}

// What is refused at a place stops the load there.
#[tactic(auto, unfolding(crate::specs::Answers::answer_at))]
pub fn stop_at(answer: Result<(), Refusal>, place: Place) -> Result<(), Stop>
    ensures { answer_in result ≡ answer_at (refusal_in answer) place }
{
    answer.map_err(|refusal| Stop { refusal, place })
}
