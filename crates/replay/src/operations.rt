// The operations: what the words of a record ask for, and what is done.
ghost use Rattle.std.specs.Prelude.{◌≡◌};
ghost use Rattle.replay.specs.Answers.{post_of, enrol_of, quote_of};
ghost use Rattle.replay.specs.Stages.{stage_of, handled};
ghost use Rattle.replay.specs.Inner.Operations.{AsksFor, operation_done};

use crate::records;
use crate::records::{BadRecord, Words};
use crate::state::State;
use book::{EnrolArguments, PostArguments, QuoteArguments};
use conservation::Call;
use workbook::Cell;

// An operation, with the numbers that it takes.
#[derive(Clone, Copy)]
pub enum Operation {
    // 1.
    Fresh,
    // 2 to 7.
    Make(Call),
    // 8, of a chain.
    Statement(u64),
    // 9, of a category and a code.
    Intensity(u64, u64),
    // 10, of a pool and a number of shares.
    Divide(u64, u64),
    // 11.
    Weight(u64),
    // 12, of an index and a word.
    Poke(u64, u64),
    // 13.
    Lend(u64),
    // 14, of a start and a count.
    Dump(u64, u64),
    // 15, of a length.
    Load(u64),
    // 16.
    List(Cell),
    // 17, of a category and a group.
    Line(u64, u64),
    // 18, of a category and a number of words.
    Preview(u64, u64),
}

// The operation that the words of a record ask for.
impl TryFrom<Words> for Operation {
    type Error = BadRecord;

    ghost try_from_gives = { AsksFor };

    #[tactic(auto, unfolding(crate::specs::Inner::Operations::AsksFor, crate::specs::Inner::Operations::operation_done, crate::specs::Stages::operated, crate::specs::Stages::due, crate::specs::Replay::performed, crate::specs::Replay::called, crate::specs::Replay::changed, crate::specs::Answers::answered, crate::specs::Answers::call_of, crate::specs::Replay::line_done, crate::specs::Replay::cell_listed))]
    fn try_from(words: Words) -> Result<Operation, BadRecord> {
        Ok(match words.operation {
            1 => Operation::Fresh,
            2 => Operation::Make(Call::Open(words.first)),
            3 => Operation::Make(Call::Post(words.into())),
            4 => Operation::Make(Call::Strike(words.first)),
            5 => Operation::Make(Call::Enrol(words.into())),
            6 => Operation::Make(Call::Quote(words.into())),
            7 => Operation::Make(Call::Close(words.first)),
            8 => Operation::Statement(words.first),
            9 => Operation::Intensity(words.first, words.second),
            10 => Operation::Divide(words.first, words.second),
            11 => Operation::Weight(words.first),
            12 => Operation::Poke(words.first, words.second),
            13 => Operation::Lend(words.first),
            14 => Operation::Dump(words.first, words.second),
            15 => Operation::Load(words.first),
            16 => Operation::List(words.try_into()?),
            17 => Operation::Line(words.first, words.second),
            18 => Operation::Preview(words.first, words.second),
            _ => return Err(BadRecord),
        })
    }
}

// The arguments of a post, an enrolment and a quote.
impl From<Words> for PostArguments {
    ghost from_gives = { λ words arguments. arguments ≡ post_of words };

    fn from(words: Words) -> PostArguments {
        PostArguments {
            category: words.first,
            group: words.second,
            quantity: words.third,
            operation_factor: words.fourth,
            provision_factor: words.fifth,
        }
    }
}

impl From<Words> for EnrolArguments {
    ghost from_gives = { λ words arguments. arguments ≡ enrol_of words };

    fn from(words: Words) -> EnrolArguments {
        EnrolArguments {
            category: words.first,
            chain: words.second,
            code: words.third,
            amount: words.fourth,
            distance: words.fifth,
            kg_per_head: words.sixth,
        }
    }
}

impl From<Words> for QuoteArguments {
    ghost from_gives = { λ words arguments. arguments ≡ quote_of words };

    fn from(words: Words) -> QuoteArguments {
        QuoteArguments {
            chain: words.first,
            adjust: words.second,
            mass: words.third,
            distance: words.fourth,
            operation_intensity: words.fifth,
            provision_intensity: words.sixth,
        }
    }
}

impl State {
    // Does what the record at the start of the bytes asks for. One that is cut short is bad.
    #[tactic(auto, unfolding(crate::specs::Stages::handled, crate::specs::Stages::due, crate::specs::Replay::performed, crate::specs::Replay::called, crate::specs::Answers::answered, crate::specs::Inner::Operations::AsksFor))]
    pub fn handle(&mut self, bytes: &[u8])
        ensures { stage_of self.new ≡ handled bytes.now (stage_of self.old) }
    {
        if bytes.len() < records::SIZE {
            self.set_bad();
        } else if self.missing > 0 {
            self.take(bytes);
            self.load();
        } else {
            match Operation::try_from(records::read(bytes)) {
                Ok(operation) => self.perform(operation),
                Err(BadRecord) => self.set_bad(),
            }
        }
    }

    // Performs an operation: each is another method with other numbers.
    #[tactic(auto, unfolding(crate::specs::Inner::Operations::operation_done))]
    fn perform(&mut self, operation: Operation)
        ensures { stage_of self.new ≡ operation_done operation (stage_of self.old) }
    {
        match operation {
            Operation::Fresh => self.fresh(),
            Operation::Make(call) => self.make(call),
            Operation::Statement(chain) => self.statement(chain),
            Operation::Intensity(category, code) => self.intensity(category, code),
            Operation::Divide(pool, shares) => self.divide(pool, shares),
            Operation::Weight(weight) => self.list_weight(weight),
            Operation::Poke(index, word) => self.poke(index, word),
            Operation::Lend(count) => self.lend(count),
            Operation::Dump(start, count) => self.dump(start, count),
            Operation::Load(length) => self.begin_load(length),
            Operation::List(cell) => self.list_cell(cell),
            Operation::Line(category, group) => self.line(category, group),
            Operation::Preview(category, size) => self.preview(category, size),
        }
    }
}
