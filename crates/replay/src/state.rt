// What is kept from record to record.
ghost use Rattle.std.specs.Prelude.{◌≡◌, true, ◌&&◌, ◌+◌, ◌<◌, ◌^◌};
ghost use Rattle.replay.specs.Replay.{machine_of, bad};
ghost use Rattle.replay.specs.Stages.{stage_of, first_stage, on_machine, ended};

use crate::output::Output;
use crate::{cells, files, memory};
use arrayvec::ArrayVec;
use std::io::Stdout;
use workbook::Cell;

// No `Model` whose view is the stage: the other files write these fields, and the stage leaves out the flag of the output.
#[derive(Drop)]
pub struct State {
    // The words of the book's array.
    pub memory: [u64; memory::LENGTH],
    // The weights that are listed.
    pub weights: ArrayVec<u64, { memory::ROOM }>,
    // The cells that are listed.
    pub cells: ArrayVec<Cell, { cells::COUNT }>,
    // How many words of the array are lent to the book's calls: cut at the array's length where they are lent, since as a ghost field that
    // would have to be shown after every operation.
    pub lent: usize,
    // The bytes of a file that have come, and how many are to come.
    pub file: ArrayVec<u8, { files::ROOM }>,
    pub missing: usize,
    // How many records have been handled.
    pub passed: u64,
    // False after a bad record. A flag that has no value beside it; the stage that each method promises holds it, so a method answers nothing.
    pub good: bool,
    pub output: Output,
}

impl State {
    // Before the first record: no weight and no cell is listed, the whole array is lent, no file is on its way and no byte waits.
    pub fn new(stdout: Stdout) -> State
        ensures value { stage_of result ≡ first_stage }
        ensures ok_value { result.output.ok ≡ true }
    {
        State {
            memory: [0; memory::LENGTH],
            weights: ArrayVec::new(),
            cells: ArrayVec::new(),
            lent: memory::LENGTH,
            file: ArrayVec::new(),
            missing: 0,
            passed: 0,
            good: true,
            output: Output::new(stdout),
        }
    }

    // The record is bad. The output, whose flag the stage leaves out, is as it was: so `ok_after`, here and below.
    pub fn set_bad(&mut self)
        ensures stage_after { stage_of self.new ≡ on_machine bad (stage_of self.old) }
        ensures ok_after { self.new.output.ok ≡ self.old.output.ok }
    {
        self.good = false;
    }

    // No record was bad and no write failed.
    pub fn goes_on(&self) -> bool
        ensures { result ≡ self.now.good && self.now.output.ok }
    {
        self.good && self.output.ok
    }

    // The input ends: a bad record has its line, and where a file is still to come, so has the record that did not come, which is
    // one more than were handled.
    #[tactic(auto, unfolding(crate::specs::Stages::ended, crate::specs::Text::bad_record, crate::specs::Text::bad_line))]
    pub fn end(&mut self)
        requires { self.old.passed + 1 < 2 ^ 64 }
        ensures { machine_of self.new ≡ ended (stage_of self.old) }
    {
        if self.good && self.missing == 0 {
            return;
        }
        self.output.put_bytes(b"bad record ");
        self.output.print(&[self.passed + u64::from(self.good)]);
    }
}
