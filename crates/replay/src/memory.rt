// Operations 10 to 14: the words of the book's array, lent or not, and the weights that are listed.
ghost use Rattle.std.specs.Prelude.{◌≡◌};
ghost use Rattle.replay.specs.Replay.{lent_count, machine_of, division_done, listed, poked, lent_anew, dumped};
ghost use Rattle.replay.specs.Stages.{stage_of, on_machine};

use crate::state::State;

// The words of the array.
pub const LENGTH: usize = 3000;

// Room for the listed weights, and for the longest slice of shares.
pub const ROOM: usize = 300;

impl State {
    // How many words are lent, of those that the array has.
    pub fn lent_count(&self) -> usize
        ensures { result ≡ lent_count (machine_of self.now) }
    {
        self.lent.min(LENGTH)
    }

    // Operation 10: divides the pool over the listed weights into so many shares, prints the answer and empties the list.
    #[tactic(auto, unfolding(crate::specs::Replay::division_done, crate::specs::Text::numbers_line))]
    pub fn divide(&mut self, pool: u64, size: u64)
        ensures { stage_of self.new ≡ on_machine (division_done pool size) (stage_of self.old) }
    {
        let size = size as usize;
        if size > ROOM {
            self.set_bad();
            return;
        }
        let weights = self.weights.as_slice();
        self.output
            .print_call(size, |shares| apportion::divide(pool, weights, shares));
        self.weights.clear();
    }

    // Operation 11: lists a weight, where there is room.
    pub fn list_weight(&mut self, weight: u64)
        ensures stage_after { stage_of self.new ≡ on_machine (listed weight) (stage_of self.old) }
        ensures ok_after { self.new.output.ok ≡ self.old.output.ok }
    {
        if self.weights.try_push(weight).is_err() {
            self.set_bad();
        }
    }

    // Operation 12: writes a word of the array.
    pub fn poke(&mut self, index: u64, word: u64)
        ensures stage_after { stage_of self.new ≡ on_machine (poked index word) (stage_of self.old) }
        ensures ok_after { self.new.output.ok ≡ self.old.output.ok }
    {
        let index = index as usize;
        if index < LENGTH {
            self.memory[index] = word;
        } else {
            self.set_bad();
        }
    }

    // Operation 13: later calls get so many words.
    pub fn lend(&mut self, count: u64)
        ensures stage_after { stage_of self.new ≡ on_machine (lent_anew count) (stage_of self.old) }
        ensures ok_after { self.new.output.ok ≡ self.old.output.ok }
    {
        let count = count as usize;
        if count <= LENGTH {
            self.lent = count;
        } else {
            self.set_bad();
        }
    }

    // Operation 14: prints `count` words, those from `start` on.
    #[tactic(auto, unfolding(crate::specs::Replay::dumped))]
    pub fn dump(&mut self, start: u64, count: u64)
        ensures { stage_of self.new ≡ on_machine (dumped start count) (stage_of self.old) }
    {
        let start = start as usize;
        let count = count as usize;
        if start <= LENGTH && count <= LENGTH - start {
            let words = &self.memory[..];
            self.output.print(&words[start..start + count]);
        } else {
            self.set_bad();
        }
    }
}
