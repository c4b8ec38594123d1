// Operation 18: a closing is previewed on the lent words.
ghost use Rattle.std.specs.Prelude.{◌≡◌};
ghost use Rattle.replay.specs.Replay.{preview_done};
ghost use Rattle.replay.specs.Stages.{stage_of, on_machine};

use crate::state::State;

// The longest slice of pairs.
pub const PAIR_ROOM: usize = 600;

impl State {
    // Previews the closing of a category into so many words, and prints the answer.
    #[tactic(auto, unfolding(crate::specs::Replay::preview_done, crate::specs::Text::numbers_line))]
    pub fn preview(&mut self, category: u64, size: u64)
        ensures { stage_of self.new ≡ on_machine (preview_done category size) (stage_of self.old) }
    {
        let size = size as usize;
        if size > PAIR_ROOM {
            self.set_bad();
            return;
        }
        let lent = self.lent_count();
        let words = &self.memory[..lent];
        self.output
            .print_call(size, |pairs| book::preview(words, pairs, category));
    }
}
