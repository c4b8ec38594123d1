// Operations 1 to 9 and 17: the calls of the book, on the lent words of its array.
ghost use Rattle.std.specs.Prelude.{◌≡◌};
ghost use Rattle.conservation.specs.Runs.{step_reply_in};
ghost use Rattle.replay.specs.Inner.Operations.{fresh_made, made, stated, intensity_told, line_made};
ghost use Rattle.replay.specs.Stages.{stage_of, on_machine};

use crate::state::State;
use apportion::{Refusal, refusal_number};
use book::LineArguments;
use conservation::Call;
use workbook::Line;

impl State {
    // Operation 1: makes an empty book.
    #[tactic(auto, unfolding(crate::specs::Text::numbers_line))]
    pub fn fresh(&mut self)
        ensures { stage_of self.new ≡ on_machine fresh_made (stage_of self.old) }
    {
        let lent = self.lent_count();
        let refusal = refusal_number(book::fresh(&mut self.memory[..lent]));
        self.output.print_line(refusal, &[]);
    }

    // Operations 2 to 7, and 17 with its line. Strike and close answer the refusal number alone.
    #[tactic(auto, unfolding(crate::specs::Text::numbers_line))]
    pub fn make(&mut self, call: Call)
        ensures { stage_of self.new ≡ on_machine (made call) (stage_of self.old) }
    {
        let lent = self.lent_count();
        let answer = conservation::perform(&mut self.memory[..lent], call);
        let refusal = refusal_number(answer);
        match call {
            Call::Strike(_) | Call::Close(_) => self.output.print_line(refusal, &[]),
            _ => self.output.print_line(refusal, &[record_number(answer)]),
        }
    }

    // Operation 8: the statement of a chain.
    #[tactic(auto, unfolding(crate::specs::Text::numbers_line))]
    pub fn statement(&mut self, chain: u64)
        ensures { stage_of self.new ≡ on_machine (stated chain) (stage_of self.old) }
    {
        let lent = self.lent_count();
        match book::statement(&self.memory[..lent], chain) {
            Ok(s) => {
                let numbers: [u64; 5] = s.into();
                self.output.print_line(0, &numbers);
            }
            Err(refusal) => self.output.print_line(refusal.into(), &[0; 5]),
        }
    }

    // Operation 9: the intensities of a code in a category.
    #[tactic(auto, unfolding(crate::specs::Text::numbers_line))]
    pub fn intensity(&mut self, category: u64, code: u64)
        ensures { stage_of self.new ≡ on_machine (intensity_told category code) (stage_of self.old) }
    {
        let lent = self.lent_count();
        match book::intensity(&self.memory[..lent], category, code) {
            Ok(i) => self.output.print_line(0, &[i.operation, i.provision]),
            Err(refusal) => self.output.print_line(refusal.into(), &[0; 2]),
        }
    }

    // Operation 17: posts the line of the listed cells, which have to be three, and empties the list.
    pub fn line(&mut self, category: u64, group: u64)
        ensures { stage_of self.new ≡ on_machine (line_made category group) (stage_of self.old) }
    {
        let &[quantity, operation_factor, provision_factor] = self.cells.as_slice() else {
            self.set_bad();
            return;
        };
        let line = Line {
            quantity,
            operation_factor,
            provision_factor,
        };
        self.make(Call::Line(LineArguments {
            category,
            group,
            line,
        }));
        self.cells.clear();
    }
}

// The number of the record that a call appended; 0 where it appended none.
fn record_number(answer: Result<Option<u64>, Refusal>) -> u64
    ensures { result ≡ (step_reply_in answer).number }
{
    answer.ok().flatten().unwrap_or_default()
}
