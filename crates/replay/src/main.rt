// Reads a list of calls from standard input, to its end, and prints each answer.
//
// A call is a record of 64 bytes: eight words, the operation and seven arguments. After operation 15 the records
// are the bytes of a file, the last padded to a whole record. The line of a bad record, `bad record N`, is the last;
// so is that of a record that does not come, where the input ends within a file.
#![tactic(auto)]

mod calls;
mod cells;
mod files;
mod memory;
mod operations;
mod output;
mod previews;
mod records;
mod state;

ghost use Rattle.std.specs.Prelude.{◌≡◌, true, ◌+◌, ◌≤◌, ◌<◌, ◌^◌, length};
ghost use Rattle.replay.specs.Stages.{stage_of, replayed};

use book_file::read_full;
use state::State;

// Does what the records of a chunk ask for, up to a bad one or a write that failed.
fn play(state: &mut State, chunk: &[u8])
    requires { state.old.passed + length chunk.now < 2 ^ 64 }
    ensures state_after { state.new.output.ok ≡ true → stage_of state.new ≡ replayed chunk.now (stage_of state.old) }
    ensures passed_bound { state.new.passed ≤ state.old.passed + length chunk.now }
{
    for record in chunk.chunks(records::SIZE) {
        state.passed += 1;
        state.handle(record);
        if !state.goes_on() {
            return;
        }
    }
}

// A proved loop has to end, and nothing says that the input does. So the loop counts its turns, up to a number that
// no run reaches: that many chunks are just below 2^64 bytes.
const TURNS: u64 = u64::MAX / 65_536;

fn main(rt: HostRuntime) {
    let mut stdin = rt.stdin();
    // A read needs bytes that are there, so the buffer is an array, cut at what came.
    let mut chunk = [0u8; 65_536];
    let mut state = State::new(rt.stdout());
    for _turn in 0..TURNS {
        // A read that fails counts as the end of the input.
        let got = read_full(&mut stdin, &mut chunk).unwrap_or_else(|got| got);
        play(&mut state, &chunk[..got]);
        if got < chunk.len() || !state.goes_on() {
            break;
        }
    }
    state.end();
    state.output.flush();
}
