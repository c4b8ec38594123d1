// Operation 15: a file, whose bytes come in the records after it.
ghost use Rattle.std.specs.Prelude.{◌≡◌, ◌≤◌, ◌++◌, length, take, drop};
ghost use Rattle.book_file.specs.Loading.{load_numbers, load_book};
ghost use Rattle.replay.specs.Stages.{record_bytes, stage_of, taken};
ghost use Rattle.replay.specs.Inner.Operations.{load_due, load_begun};

use crate::records;
use crate::state::State;
use arrayvec::ArrayVec;
use book_file::Numbers;

// Room for the bytes of a file: one record more than the longest that is loaded.
pub const ROOM: usize = 16_448;

impl State {
    // A file of this length is to come, where there is room. One without bytes is loaded at once.
    pub fn begin_load(&mut self, length: u64)
        ensures { stage_of self.new ≡ load_begun length (stage_of self.old) }
    {
        let length = length as usize;
        if length > ROOM {
            self.set_bad();
            return;
        }
        self.file.clear();
        self.missing = length;
        self.load();
    }

    // A record of bytes of the file that is to come. The last record may have more than are missing.
    pub fn take(&mut self, bytes: &[u8])
        requires { record_bytes ≤ length bytes.now }
        ensures stage_after { stage_of self.new ≡ taken bytes.now (stage_of self.old) }
        ensures ok_after { self.new.output.ok ≡ self.old.output.ok }
    {
        let count = self.missing.min(records::SIZE);
        self.file.truncate(ROOM - count);
        self.file.try_extend_from_slice(&bytes[..count]).unwrap();
        self.missing -= count;
    }

    // Loads the file into the lent words, once no byte of it is missing, and prints the answer.
    #[tactic(auto, unfolding(crate::specs::Text::numbers_line))]
    pub fn load(&mut self)
        ensures { stage_of self.new ≡ load_due (stage_of self.old) }
    {
        if self.missing > 0 {
            return;
        }
        let lent = self.lent_count();
        let n = load_into(&mut self.memory, lent, &self.file);
        self.output.print_line(n.refusal, &[n.table, n.record]);
    }
}

// Loads the file into the first `lent` of these words. Tried within `load`, and the proof didn't close: beside a field that is
// lent, a part of another that is lent to be written loses what is known of it.
fn load_into(words: &mut [u64], lent: usize, file: &ArrayVec<u8, ROOM>) -> Numbers
    requires { lent ≤ length words.old }
    ensures value { result ≡ load_numbers (take lent words.old) file.now.items }
    ensures words_after { words.new ≡ load_book (take lent words.old) file.now.items ++ drop lent words.old }
{
    book_file::load(&mut words[..lent], file.as_slice()).into()
}
