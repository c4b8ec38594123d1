// The words of a record, from its bytes.
ghost use Rattle.std.specs.Prelude.{◌≡◌};
ghost use Rattle.replay.specs.Words.{words_of};

use book_file::u64_at;

// The bytes of a record.
pub const SIZE: usize = 64;

// The operation and its seven arguments.
#[derive(Clone, Copy)]
pub struct Words {
    pub operation: u64,
    pub first: u64,
    pub second: u64,
    pub third: u64,
    pub fourth: u64,
    pub fifth: u64,
    pub sixth: u64,
    pub seventh: u64,
}

// The words ask for nothing that there is: the record is bad.
#[derive(Clone, Copy)]
pub struct BadRecord;

// The eight words that 64 bytes spell, each the least significant byte first. By name, as the operations take them.
pub fn read(bytes: &[u8]) -> Words
    ensures { result ≡ words_of bytes.now }
{
    Words {
        operation: u64_at(bytes, 0),
        first: u64_at(bytes, 8),
        second: u64_at(bytes, 16),
        third: u64_at(bytes, 24),
        fourth: u64_at(bytes, 32),
        fifth: u64_at(bytes, 40),
        sixth: u64_at(bytes, 48),
        seventh: u64_at(bytes, 56),
    }
}
