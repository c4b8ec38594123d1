// The output: bytes that wait to be written to standard output.
ghost use Rattle.std.specs.Prelude.{◌≡◌, ◌≤◌, ℕ, true, false, List, [], ◌∷◌, replicate, Result, ⊤};
ghost use Rattle.std.specs.Fn.{FnOnceReturnsAtMut};
ghost use Rattle.apportion.specs.Refusals.{refusal_in};
ghost use Rattle.apportion.specs.declared.refusing.Refusal.{Refusal};
ghost use Rattle.report.specs.Text.{decimal, line};
ghost use Rattle.replay.specs.Replay.{pair_room};
ghost use Rattle.replay.specs.Text.{numbers_line};
ghost use Rattle.replay.specs.Waiting.{put_byte, put};

use crate::previews;
use apportion::Refusal;
use arrayvec::ArrayVec;
use std::io::{Stdout, Write};

#[derive(Drop)]
pub struct Output {
    // The bytes that wait.
    pub waiting: ArrayVec<u8, 65_536>,
    // False after a write that failed: nothing is written from then on. A flag that has no value beside it.
    pub ok: bool,
    // Where the waiting bytes go.
    pub stdout: Stdout,
}

impl Output {
    // No byte waits, and no write has failed.
    pub fn new(stdout: Stdout) -> Output
        ensures waiting_value { result.waiting.items ≡ [] }
        ensures ok_value { result.ok ≡ true }
    {
        Output {
            waiting: ArrayVec::new(),
            ok: true,
            stdout,
        }
    }

    // Writes the waiting bytes. A write that failed stays so.
    pub fn flush(&mut self)
        ensures waiting_after { self.new.waiting.items ≡ [] }
        ensures ok_after { self.old.ok ≡ false → self.new.ok ≡ false }
    {
        if self.ok {
            self.ok = self.stdout.write_all(self.waiting.as_slice()).is_ok();
        }
        self.waiting.clear();
    }

    // Puts a byte. Where the bytes that wait fill their room, they are written first.
    #[tactic(auto, unfolding(crate::specs::Waiting::put_byte))]
    fn put_byte(&mut self, byte: u8)
        ensures { self.new.waiting.items ≡ put_byte self.old.waiting.items byte }
    {
        if self.waiting.is_full() {
            self.flush();
        }
        self.waiting.push(byte);
    }

    // Puts bytes.
    pub fn put_bytes(&mut self, text: &[u8])
        ensures { self.new.waiting.items ≡ put self.old.waiting.items text.now }
    {
        for byte in text {
            self.put_byte(*byte);
        }
    }

    // Puts a number in decimal.
    fn put_number(&mut self, number: u64)
        ensures { self.new.waiting.items ≡ put self.old.waiting.items (decimal number) }
    {
        // put_number writes into a lent slice, so the digits are an array that is cut.
        let mut digits = [0u8; 20];
        let count = report::put_number(number, &mut digits);
        self.put_bytes(&digits[..count]);
    }

    // Prints a line of numbers, with single spaces between: the first, and those behind it. put_line of report asks for room for a
    // whole line; here a line may be longer than the room, and what waits is written where it fills.
    pub fn print_line(&mut self, first: u64, rest: &[u64])
        ensures { self.new.waiting.items ≡ put self.old.waiting.items (line first rest.now) }
    {
        self.put_number(first);
        for number in rest {
            self.put_byte(b' ');
            self.put_number(*number);
        }
        self.put_byte(b'\n');
    }

    // Lends a call a slice of so many words, each of which is 7, and prints its refusal number and what it left there.
    pub fn print_call<F: FnOnce(&mut [u64]) -> Result<(), Refusal>>(&mut self, size: usize, call: F)
        requires room { size ≤ pair_room }
        requires callable { F.IsAlwaysCallable call }
        ensures { (answer : Result ⊤ Refusal) × (left : List ℕ) × FnOnceReturnsAtMut F.FnOnce call (replicate size 7) answer left
            × (self.new.waiting.items ≡ put self.old.waiting.items (numbers_line (refusal_in answer ∷ left))) }
    {
        let mut sevens = [7u64; previews::PAIR_ROOM];
        let words = &mut sevens[..size];
        let answer = call(words);
        self.print_line(apportion::refusal_number(answer), words);
    }

    // Prints a line of numbers of which there may be none.
    #[tactic(auto, unfolding(crate::specs::Text::numbers_line))]
    pub fn print(&mut self, numbers: &[u64])
        ensures { self.new.waiting.items ≡ put self.old.waiting.items (numbers_line numbers.now) }
    {
        match numbers.split_first() {
            Some((first, rest)) => self.print_line(*first, rest),
            None => self.put_byte(b'\n'),
        }
    }
}
