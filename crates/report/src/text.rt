// Text put at the start of a buffer: bytes, numbers in decimal, and lines of numbers, also behind a word. What puts answers how many
// bytes it put, and what follows is put into the rest of the buffer.
ghost use Rattle.std.specs.Prelude.{◌≡◌, ◌≤◌, length};
ghost use Rattle.report.specs.Printing.{Put};
ghost use Rattle.report.specs.Text.{decimal, spaced_number, line_end, line, word_line};

// Puts bytes.
pub fn put_bytes(bytes: &[u8], out: &mut [u8]) -> usize
    requires { length bytes.now ≤ length out.old }
    ensures { Put bytes.now out.old out.new result }
{
    out[..bytes.len()].copy_from_slice(bytes);
    bytes.len()
}

// How many digits a number has.
#[tactic(auto, using(crate::proofs::Decimals::digits_by_power))]
fn digit_count(number: u64) -> usize
    ensures { result ≡ length (decimal number) }
{
    number.max(1).ilog10() as usize + 1
}

// Puts a number in decimal. Its digits are written in place: by a buffer of their own a full sheet costs 3 % more.
#[tactic(auto, using(crate::proofs::Decimals::is_decimal))]
pub fn put_number(number: u64, out: &mut [u8]) -> usize
    requires { length (decimal number) ≤ length out.old }
    ensures { Put (decimal number) out.old out.new result }
{
    let count = digit_count(number);
    itoa::write_digits(number, out, count);
    count
}

// Puts a line of numbers, with single spaces between.
#[tactic(auto, using(crate::proofs::Puts::put_behind), unfolding(crate::specs::Text::line))]
pub fn put_line(first: u64, rest: &[u64], out: &mut [u8]) -> usize
    requires { length (line first rest.now) ≤ length out.old }
    ensures { Put (line first rest.now) out.old out.new result }
{
    let count = put_number(first, out);
    count + put_line_end(rest, &mut out[count..])
}

// Puts a line that begins with a word.
#[tactic(auto, using(crate::proofs::Puts::put_behind), unfolding(crate::specs::Text::word_line))]
pub fn put_word_line(word: &[u8], numbers: &[u64], out: &mut [u8]) -> usize
    requires { length (word_line word.now numbers.now) ≤ length out.old }
    ensures { Put (word_line word.now numbers.now) out.old out.new result }
{
    let count = put_bytes(word, out);
    count + put_line_end(numbers, &mut out[count..])
}

// Puts the end of a line: numbers, each behind a space, and the newline.
fn put_line_end(numbers: &[u64], out: &mut [u8]) -> usize
    requires { length (line_end numbers.now) ≤ length out.old }
    ensures { Put (line_end numbers.now) out.old out.new result }
{
    let mut count = 0;
    for number in numbers {
        count += put_spaced(*number, &mut out[count..]);
    }
    out[count] = b'\n';
    count + 1
}

// Puts a number behind a space.
fn put_spaced(number: u64, out: &mut [u8]) -> usize
    requires { length (spaced_number number) ≤ length out.old }
    ensures { Put (spaced_number number) out.old out.new result }
{
    out[0] = b' ';
    1 + put_number(number, &mut out[1..])
}
