// The bytes of an input, as far as there is room for them.
ghost use Rattle.std.specs.Prelude.{◌≤◌, ◌<◌, length, take, IfOk};
ghost use Rattle.std.specs.Io.KnownBytes.{Consumes, IsAtEnd};
ghost use Rattle.book_file.specs.Reading.{count_in};

use std::io::Read;

// Reads until the buffer is full or the input is at its end, and answers how many bytes it put at the start of the buffer; where a read
// fails, how many before it are the error, which has no more to tell. What stands behind them is not told, since `Read::read` does not promise it.
pub fn read_full<R: Read>(reader: &mut R, buffer: &mut [u8]) -> Result<usize, usize>
    ensures in_bounds { count_in result ≤ length buffer.new }
    ensures bytes { Consumes (R.remaining reader.old) (R.remaining reader.new) (take (count_in result) buffer.new) }
    ensures ended { IfOk result (λ n. n < length buffer.new → IsAtEnd (R.remaining reader.new)) }
{
    let mut done = 0;
    // Only the reads tell how much is left, so there is nothing to iterate over.
    while done < buffer.len() {
        match reader.read(&mut buffer[done..]) {
            Ok(0) => return Ok(done),
            Ok(count) => done += count,
            Err(_) => return Err(done),
        }
    }
    Ok(done)
}
