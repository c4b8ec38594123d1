// Numbers in bytes, little-endian. A line for each type: `from_le_bytes` is of each, and no trait of the library has it.
ghost use Rattle.std.specs.Prelude.{◌≡◌, ◌+◌, ◌≤◌, ◌<◌, length, take, drop, replicate};
ghost use Rattle.book_file.specs.Bytes.{u32_at, u64_at};

// The u32 that stands at a position; 0 where it runs past the end.
pub fn u32_at(bytes: &[u8], at: usize) -> u32
    ensures { result ≡ u32_at bytes.now at }
{
    u32::from_le_bytes(bytes_at(bytes, at))
}

// The u64 that stands at a position; 0 where it runs past the end.
pub fn u64_at(bytes: &[u8], at: usize) -> u64
    ensures { result ≡ u64_at bytes.now at }
{
    u64::from_le_bytes(bytes_at(bytes, at))
}

// The N bytes that stand at a position; zeros where they run past the end.
fn bytes_at<const N: usize>(bytes: &[u8], at: usize) -> [u8; N]
    ensures inside { at + N ≤ length bytes.now → result ≡ take N (drop at bytes.now) }
    ensures past { length bytes.now < at + N → result ≡ replicate N 0 }
{
    let rest = bytes.get(at..).unwrap_or(&[]);
    rest.first_chunk().copied().unwrap_or([0; N])
}
