// Bytes from a reader and to a writer, as the programs move them. It assumes nothing.
// A read that failed brought nothing, as at the end of the input; a write that failed took nothing. A call that a signal interrupts before it moves a
// byte is one that failed.
#![tactic(auto)]

ghost use Rattle.std.specs.Prelude.{◌≡◌, ◌≤◌, ℕ, true, length, take};
ghost use Rattle.std.specs.Io.KnownBytes.{Appends, Consumes};

use std::io::{Read, Write};

// Reads once. Answers how many bytes it put at the front of `piece`: none at the end of the input, and where the read failed.
pub fn read<R: Read>(reader: &mut R, piece: &mut [u8]) -> usize
    ensures in_bounds { result ≤ length piece.new }
    ensures bytes { Consumes (R.remaining reader.old) (R.remaining reader.new) (take result piece.new) }
{
    reader.read(piece).unwrap_or(0)
}

// Reads until `buffer` is full, the input ends or a read fails. Answers how many bytes it put at the front of it. A buffer of no bytes makes no call.
// Counted, and not cut down to what is left as in `write_all`: the count is the answer.
pub fn read_full<R: Read>(reader: &mut R, buffer: &mut [u8]) -> usize
    ensures in_bounds { result ≤ length buffer.new }
    ensures bytes { Consumes (R.remaining reader.old) (R.remaining reader.new) (take result buffer.new) }
{
    let mut done = 0;
    while done < buffer.len() {
        let count = read(reader, &mut buffer[done..]);
        if count == 0 {
            return done;
        }
        done += count;
    }
    done
}

// Writes once. Answers how many bytes at the front of `bytes` were taken: none where the write failed.
fn write<W: Write>(writer: &mut W, bytes: &[u8]) -> usize
    ensures in_bounds { result ≤ length bytes.now }
    ensures bytes { Appends (W.contents writer.old) (W.contents writer.new) (take result bytes.now) }
{
    writer.write(bytes).unwrap_or(0)
}

// Writes all of `bytes` and answers true, or stops at the first write that takes nothing or fails and answers false, when some of `bytes` may have been
// written. On no bytes it makes no call.
pub fn write_all<W: Write>(writer: &mut W, bytes: &[u8]) -> bool
    ensures all { result ≡ true → Appends (W.contents writer.old) (W.contents writer.new) bytes.now }
    ensures front { (n : ℕ) × Appends (W.contents writer.old) (W.contents writer.new) (take n bytes.now) }
{
    let mut rest = bytes;
    while !rest.is_empty() {
        let count = write(writer, rest);
        if count == 0 {
            return false;
        }
        rest = &rest[count..];
    }
    true
}
