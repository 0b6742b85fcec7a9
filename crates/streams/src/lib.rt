// Standard input and output, whole: a call that moves few bytes is no end, one that a signal interrupts is made again.
#![tactic(auto)]

ghost use Rattle.std.specs.Prelude.{◌≡◌, ℕ, ◌-◌, ◌≤◌, pos, length, Some, IfOk, MatchResult, IsTrue, ◌↔◌};
ghost use Rattle.std.specs.IoError.{raw_os_error};
ghost use Rattle.streams.specs.StreamEnd.{Stopped};

use std::io;
use std::io::{Read, Write};

// A loop must be proved to end: a call that a signal interrupts so often in a row, and once more, counts as failed.
const MOST_INTERRUPTIONS: u32 = 1_000_000;

// Linux's number of an interruption.
const EINTR: i32 = 4;

// How many bytes were moved, and what the last call answered: how many it moved, 0 at the end of the input, or why it
// failed.
#[derive(Clone, Copy)]
pub struct StreamEnd {
    pub count: usize,
    pub last: io::Result<usize>,
}

// Bytes that calls move one part after the other: into a buffer from a reader, or from one to a writer.
trait Stream {
    ghost size: { Self → ℕ };

    fn size(&self) -> usize
        ensures { result ≡ size self.now };

    // One call, for the bytes from this place on.
    fn call(&mut self, at: usize) -> io::Result<usize>
        requires { at ≤ size self.old }
        ensures moved { IfOk result (λ n. n ≤ size self.old - at) }
        ensures kept { size self.new ≡ size self.old };
}

#[derive(Drop)]
struct Reading<'a, R> {
    reader: &'a mut R,
    buf: &'a mut [u8],
}

impl<R: Read> Stream for Reading<'_, R> {
    ghost size = { λ s. length s.buf.now };

    fn size(&self) -> usize {
        self.buf.len()
    }

    fn call(&mut self, at: usize) -> io::Result<usize> {
        self.reader.read(&mut self.buf[at..])
    }
}

#[derive(Drop)]
struct Writing<'a, W> {
    writer: &'a mut W,
    buf: &'a [u8],
}

impl<W: Write> Stream for Writing<'_, W> {
    ghost size = { λ s. length s.buf.now };

    fn size(&self) -> usize {
        self.buf.len()
    }

    fn call(&mut self, at: usize) -> io::Result<usize> {
        self.writer.write(&self.buf[at..])
    }
}

// By the system's number: a failure without one, of any kind, is not asked again.
fn is_interrupted(moved: &io::Result<usize>) -> bool
    ensures { IsTrue result ↔ MatchResult moved.now (λ _. ⊥) (λ e. raw_os_error e ≡ Some (pos 4)) }
{
    matches!(moved, Err(error) if error.raw_os_error() == Some(EINTR))
}

// A call that is made again as long as it is interrupted.
fn move_some<S: Stream>(stream: &mut S, at: usize) -> io::Result<usize>
    requires { at ≤ S.size stream.old }
    ensures moved { IfOk result (λ n. n ≤ S.size stream.old - at) }
    ensures kept { S.size stream.new ≡ S.size stream.old }
{
    for _ in 0..MOST_INTERRUPTIONS {
        let moved = stream.call(at);
        if !is_interrupted(&moved) {
            return moved;
        }
    }
    stream.call(at)
}

// Until all is moved, or a call moves nothing or fails.
fn move_all<S: Stream>(stream: &mut S) -> StreamEnd
    ensures { Stopped (S.size stream.old) result }
{
    let mut count = 0;
    let mut last = Ok(0);
    while count < stream.size() {
        last = move_some(stream, count);
        match last {
            Ok(0) | Err(_) => break, // the end, or a failure
            Ok(n) => count += n,
        }
    }
    StreamEnd { count, last }
}

// Reads until the buffer is full, or a read answers 0 or fails.
pub fn read_all<R: Read>(reader: &mut R, buf: &mut [u8]) -> StreamEnd
    ensures { Stopped (length buf.old) result }
{
    move_all(&mut Reading { reader, buf })
}

// Writes until all is written, or a write takes nothing or fails.
pub fn write_all<W: Write>(writer: &mut W, buf: &[u8]) -> StreamEnd
    ensures { Stopped (length buf.now) result }
{
    move_all(&mut Writing { writer, buf })
}
