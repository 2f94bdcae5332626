//! What a text is read from and what an answer is written to.

ghost use Rattle.std.specs.Prelude.{◌≡◌, ℕ, ◌<◌, ◌||◌, Bool, false, Option, List, length, IfOk, is_err};
ghost use Rattle.std.specs.Result.{result_ok};
ghost use Rattle.std.specs.Io.{ReadsAtMost, WritesAtMost};
ghost use Rattle.std.specs.Io.KnownBytes.{ReadConsumes, WriteAppends, Keeps};
ghost use Rattle.lincheck.specs.Device.{count_taken};

use std::io;
use std::io::{Read, Write};

/// A read or a write that failed.
#[derive(Clone, Copy, PartialEq, Eq, Debug)]
pub struct DeviceFault;

/// What a text is read from.
pub trait Source {
    // The bytes that are left, where they are known.
    ghost remaining: { Self → Option (List ℕ) };

    // Whether a call has failed since the value was made.
    ghost failed: { Self → Bool };

    /// Reads some bytes, and answers how many: none only at the end, or where there is no room.
    fn read(&mut self, into: &mut [u8]) -> Result<usize, DeviceFault>
        ensures bound { ReadsAtMost result into.new }
        ensures bytes { ReadConsumes (remaining self.old) (remaining self.new) result into.new }
        ensures failed { failed self.new ≡ (failed self.old || is_err result) };
}

/// What an answer is written to.
pub trait Sink {
    // The bytes that it holds, where they are known.
    ghost contents: { Self → Option (List ℕ) };

    // Whether a call has failed since the value was made.
    ghost failed: { Self → Bool };

    /// Takes bytes from the front, and answers how many: at least one of a piece that is not empty.
    fn write(&mut self, from: &[u8]) -> Result<usize, DeviceFault>
        ensures bound { WritesAtMost result from.now }
        ensures bytes { WriteAppends (contents self.old) (contents self.new) result from.now }
        ensures takes { IfOk result (λ n. 0 < length from.now → 0 < n) }
        ensures failed { failed self.new ≡ (failed self.old || is_err result) };

    /// Hands on what it may have kept back.
    fn flush(&mut self) -> Result<(), DeviceFault>
        ensures bytes { Keeps (contents self.old) (contents self.new) }
        ensures failed { failed self.new ≡ (failed self.old || is_err result) };
}

// What a call answered, and whether it or one before it has failed. Of an error no more is told than that.
fn noted<T>(answer: io::Result<T>, failed: &mut bool) -> Result<T, DeviceFault>
    ensures answer { result_ok result ≡ result_ok answer }
    ensures failed { failed.new ≡ (failed.old || is_err answer) }
{
    match answer {
        Ok(value) => Ok(value),
        Err(_) => {
            *failed = true;
            Err(DeviceFault)
        }
    }
}

// What a write of this piece answered, where taking nothing of a piece that is not empty is an error.
fn taken(answer: io::Result<usize>, from: &[u8]) -> io::Result<usize>
    ensures { result_ok result ≡ count_taken from.now answer }
{
    match answer {
        Ok(0) if !from.is_empty() => Err(io::Error::from(io::ErrorKind::WriteZero)),
        Ok(count) => Ok(count),
        Err(error) => Err(error),
    }
}

/// A reader of the standard library as a source.
#[derive(Drop)]
pub struct StdSource<R> {
    reader: R,
    failed: bool,
}

impl<R: Read> StdSource<R> {
    /// The reader, which has not failed yet. It takes no memory.
    pub fn new(reader: R) -> Self
        ensures reader { result.reader ≡ reader }
        ensures failed { result.failed ≡ false }
    {
        StdSource {
            reader,
            failed: false,
        }
    }
}

impl<R: Read> Source for StdSource<R> {
    ghost remaining = { λ s. R.remaining s.reader };

    ghost failed = { λ s. s.failed };

    fn read(&mut self, into: &mut [u8]) -> Result<usize, DeviceFault> {
        noted(self.reader.read(into), &mut self.failed)
    }
}

/// A writer of the standard library as a sink. A write that takes no byte of a piece that is not empty has failed.
#[derive(Drop)]
pub struct StdSink<W> {
    writer: W,
    failed: bool,
}

impl<W: Write> StdSink<W> {
    /// The writer, which has not failed yet. It takes no memory.
    pub fn new(writer: W) -> Self
        ensures writer { result.writer ≡ writer }
        ensures failed { result.failed ≡ false }
    {
        StdSink {
            writer,
            failed: false,
        }
    }
}

impl<W: Write> Sink for StdSink<W> {
    ghost contents = { λ s. W.contents s.writer };

    ghost failed = { λ s. s.failed };

    fn write(&mut self, from: &[u8]) -> Result<usize, DeviceFault> {
        noted(taken(self.writer.write(from), from), &mut self.failed)
    }

    fn flush(&mut self) -> Result<(), DeviceFault> {
        noted(self.writer.flush(), &mut self.failed)
    }
}
