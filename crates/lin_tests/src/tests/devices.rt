//! What a source and a sink answer is what the reader or the writer answered that they wrap.

use lincheck::{DeviceFault, Sink, Source, StdSink, StdSource};
use std::io;
use std::io::{Read, Write};

// A reader and a writer that takes so many bytes of a piece at most, or fails where there is no number.
#[derive(Drop)]
struct Fixed {
    count: Option<usize>,
}

impl Read for Fixed {
    fn read(&mut self, buf: &mut [u8]) -> io::Result<usize> {
        match self.count {
            Some(count) => Ok(count.min(buf.len())),
            None => Err(io::Error::from(io::ErrorKind::Other)),
        }
    }
}

impl Write for Fixed {
    fn write(&mut self, buf: &[u8]) -> io::Result<usize> {
        match self.count {
            Some(count) => Ok(count.min(buf.len())),
            None => Err(io::Error::from(io::ErrorKind::Other)),
        }
    }

    fn flush(&mut self) -> io::Result<()> {
        match self.count {
            Some(_) => Ok(()),
            None => Err(io::Error::from(io::ErrorKind::Other)),
        }
    }
}

// What a source of such a reader answers, where there is room for eight bytes.
fn reads(count: Option<usize>) -> Result<usize, DeviceFault> {
    StdSource::new(Fixed { count }).read(&mut [0; 8])
}

// What a sink of such a writer answers of a piece of three bytes.
fn writes(count: Option<usize>) -> Result<usize, DeviceFault> {
    StdSink::new(Fixed { count }).write(b"one")
}

// What it answers of a piece with no byte.
fn writes_none(count: Option<usize>) -> Result<usize, DeviceFault> {
    StdSink::new(Fixed { count }).write(b"")
}

// What it answers of a flush.
fn flushes(count: Option<usize>) -> Result<(), DeviceFault> {
    StdSink::new(Fixed { count }).flush()
}

#[test]
fn a_read_gives_what_the_reader_gives(rt: HostRuntime) {
    assert!(rt; reads(Some(9)) == Ok(8) && reads(Some(5)) == Ok(5) && reads(Some(0)) == Ok(0));
}

#[test]
fn a_read_fails_where_the_reader_fails(rt: HostRuntime) {
    assert!(rt; reads(None) == Err(DeviceFault));
}

#[test]
fn a_write_takes_what_the_writer_takes(rt: HostRuntime) {
    assert!(rt;
        writes(Some(9)) == Ok(3) && writes(Some(2)) == Ok(2) && writes_none(Some(2)) == Ok(0)
    );
}

#[test]
fn a_write_fails_where_the_writer_fails_or_takes_nothing(rt: HostRuntime) {
    assert!(rt; writes(None) == Err(DeviceFault) && writes(Some(0)) == Err(DeviceFault));
}

#[test]
fn a_flush_answers_what_the_writer_answers(rt: HostRuntime) {
    assert!(rt; flushes(Some(0)) == Ok(()) && flushes(None) == Err(DeviceFault));
}
