//! Runs that are refused memory, or whose reader or writer fails after each number of bytes.

use super::checking::CROSSED;
use super::starved::{Starved, TIMES};
use crate::choice::options_of;
use lin_text::MAX_INPUT_BYTES;
use lincheck::{RunFault, Status, StdSink, StdSource, run};
use std::alloc::AllocError;
use std::io;
use std::io::{Read, Write};
use std::thread::Threads;
use std::time::Clock;

// Two writes, and after them a read of the first.
const STALE: &str = r#"{"event":"object","object":"x","kind":"register"}
{"event":"call","process":1,"object":"x","op":"write","args":[1]}
{"event":"return","process":1,"object":"x","result":"ok"}
{"event":"call","process":1,"object":"x","op":"write","args":[2]}
{"event":"return","process":1,"object":"x","result":"ok"}
{"event":"call","process":2,"object":"x","op":"read"}
{"event":"return","process":2,"object":"x","result":1}
"#;

const REPORT: &str = "not linearizable: x
longest run: 2 of 3 calls
1 1 x write(1) = ok
2 1 x write(2) = ok
";

// More bytes than there are.
const MUCH: usize = 100_000;

fn failure() -> io::Error {
    io::Error::from(io::ErrorKind::Other)
}

// A reader that hands out one byte at a time, and fails after so many.
#[derive(Drop)]
struct Failing {
    left: &'static [u8],
    before: usize,
}

impl Read for Failing {
    fn read(&mut self, buf: &mut [u8]) -> io::Result<usize> {
        if self.before == 0 {
            return Err(failure());
        }
        match (self.left.split_first(), buf.first_mut()) {
            (Some((first, rest)), Some(room)) => {
                *room = *first;
                self.left = rest;
                self.before -= 1;
                Ok(1)
            }
            _ => Ok(0),
        }
    }
}

// What a writer does when it takes no more.
#[derive(Clone, Copy, PartialEq, Eq, Debug)]
enum End {
    // A write fails.
    Fails,
    // A write takes nothing.
    Stalls,
    // It takes all, and its flush fails.
    FailsToFlush,
}

// A writer that takes so many bytes, one at a time.
#[derive(Drop)]
struct Narrow {
    taken: Vec<u8>,
    before: usize,
    end: End,
}

impl Write for Narrow {
    fn write(&mut self, buf: &[u8]) -> io::Result<usize> {
        let Some(first) = buf.first() else {
            return Ok(0);
        };
        if self.before == 0 {
            return if self.end == End::Stalls {
                Ok(0)
            } else {
                Err(failure())
            };
        }
        self.taken.push(*first)?;
        self.before -= 1;
        Ok(1)
    }

    fn flush(&mut self) -> io::Result<()> {
        if self.end == End::FailsToFlush {
            Err(failure())
        } else {
            Ok(())
        }
    }
}

// What a run answers with this reader and this writer.
fn ran<R: AllocGlobal + Threads + Clock + Sync, D: Read + Drop>(
    rt: &R,
    reader: D,
    writer: &mut Narrow,
) -> Result<Status, RunFault> {
    let Some(options) = options_of("") else {
        return Err(RunFault::Memory);
    };
    let mut source = StdSource::new(reader);
    run(rt, &mut source, &mut StdSink::new(writer), &options)
}

// Whether a run ends so whose reader fails after so many bytes and whose writer takes so many, with just these of the report
// written.
fn ends<R: AllocGlobal + Threads + Clock + Sync>(
    rt: &R,
    read: usize,
    written: usize,
    end: End,
    wanted: Result<Status, RunFault>,
) -> bool {
    let mut writer = Narrow {
        taken: Vec::new(rt.alloc()),
        before: written,
        end,
    };
    let reader = Failing {
        left: STALE.as_bytes(),
        before: read,
    };
    let report = REPORT.as_bytes();
    let length = report.len().min(written);
    let ended = ran(rt, reader, &mut writer);
    ended == wanted && writer.taken.as_slice() == &report[..length]
}

#[test]
fn bytes_come_and_go_one_at_a_time(rt: HostRuntime) {
    assert!(rt; ends(&rt, MUCH, MUCH, End::Fails, Ok(Status::No)));
}

#[test]
fn a_reader_fails_after_each_number_of_bytes(rt: HostRuntime) {
    for before in 0..=STALE.len() {
        assert!(rt;
            ends(&rt, before, 0, End::Fails, Err(RunFault::Read)),
            "after {before}"
        );
    }
}

#[test]
fn a_writer_fails_or_stalls_after_each_number_of_bytes(rt: HostRuntime) {
    for before in 0..REPORT.len() {
        for end in [End::Fails, End::Stalls] {
            assert!(rt;
                ends(&rt, MUCH, before, end, Err(RunFault::Write)),
                "after {before}"
            );
        }
    }
}

#[test]
fn a_flush_fails_when_all_is_written(rt: HostRuntime) {
    assert!(rt; ends(&rt, MUCH, MUCH, End::FailsToFlush, Err(RunFault::Write)));
}

const CROSSED_REPORT: &str = "linearizable
1 2 y write(7) = ok
2 2 x read() = 0
3 1 x write(1) = ok
4 2 y read() = 7
";

// How many times a run on two registers was refused memory, with nothing written, with more and more room, until its report
// was written.
fn refusals_of_a_run<R: AllocGlobal + Threads + Clock + Sync>(
    rt: &R,
    starved: &mut Starved,
    writer: &mut Narrow,
) -> Option<u64> {
    let mut refused = 0u64;
    for step in 0..TIMES {
        if !starved.leave(step * 16) {
            return None;
        }
        let reader = Failing {
            left: CROSSED.as_bytes(),
            before: MUCH,
        };
        let ended = ran(rt, reader, writer);
        let written = writer.taken.as_slice();
        match ended {
            Err(RunFault::Memory) if written.is_empty() => refused = refused.saturating_add(1),
            Ok(Status::Yes) if written == CROSSED_REPORT.as_bytes() => return Some(refused),
            _ => return None,
        }
    }
    None
}

// The same, from a process that has all it wants, with a writer that needs no memory.
fn runs_in_turn<R: AllocGlobal + Threads + Clock + Sync>(
    rt: &R,
) -> Result<Option<u64>, AllocError> {
    let mut writer = Narrow {
        taken: Vec::with_capacity(rt.alloc(), 200)?,
        before: MUCH,
        end: End::Fails,
    };
    let mut starved = Starved::new(rt.alloc(), TIMES)?;
    Ok(refusals_of_a_run(rt, &mut starved, &mut writer))
}

#[test]
fn a_run_is_refused_memory_and_writes_nothing_or_reports(rt: HostRuntime) {
    let refused = runs_in_turn(&rt);
    assert!(rt; matches!(refused, Ok(Some(100..))), "{refused:?}");
}

// A reader that has so many line feeds. It counts the bytes that it gave, and the reads that come late: after its end, or
// after more bytes than a text may have.
#[derive(Drop)]
struct Counting {
    left: usize,
    given: usize,
    late: usize,
    ended: bool,
}

impl Read for Counting {
    fn read(&mut self, buf: &mut [u8]) -> io::Result<usize> {
        if self.ended || self.given > MAX_INPUT_BYTES {
            self.late = self.late.saturating_add(1);
        }
        let count = self.left.min(buf.len());
        buf[..count].fill(b'\n');
        self.left -= count;
        self.given = self.given.saturating_add(count);
        self.ended = count == 0;
        Ok(count)
    }
}

// How many of so many bytes are read, and whether a run ends so and no read comes late.
fn bytes_read<R: AllocGlobal + Threads + Clock + Sync>(
    rt: &R,
    bytes: usize,
    wanted: Status,
) -> (usize, bool) {
    let mut writer = Narrow {
        taken: Vec::new(rt.alloc()),
        before: MUCH,
        end: End::Fails,
    };
    let mut reader = Counting {
        left: bytes,
        given: 0,
        late: 0,
        ended: false,
    };
    let ended = ran(rt, &mut reader, &mut writer);
    (reader.given, ended == Ok(wanted) && reader.late == 0)
}

#[test]
fn nothing_is_read_after_the_end_or_behind_what_is_too_long(rt: HostRuntime) {
    assert!(rt; bytes_read(&rt, 70_000, Status::Yes) == (70_000, true));
    assert!(rt; bytes_read(&rt, 70_000_000, Status::Refused) == (67_108_865, true));
}
