//! A case: a text, what is printed of it, the exit status, and the options of the run.

use crate::choice::{form_of, options_of};
use crate::repeat::repeated;
use lincheck::{AnswerForm, Listener, Options, SoFar, StdSink, StdSource, run_with, status_code};
use std::sync::atomic::AtomicU64;
use std::sync::atomic::Ordering::SeqCst;
use std::thread::Threads;
use std::time::Clock;
use std::{fs, io};

// A file of the case, whole: `NAME.ENDING`, or what `NAME.ENDING.repeat` stands for.
fn text_of(rt: &HostRuntime, name: &str, ending: &str) -> io::Result<Vec<u8>> {
    let path = format!(in rt.alloc(); "{name}.{ending}")?;
    if let Ok(text) = fs::read(rt, path.as_str()) {
        return Ok(text);
    }
    let short = format!(in rt.alloc(); "{path}.repeat")?;
    repeated(rt.alloc(), fs::read_to_string(rt, short.as_str())?.as_str())
}

// The number in `NAME.status`.
fn status_of(rt: &HostRuntime, name: &str) -> io::Result<u8> {
    let path = format!(in rt.alloc(); "{name}.status")?;
    let text = fs::read_to_string(rt, path.as_str())?;
    let status = text.trim().parse::<u8>();
    status.map_err(|_| io::Error::from(io::ErrorKind::InvalidData))
}

// The words of `NAME.options`, which need not be there.
fn words_of(rt: &HostRuntime, name: &str) -> io::Result<String> {
    let path = format!(in rt.alloc(); "{name}.options")?;
    Ok(fs::read_to_string(rt, path.as_str()).unwrap_or(String::new(rt.alloc())))
}

// Counts how often it is shown how far a check has come.
#[derive(Drop)]
struct Counted {
    times: AtomicU64,
}

impl Listener for Counted {
    fn show(&self, _so_far: &SoFar<'_>) {
        self.times.fetch_add(1, SeqCst);
    }
}

// The status with which the text is answered in this form, where just this answer is printed, and where it is shown how far the
// check has come exactly if the options ask for it. Workers are started with `threads`.
fn gives<R: AllocGlobal + Threads + Clock + Sync>(
    threads: &R,
    text: &[u8],
    options: &Options,
    form: AnswerForm,
    answer: &[u8],
) -> Option<u8> {
    let mut written = Vec::new(threads.alloc());
    let mut source = StdSource::new(text);
    let mut sink = StdSink::new(&mut written);
    let counted = Counted {
        times: AtomicU64::new(0),
    };
    let ran = run_with(threads, &mut source, &mut sink, options, form, &counted);
    let is_shown = counted.times.load(SeqCst) > 0;
    if written.as_slice() == answer && is_shown == options.progress() {
        Some(status_code(&ran))
    } else {
        None
    }
}

// Whether a case is answered so, with these options in this form.
fn is_answered_with<R: AllocGlobal + Threads + Clock + Sync>(
    rt: &HostRuntime,
    threads: &R,
    name: &str,
    options: &Options,
    form: AnswerForm,
) -> io::Result<bool> {
    let status = status_of(rt, name)?;
    let text = text_of(rt, name, "jsonl")?;
    let answer = text_of(rt, name, "answer")?;
    let given = gives(threads, text.as_slice(), options, form, answer.as_slice());
    Ok(given == Some(status))
}

/// Whether the text of a case is answered with its status, and its answer printed byte for byte.
pub fn is_answered<R: AllocGlobal + Threads + Clock + Sync>(
    rt: &HostRuntime,
    threads: &R,
    name: &str,
) -> io::Result<bool> {
    let words = words_of(rt, name)?;
    match options_of(words.as_str()) {
        Some(options) => is_answered_with(rt, threads, name, &options, form_of(words.as_str())),
        None => Ok(false),
    }
}
