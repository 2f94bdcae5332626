//! `lincheck` reads a recorded history as JSON Lines on standard input and shows on standard output whether it is
//! linearizable.
#![tactic(auto)]

mod advice;
mod hints;
mod standard_error;

use lincheck::{
    AnswerForm, Options, Request, RunFault, Status, StdSink, StdSource, options_of, run_with,
    status_code,
};
use standard_error::OnStandardError;
use std::io::IsTerminal;
use std::process::ExitCode;
use std::thread::Threads;
use std::time::Clock;
use std::{env, io};

// The words after the program's name.
fn words(rt: &HostRuntime) -> io::Result<Vec<String>> {
    Ok(env::args(rt)?.skip(1).collect(rt.alloc())?)
}

// Whether the word is an option behind which a number stands.
fn takes_number(word: &str) -> bool {
    matches!(word, "--workers" | "--shards" | "--limit" | "--seconds")
}

// Whether one of the words is neither an option nor what stands behind one: it may be the name of a file.
fn has_bare_word(words: &[String]) -> bool {
    let mut is_behind_option = false;
    for word in words {
        if !is_behind_option && !word.starts_with('-') {
            return true;
        }
        is_behind_option = takes_number(word.as_str());
    }
    false
}

// What helps where the words are refused.
fn say_what_helps(rt: &HostRuntime) {
    let Ok(words) = words(rt) else {
        return;
    };
    if has_bare_word(words.as_slice()) {
        let _ = eprintln!(rt; "lincheck reads standard input: lincheck < HISTORY");
    }
}

// What is asked for by words that cannot be read: nothing, where one of them is not UTF-8.
fn request_of_error(rt: &HostRuntime, kind: io::ErrorKind) -> Result<Request, RunFault> {
    match kind {
        io::ErrorKind::OutOfMemory => Err(RunFault::Memory),
        io::ErrorKind::InvalidData => {
            match format!(in rt.alloc(); "error: an argument is not UTF-8\n") {
                Ok(text) => Ok(Request::Refused(text)),
                Err(_) => Err(RunFault::Memory),
            }
        }
        _ => Err(RunFault::Read),
    }
}

// What the user asks for.
fn request(rt: &HostRuntime) -> Result<Request, RunFault> {
    match words(rt) {
        Ok(words) => options_of(rt.alloc(), words.as_slice()).map_err(|_| RunFault::Memory),
        Err(error) => request_of_error(rt, error.kind()),
    }
}

// The check of standard input, answered on standard output in this form. Workers are started with `threads`.
fn check<R: AllocGlobal + Threads + Clock + Sync>(
    rt: &HostRuntime,
    threads: &R,
    options: &Options,
    form: AnswerForm,
) -> Result<Status, RunFault> {
    let listener = OnStandardError::new(rt, options);
    if rt.stdin().is_terminal() {
        let _ = eprintln!(rt;
            "lincheck: type a history here and end it with Ctrl-D, or call lincheck < HISTORY"
        );
    }
    let mut source = StdSource::new(rt.reader());
    let mut sink = StdSink::new(io::writer(rt));
    run_with(threads, &mut source, &mut sink, options, form, &listener)
}

// The exit status of an answer; a fault is told on standard error.
fn ended(rt: &HostRuntime, answer: Result<Status, RunFault>) -> ExitCode {
    if let Err(fault) = answer {
        let _ = eprintln!(rt; "lincheck: {fault}");
    }
    ExitCode::from(status_code(&answer))
}

// Does what the user asks for.
fn carry_out<R: AllocGlobal + Threads + Clock + Sync>(
    rt: &HostRuntime,
    threads: &R,
    request: &Request,
) -> ExitCode {
    match request {
        Request::Run(options) => ended(rt, check(rt, threads, options, AnswerForm::Report)),
        Request::Explain(options) => ended(rt, check(rt, threads, options, AnswerForm::Explained)),
        Request::Each(options) => ended(rt, check(rt, threads, options, AnswerForm::Each)),
        Request::ExplainEach(options) => {
            ended(rt, check(rt, threads, options, AnswerForm::EachExplained))
        }
        Request::Help(text) | Request::Version(text) => match print!(rt; "{text}") {
            Ok(()) => ExitCode::SUCCESS,
            Err(_) => ended(rt, Err(RunFault::Write)),
        },
        Request::Refused(text) => {
            let _ = eprint!(rt; "{text}");
            say_what_helps(rt);
            ended(rt, Ok(Status::Refused))
        }
    }
}

fn main(rt: HostRuntime) -> ExitCode {
    match request(&rt) {
        Ok(request) => carry_out(&rt, &rt, &request),
        Err(fault) => ended(&rt, Err(fault)),
    }
}
