//! What the words after the program's name ask for, with ample memory.

use lincheck::{OptionFault, Options, Request, options_of};
use std::alloc::{AllocError, Global};

// What these words ask for.
fn request(alloc: Global, words: &[&str]) -> Result<Request, AllocError> {
    let mut texts = Vec::with_capacity(alloc, words.len())?;
    for word in words {
        texts.push(String::from_str(alloc, word)?)?;
    }
    options_of(alloc, texts.as_slice())
}

// Whether they ask for a run with these options.
fn runs(alloc: Global, words: &[&str], wanted: &Options) -> Result<bool, AllocError> {
    match &request(alloc, words)? {
        Request::Run(options) => Ok(options == wanted),
        _ => Ok(false),
    }
}

// Whether they ask for a run with these options and an explanation.
fn explains(alloc: Global, words: &[&str], wanted: &Options) -> Result<bool, AllocError> {
    match &request(alloc, words)? {
        Request::Explain(options) => Ok(options == wanted),
        _ => Ok(false),
    }
}

// Whether they are refused.
fn is_refused(alloc: Global, words: &[&str]) -> Result<bool, AllocError> {
    Ok(matches!(&request(alloc, words)?, Request::Refused(_)))
}

// Whether they are answered with help.
fn is_helped(alloc: Global, words: &[&str]) -> Result<bool, AllocError> {
    Ok(matches!(&request(alloc, words)?, Request::Help(_)))
}

// Whether they are answered with the version.
fn is_told_version(alloc: Global, words: &[&str]) -> Result<bool, AllocError> {
    Ok(
        matches!(&request(alloc, words)?, Request::Version(text) if text.as_str() == "lincheck 0.1.0\n"),
    )
}

const GREATEST: [&str; 8] = [
    "--limit",
    "1000000000000",
    "--workers",
    "64",
    "--stats",
    "--explain",
    "--shards",
    "256",
];

// Whether no words ask for the usual options.
fn no_words_run(alloc: Global) -> Result<bool, AllocError> {
    let Ok(usual) = Options::new(4, 16, None, false) else {
        return Ok(false);
    };
    runs(alloc, &[], &usual)
}

// Whether the greatest numbers are taken.
fn greatest_run(alloc: Global) -> Result<bool, AllocError> {
    let Ok(greatest) = Options::new(64, 256, Some(1_000_000_000_000), true) else {
        return Ok(false);
    };
    explains(alloc, &GREATEST, &greatest)
}

#[test]
fn words_ask_for_a_run(rt: HostRuntime) {
    assert!(rt; matches!(no_words_run(rt.alloc()), Ok(true)));
    assert!(rt; matches!(greatest_run(rt.alloc()), Ok(true)));
}

#[test]
fn other_words_are_refused(rt: HostRuntime) {
    assert!(rt; matches!(is_refused(rt.alloc(), &["--workers", "65"]), Ok(true)));
    assert!(rt; matches!(is_refused(rt.alloc(), &["--shards", "257"]), Ok(true)));
    assert!(rt; matches!(is_refused(rt.alloc(), &["--limit", "0"]), Ok(true)));
    assert!(rt; matches!(is_refused(rt.alloc(), &["--seconds", "0"]), Ok(true)));
    assert!(rt; matches!(is_refused(rt.alloc(), &["--seconds", "86401"]), Ok(true)));
    assert!(rt; matches!(is_refused(rt.alloc(), &["extra"]), Ok(true)));
    assert!(rt; matches!(is_helped(rt.alloc(), &["--help"]), Ok(true)));
    assert!(rt; matches!(is_told_version(rt.alloc(), &["--version"]), Ok(true)));
}

const REFUSED: [(u64, u64, Option<u64>, OptionFault); 4] = [
    (0, 0, None, OptionFault::Workers),
    (65, 16, None, OptionFault::Workers),
    (1, 257, None, OptionFault::Shards),
    (1, 1, Some(0), OptionFault::Limit),
];

#[test]
fn options_are_refused_in_order(rt: HostRuntime) {
    for (workers, shards, limit, fault) in REFUSED {
        assert!(rt; Options::new(workers, shards, limit, false) == Err(fault));
    }
    let Ok(usual) = Options::new(4, 16, None, false) else {
        return;
    };
    assert!(rt; usual.with_seconds(Some(0)) == Err(OptionFault::Seconds));
    assert!(rt; usual.with_seconds(Some(86_401)) == Err(OptionFault::Seconds));
}
