//! Reports of what checks found, with two workers.

ghost use Rattle.std.specs.Prelude.{IfSome};
ghost use Rattle.lincheck.specs.Verdict.{IsOf};

use lin_history::History;
use lincheck::{Gate, Options, Verdict, check, report};
use std::alloc::Global;
use std::thread::Threads;
use std::time::Clock;

/// Three writes at once, and after them a read of what nobody wrote.
pub const REFUTED: &str = r#"{"event":"object","object":"x","kind":"register"}
{"event":"call","process":1,"object":"x","op":"write","args":[1]}
{"event":"call","process":2,"object":"x","op":"write","args":[2]}
{"event":"call","process":3,"object":"x","op":"write","args":[3]}
{"event":"return","process":1,"object":"x","result":"ok"}
{"event":"return","process":2,"object":"x","result":"ok"}
{"event":"return","process":3,"object":"x","result":"ok"}
{"event":"call","process":4,"object":"x","op":"read"}
{"event":"return","process":4,"object":"x","result":9}
"#;

/// Its report.
pub const REFUTED_REPORT: &str = "not linearizable: x
longest run: 3 of 4 calls
1 1 x write(1) = ok
2 2 x write(2) = ok
3 3 x write(3) = ok
";

/// The verdict of a check with two workers, with this gate.
pub fn judged<R: AllocGlobal + Threads + Clock + Sync, G: Gate>(
    rt: &R,
    history: &History,
    gate: &G,
) -> Option<Verdict>
    ensures { IfSome result (IsOf history.now) }
{
    let Ok(options) = Options::new(2, 16, None, false) else {
        return None;
    };
    match check(rt, history, &options, gate) {
        Ok(checked) => Some(checked.verdict),
        Err(_) => None,
    }
}

/// Whether the verdict has this report.
pub fn is_reported(alloc: Global, history: &History, verdict: &Verdict, wanted: &str) -> bool
    requires { IsOf history.now verdict.now }
{
    match report(alloc, history, verdict) {
        Ok(told) => told.as_slice() == wanted.as_bytes(),
        Err(_) => false,
    }
}
