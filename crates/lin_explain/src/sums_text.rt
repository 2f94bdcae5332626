//! How it is shown that the adds of a counter leave no room for the reply of a get.
ghost use Rattle.std.specs.Prelude.{◌≡◌, ◌++◌, false, string_bytes, slice_get, OnOk};
ghost use Rattle.lin_explain.specs.CoreText.{core_line_of};
ghost use Rattle.lin_explain.specs.SumsText.{call_line_of, return_line_of, size_text, which_text, sums_head, first_line, origin_text, base_line, sign_text, side_text, adds_text, must_when, may_when, end_text, bound_line, gets_text, count_text, sums_text};

use crate::core_text::{CoreCall, event_of, write_call_of};
use crate::touching_text::line_of;
use lin_history::ProblemCall;
use lin_object::{Op, Reply};
use std::alloc::AllocError;

/// A get of a counter whose reply no order gives, as it is shown: what there is before it at least, or at most.
#[derive(Clone, Copy, PartialEq, Eq, Debug)]
pub struct ShownSums {
    /// The number of an earlier get that is counted from; `None` where it is the start.
    pub from: Option<usize>,
    /// The number of the get.
    pub get: usize,
    /// Whether its reply is too small; else it is too great.
    pub up: bool,
    /// The value that is counted from.
    pub base: i64,
    /// What must have been added, or else taken off.
    pub must: u128,
    /// What may have been taken off, or else added.
    pub may: u128,
    /// What there is before the get at least, or else at most.
    pub bound: i128,
}

// The line on which the call of this number was called; line 0 where there is none.
fn call_line_of(lines: &[u64], calls: &[ProblemCall<Op, Reply>], number: usize) -> u64
    ensures { result ≡ call_line_of lines.now (slice_get calls.now number) }
{
    match calls.get(number) {
        Some(call) => line_of(lines, call.called),
        None => 0,
    }
}

// The line on which it returned.
fn return_line_of(lines: &[u64], calls: &[ProblemCall<Op, Reply>], number: usize) -> u64
    ensures { result ≡ return_line_of lines.now (slice_get calls.now number) }
{
    match calls.get(number) {
        Some(call) => line_of(lines, event_of(call.called, &call.returned)),
        None => 0,
    }
}

// What is wrong with the reply.
fn size_text(up: bool) -> &'static str
    ensures { result.now ≡ size_text up }
{
    if up { "so small" } else { "so great" }
}

// Which call it is.
fn which_text(from: Option<usize>) -> &'static str
    ensures { result.now ≡ which_text from }
{
    match from {
        Some(_) => "the second of these calls",
        None => "this call",
    }
}

// Appends the line above the gets.
fn write_head(out: &mut String, from: Option<usize>, up: bool) -> Result<(), AllocError>
    ensures { OnOk result (string_bytes out.new ≡ string_bytes out.old ++ sums_head from up) }
{
    let which = which_text(from);
    let size = size_text(up);
    write!(out, "no order gives {which} {size} a reply:\n")
}

// Appends the line of the get of this number.
fn write_get(
    out: &mut String,
    name: &str,
    calls: &[ProblemCall<Op, Reply>],
    lines: &[u64],
    number: usize,
) -> Result<(), AllocError>
    ensures { OnOk result (string_bytes out.new ≡ string_bytes out.old
        ++ core_line_of name.now lines.now false (slice_get calls.now number)) }
{
    let shown = CoreCall {
        call: number,
        is_pending: false,
    };
    write_call_of(out, name, calls, lines, &shown)
}

// Appends the line of the earlier get, if it is counted from one.
fn write_first(
    out: &mut String,
    name: &str,
    calls: &[ProblemCall<Op, Reply>],
    lines: &[u64],
    from: Option<usize>,
) -> Result<(), AllocError>
    ensures { OnOk result (string_bytes out.new ≡ string_bytes out.old
        ++ first_line name.now calls.now lines.now from) }
{
    match from {
        Some(first) => write_get(out, name, calls, lines, first),
        None => Ok(()),
    }
}

// Appends the gets.
fn write_gets(
    out: &mut String,
    name: &str,
    calls: &[ProblemCall<Op, Reply>],
    lines: &[u64],
    shown: &ShownSums,
) -> Result<(), AllocError>
    ensures { OnOk result (string_bytes out.new ≡ string_bytes out.old
        ++ gets_text name.now calls.now lines.now shown.now) }
{
    write_head(out, shown.from, shown.up)?;
    write_first(out, name, calls, lines, shown.from)?;
    write_get(out, name, calls, lines, shown.get)
}

// Where it is counted from.
fn origin_text(from: Option<usize>) -> &'static str
    ensures { result.now ≡ origin_text from }
{
    match from {
        Some(_) => " by the first\n",
        None => " at the start\n",
    }
}

// Appends the value that is counted from.
fn write_base(out: &mut String, shown: &ShownSums) -> Result<(), AllocError>
    ensures { OnOk result (string_bytes out.new ≡ string_bytes out.old
        ++ base_line shown.now.from shown.now.base) }
{
    let base = shown.base;
    let origin = origin_text(shown.from);
    write!(out, "  {base}{origin}")
}

// Whether it is added, or taken off.
fn sign_text(up: bool) -> &'static str
    ensures { result.now ≡ sign_text up }
{
    if up { "+ " } else { "- " }
}

// By which adds.
fn side_text(up: bool) -> &'static str
    ensures { result.now ≡ side_text up }
{
    if up {
        " by adds above 0 that "
    } else {
        " by adds below 0 that "
    }
}

// Appends what adds of one sign make.
fn write_adds(out: &mut String, up: bool, sum: u128) -> Result<(), AllocError>
    ensures { OnOk result (string_bytes out.new ≡ string_bytes out.old ++ adds_text up sum) }
{
    let sign = sign_text(up);
    let side = side_text(up);
    write!(out, "  {sign}{sum}{side}")
}

// Appends which adds come between in each order.
fn write_must(
    out: &mut String,
    calls: &[ProblemCall<Op, Reply>],
    lines: &[u64],
    from: Option<usize>,
    get: usize,
) -> Result<(), AllocError>
    ensures { OnOk result (string_bytes out.new ≡ string_bytes out.old
        ++ must_when calls.now lines.now from get) }
{
    let called = call_line_of(lines, calls, get);
    match from {
        Some(first) => {
            let returned = return_line_of(lines, calls, first);
            write!(
                out,
                "were called after line {returned} and returned before line {called}\n"
            )
        }
        None => write!(out, "returned before line {called}\n"),
    }
}

// Appends which adds may come between.
fn write_may(
    out: &mut String,
    calls: &[ProblemCall<Op, Reply>],
    lines: &[u64],
    from: Option<usize>,
    get: usize,
) -> Result<(), AllocError>
    ensures { OnOk result (string_bytes out.new ≡ string_bytes out.old
        ++ may_when calls.now lines.now from get) }
{
    let returned = return_line_of(lines, calls, get);
    match from {
        Some(first) => {
            let called = call_line_of(lines, calls, first);
            write!(
                out,
                "were called before line {returned} and did not return before line {called}\n"
            )
        }
        None => write!(out, "were called before line {returned}\n"),
    }
}

// Whether it is the least value, or the greatest.
fn end_text(up: bool) -> &'static str
    ensures { result.now ≡ end_text up }
{
    if up { " at least\n" } else { " at most\n" }
}

// Appends the least value that there can be, or the greatest.
fn write_bound(out: &mut String, shown: &ShownSums) -> Result<(), AllocError>
    ensures { OnOk result (string_bytes out.new ≡ string_bytes out.old
        ++ bound_line shown.now.up shown.now.bound) }
{
    let bound = shown.bound;
    let end = end_text(shown.up);
    write!(out, "  = {bound}{end}")
}

// Appends what there is before the last get.
fn write_count(
    out: &mut String,
    calls: &[ProblemCall<Op, Reply>],
    lines: &[u64],
    shown: &ShownSums,
) -> Result<(), AllocError>
    ensures { OnOk result (string_bytes out.new ≡ string_bytes out.old
        ++ count_text calls.now lines.now shown.now) }
{
    write_base(out, shown)?;
    write_adds(out, shown.up, shown.must)?;
    write_must(out, calls, lines, shown.from, shown.get)?;
    write_adds(out, !shown.up, shown.may)?;
    write_may(out, calls, lines, shown.from, shown.get)?;
    write_bound(out, shown)
}

/// Appends the lines of a get of a counter whose reply no order gives: the get, behind an earlier one if it is counted from that;
/// and below it the value that is counted from, what must and what may have been added and taken off, and what that makes.
/// `AllocError` where memory was refused.
pub(crate) fn write_sums(
    out: &mut String,
    name: &str,
    calls: &[ProblemCall<Op, Reply>],
    lines: &[u64],
    shown: &ShownSums,
) -> Result<(), AllocError>
    ensures { OnOk result (string_bytes out.new ≡ string_bytes out.old
        ++ sums_text name.now calls.now lines.now shown.now) }
{
    write_gets(out, name, calls, lines, shown)?;
    write_count(out, calls, lines, shown)
}
