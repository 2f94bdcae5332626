//! How hints keep the numbers of calls and their places in rows.

/// The number in two bytes: a problem has at most 16,384 calls. What is greater is kept as the greatest of them, which no call has.
pub(crate) fn kept(number: usize) -> u16 {
    usize::min(number, u16::MAX as usize) as u16
}
