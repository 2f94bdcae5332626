//! How far hints look. None of it is for any answer: a hint that looks no further is a search that takes longer.

/// How many calls in turn are looked at for one that matters. Calls are lifted nearly in the order in which they matter, so it is among
/// the first, unless more processes than these wait at one moment.
pub(crate) const CALLS_IN_SIGHT: usize = 64;

/// How many are looked at where that is asked seldom, or where each that is tried looks at the others.
pub(crate) const MORE_IN_SIGHT: usize = 256;
