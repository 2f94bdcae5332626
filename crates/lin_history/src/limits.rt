//! The limits on a history. The definitions cite these constants; a limit is nowhere else.

/// The most objects of a history.
pub const MAX_OBJECTS: usize = 1024;

/// The most calls of a history.
pub const MAX_CALLS: usize = 262_144;

/// The most calls on one object, and so the most of a problem.
pub const MAX_CALLS_ON_OBJECT: usize = 16_384;

/// The most bytes of an object's name.
pub const MAX_NAME_BYTES: usize = 64;
