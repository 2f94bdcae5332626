//! An object that was found by its name.

use lin_object::Kind;

/// A declared object, as `Builder::find` found it.
#[derive(Clone, Copy)]
pub struct FoundObject<'n> {
    /// Its name.
    pub name: &'n str,
    /// Its index in the order of declaration.
    pub index: usize,
    /// Its kind.
    pub kind: Kind,
}
