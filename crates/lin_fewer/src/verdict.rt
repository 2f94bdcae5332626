//! The answer to whether a configuration has a completion.
ghost use Rattle.std.specs.Prelude.{◌≡◌, ◌↔◌, IsTrue};

/// Whether a configuration has a completion.
#[derive(Clone, Copy, PartialEq, Eq, Debug)]
pub enum Verdict {
    /// It has one.
    Completes,
    /// It has none.
    Refuted,
    /// That is not known.
    Unknown,
}

// Whether it has none.
pub(crate) fn is_refutation(verdict: Verdict) -> bool
    ensures { IsTrue result ↔ (verdict ≡ Verdict.Refuted) }
{
    match verdict {
        Verdict::Completes => false,
        Verdict::Refuted => true,
        Verdict::Unknown => false,
    }
}

// Whether it has one.
pub(crate) fn is_completion(verdict: Verdict) -> bool
    ensures { IsTrue result ↔ (verdict ≡ Verdict.Completes) }
{
    match verdict {
        Verdict::Completes => true,
        Verdict::Refuted => false,
        Verdict::Unknown => false,
    }
}
