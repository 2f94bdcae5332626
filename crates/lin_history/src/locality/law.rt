//! Locality as a law of histories.

ghost use Rattle.lin_history.specs.Locality.LocalityLaw.{LocalityLaw};

/// Locality (Herlihy and Wing 1990), as one fact that a proof may cite: a history has a linearization exactly where each of its
/// objects has one. It does nothing.
pub fn locality_law()
    ensures { LocalityLaw }
{}
