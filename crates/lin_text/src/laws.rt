//! What holds of every text.

ghost use Rattle.lin_text.specs.Meaning.{MeaningLaw};

/// A text means at most one history, at most one fault, and never both: one fact that a proof may cite. It does nothing.
pub fn meaning_law()
    ensures { MeaningLaw }
{}
