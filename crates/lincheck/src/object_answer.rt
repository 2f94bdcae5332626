//! What is asked of one object, and what is answered.

ghost use Rattle.std.specs.Prelude.{◌≡◌, IsTrue};

use lin_history::Order;

/// What is asked of an object.
#[derive(Clone, Copy)]
pub(crate) enum Question {
    /// Whether it has a linearization.
    Verdict,
    /// That, and where it has none the first of its longest runs.
    LongestRun,
}

/// Whether no longest run is asked for.
pub(crate) fn asks_no_run(question: Question) -> bool
    ensures { IsTrue result → question ≡ Question.Verdict }
{
    match question {
        Question::Verdict => true,
        Question::LongestRun => false,
    }
}

/// What was found of an object.
#[derive(Drop)]
pub(crate) enum ObjectAnswer {
    /// Its least linearization.
    Yes(Order),
    /// It has a linearization: no more was asked for.
    HasOrder,
    /// It has none. The first of its longest runs, where that was asked for and was found in time.
    No(Option<Order>),
    /// The bounds ended its search.
    Undecided,
}
