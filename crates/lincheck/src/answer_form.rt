//! In which form a history is answered.

/// In which form a history is answered.
#[derive(Clone, Copy, PartialEq, Eq, Debug)]
pub enum AnswerForm {
    /// The report.
    Report,
    /// The report, and of a history that is not linearizable a core, where one is found, and why its longest run ends.
    Explained,
    /// A line for each object, in place of the report.
    Each,
    /// The same, and of each object that is not linearizable a core, where one is found.
    EachExplained,
}
