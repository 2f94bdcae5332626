//! What is decided of a problem.

ghost use Rattle.std.specs.Prelude.{◌≡◌, ◌↔◌, IsTrue};

use lin_history::Order;

/// What is decided of a problem.
#[derive(Drop)]
pub enum Decision {
    /// The least linearization.
    Found(Order),
    /// There is none.
    Refuted,
    /// Nothing, with as much effort as was asked for. More may decide it.
    Spent,
    /// Nothing, and nothing will be: the work is done, or the stop has answered.
    Stopped,
}

impl Decision {
    /// Whether it is decided that there is no linearization.
    pub fn is_refuted(&self) -> bool
        ensures { IsTrue result ↔ self.now ≡ Decision.Refuted }
    {
        matches!(self, Decision::Refuted)
    }
}
