//! What a worker passes after each claim.
ghost use Rattle.std.specs.Prelude.{◌≡◌, false};

/// What a worker passes after each claim of a task, before it searches it: tests and schedulers make workers wait here.
pub trait Gate: Sync {
    /// Called with the number of the task, after it was claimed. It may wait.
    fn enter(&self, task: u64);

    /// Whether workers are wanted at once, also for an object that the calling thread would soon have decided by itself.
    fn wants_workers(&self) -> bool {
        true
    }
}

/// The gate at which nothing happens: no worker waits, and none is wanted where the calling thread is soon done.
#[derive(Clone, Copy, PartialEq, Eq, Debug)]
pub struct FreeGate;

impl Gate for FreeGate {
    fn enter(&self, _task: u64) {}

    fn wants_workers(&self) -> bool
        ensures { result ≡ false }
    {
        false
    }
}
