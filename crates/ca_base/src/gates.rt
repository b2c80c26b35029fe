//! Where a test can hold the workers of a parallel run.

/// What a worker passes on its way into an object.
///
/// A gate changes nothing that a contract sees. Its call returns: a gate that waits for another
/// worker looks at most a limited number of times.
pub trait Gate {
    /// The worker has taken the object and is about to work on it: to run sections on it, or to enter a call.
    fn inside(&self, worker: u32, object: u32);
}

/// The gate that holds nobody.
#[derive(Clone, Copy, PartialEq, Eq)]
pub struct OpenGate;

impl Gate for OpenGate {
    fn inside(&self, _worker: u32, _object: u32) {}
}
