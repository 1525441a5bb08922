//! The claim of a hand on a key.
use ide_wire::Key;

/// A hand's claim on a pending key: the work that the hand has begun.
#[derive(Drop)]
pub struct Claim<T> {
    /// The claimed key.
    pub key: Key,
    /// What the hand works on.
    pub task: T,
    /// How many parts of the task are done.
    pub done: usize,
    /// Whether the key was lowered again since it was claimed.
    pub lowered: bool,
}
