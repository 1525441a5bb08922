//! Whether an entry changed.

/// Whether an entry changed.
#[derive(Clone, Copy, PartialEq, Eq, Debug)]
pub enum Change {
    /// The entry fell.
    Lowered,
    /// Nothing changed.
    Same,
}
