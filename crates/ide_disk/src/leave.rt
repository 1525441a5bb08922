//! What a crash leaves of the changes that were not synced.

/// What a crash leaves of each change since the last sync.
#[derive(Clone, Copy, PartialEq, Eq, Debug)]
pub enum Leave {
    /// Nothing of it: the old bytes, and the old length.
    Old,
    /// All of it.
    New,
    /// Of a written range the first half, rounded down, is new; the rest is old, and 0 where
    /// nothing was. A cut is done.
    Half,
    /// A written range is full of this byte. A cut is done.
    Fill(u8),
}
