//! How far a record under way is.

/// What a call of [`advance`](crate::Journal::advance) has done.
#[derive(Clone, Copy, PartialEq, Eq, Debug)]
pub enum Phase {
    /// The record stands behind its closed gate.
    Written,
    /// It is on the disk.
    BodySynced,
    /// Its gate is open.
    GateWritten,
    /// The open gate is on the disk: the record is stored.
    Stored,
}

/// Where a journal stands between two disk calls.
#[derive(Clone, Copy, PartialEq, Eq, Debug)]
pub(crate) enum Stage {
    /// No record is under way.
    Idle,
    /// The record is spelled, and nothing of it is written.
    Begun,
    /// It is written behind its closed gate.
    Written,
    /// That is on the disk.
    BodySynced,
    /// Its gate is written open.
    GateWritten,
    /// A disk call failed.
    Failed,
}
