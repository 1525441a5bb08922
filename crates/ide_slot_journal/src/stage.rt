//! How far the next record and a checkpoint are.

/// Where the writer stands between two disk calls for records.
#[derive(Clone, Copy, PartialEq, Eq, Debug)]
pub(crate) enum RecordStage {
    /// There is no next record.
    Idle,
    /// It is spelled, and nothing of it is written.
    Waits,
    /// It is written behind its closed gate.
    Written,
    /// That is on the disk.
    BodySynced,
    /// Its gate is written open.
    GateWritten,
    /// A disk call failed.
    Failed,
}

/// What a checkpoint does next.
#[derive(Clone, Copy, PartialEq, Eq, Debug)]
pub(crate) enum FillStage {
    /// There is none.
    Rests,
    /// It is planned; its first call closes the first gate of the other slot, or cuts that slot.
    Waits,
    /// The closed gate is synced.
    Settles,
    /// What stands behind the gate is cut off.
    Trims,
    /// The first page is written.
    Heads,
    /// The next record is written; or, with all written, they are synced.
    Fills,
    /// The first gate is written open.
    OpensGate,
    /// That is synced.
    Lasts,
}
