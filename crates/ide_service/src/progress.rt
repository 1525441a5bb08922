//! How far a run has come, for who looks on.
ghost use Rattle.std.specs.Prelude.{◌≡◌, length};

use ide_problem::Problem;
use ide_store::TableHalf;

/// How many keys have an entry, how many are pending, and how many records are stored.
#[derive(Clone, Copy, PartialEq, Eq, Debug)]
pub struct Progress {
    /// Keys that have an entry.
    pub keys: usize,
    /// Keys that wait for a hand: none where the run is quiet.
    pub pending: usize,
    /// Records that are stored, and so acknowledged.
    pub records: u64,
}

impl Progress {
    /// How far the run of a half that works has come, of which so many records are stored. It counts nothing anew.
    pub fn of<P: Problem>(table: &TableHalf<P>, records: u64) -> Progress
        ensures keys { result.keys ≡ length table.now.core.table.entries }
        ensures pending { result.pending ≡ length table.now.core.pile.pending }
        ensures records { result.records ≡ records }
    {
        let core = table.core();
        Progress {
            keys: core.key_count(),
            pending: core.pending_count(),
            records,
        }
    }
}
