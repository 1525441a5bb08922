//! The half that works, over a new store or the records of one.
ghost use Rattle.std.specs.Prelude.{◌≡◌, [], IfErr, IfOk, OnOk};
ghost use Rattle.ide_journal.specs.Lists.{entries_of};
ghost use Rattle.ide_store.specs.Opening.{BeginsOn, GoesOnFrom, HaveFold, IsOpenStop};

use crate::kept::Kept;
use crate::laws::halves_begin;
use crate::outbox::{MOST_RECORDS, Outbox};
use crate::table::TableHalf;
use ide_batch::{apply_all, new_cores_are_empty};
use ide_journal::{RawRecord, Version};
use ide_problem::Problem;
use ide_steps::Core;
use ide_wire::Refused;
use std::alloc::Global;
use std::collections::VecDeque;

impl<P: Problem> TableHalf<P> {
    /// A half with no program, over a store of that version with no record. It takes no memory.
    pub fn new(alloc: Global, version: Version) -> TableHalf<P>
        ensures begins { BeginsOn ⟦<P as Kept>⟧.analysis result }
        ensures version { result.version ≡ version }
        ensures rests { result.waiting ≡ [] }
    {
        halves_begin::<P>();
        new_cores_are_empty::<P::F>();
        let mut core = Core::new(alloc);
        let _ = core.take_changes();
        TableHalf {
            alloc,
            core,
            version,
            outbox: Outbox {
                waiting: VecDeque::new(alloc),
                sealed: 0,
            },
            failed: false,
        }
    }

    /// A half over a store of that version, whose image is the fold of these records, and in which so
    /// many are sealed; no hand has a claim.
    ///
    /// Refusals: `Limit`, where more than 4,294,967,295 are sealed; those of [`apply_all`].
    pub fn open(
        alloc: Global,
        records: &[RawRecord],
        version: Version,
        sealed: u64,
    ) -> Result<TableHalf<P>, Refused>
        ensures opened { IfOk result (GoesOnFrom ⟦<P as Kept>⟧.analysis (entries_of records.now)) }
        ensures folds { OnOk result (HaveFold ⟦<P as Kept>⟧.analysis version (entries_of records.now)) }
        ensures rests { IfOk result (λ table. table.waiting ≡ []) }
        ensures version { IfOk result (λ table. table.version ≡ version) }
        ensures sealed { IfOk result (λ table. table.sealed ≡ sealed) }
        ensures refused { IfErr result (IsOpenStop ⟦<P as Kept>⟧.analysis version (entries_of records.now) sealed) }
    {
        halves_begin::<P>();
        new_cores_are_empty::<P::F>();
        if sealed > MOST_RECORDS {
            return Err(Refused::Limit);
        }
        let mut core = Core::new(alloc);
        apply_all(alloc, &mut core, records, version)?;
        let _ = core.take_changes();
        Ok(TableHalf {
            alloc,
            core,
            version,
            outbox: Outbox {
                waiting: VecDeque::new(alloc),
                sealed,
            },
            failed: false,
        })
    }
}
