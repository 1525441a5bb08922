//! Laws of a store on two disks. The functions do nothing: their clauses are the laws.
ghost use Rattle.ide_slot_store.specs.Checkpoint.{CheckpointsBegin, CheckpointsStayOnRuns};
ghost use Rattle.ide_slot_store.specs.Openings.{SlotHalvesOpen};
ghost use Rattle.ide_slot_store.specs.Runs.{SlotEnginesStayOnRuns};
ghost use Rattle.ide_slot_store.specs.Writing.{JournalsWriteTwo};
ghost use Rattle.ide_store.specs.TwoDisksLaws.{slots_of};

use ide_disk::Disk;
use ide_problem::Problem;
use ide_store::{Kept, every_run_answers, every_run_answers_on_two_disks};

/// A journal on two disks that stands behind the stored records is a writer of a store on two disks, of
/// either version. Each call that it makes, for the next record or of a checkpoint, is an event of the
/// store, after which it stands behind the records again: a good one, one that stores a record, or one that
/// failed. So is the plan of a checkpoint that has all the records. One that was opened stands behind
/// whatever records the disks hold, and a new one behind none. What a crash leaves, within a call too, holds
/// the stored records, and perhaps the next one.
pub fn slot_journals_write_stores<P: Problem, D: Disk>()
    ensures { JournalsWriteTwo D.Disk (slots_of ⟦<P as Kept>⟧.analysis) }
{}

/// The two halves of a store on two disks that was opened, of either version, are at work on it: the one
/// that goes on from the records that were found, and the one that found them.
pub fn slot_halves_open<P: Problem, D: Disk>()
    ensures { SlotHalvesOpen ⟦<P as Kept>⟧.analysis D.Disk }
{
    every_run_answers::<P>();
    every_run_answers_on_two_disks::<P>();
    slot_journals_write_stores::<P, D>();
}

/// Whichever calls of its halves are made, an engine on two disks stays on a run, until a call of a disk
/// fails: the halves are at work on a world that acts led to from a new store, or from one that was adopted
/// from one disk. An opening goes on with the run that left its disks, whatever crashed, and so does an
/// adoption with the run that left its disk; and what is frozen is of that run, and so answers with best
/// values, as `frozen_images_answer` of `ide_store` says of each run. The slots of a run are of either
/// version, and a checkpoint goes over from the first to the second.
pub fn slot_engines_stay_on_runs<P: Problem, D: Disk>()
    ensures { SlotEnginesStayOnRuns P ⟦<P as Kept>⟧.analysis D.Disk }
{}

/// A checkpoint that stands for all that is sealed, with the image as it stands in parts, is one that the
/// store may begin, wherever the halves are at work, nothing has changed since the last record, and all
/// records are handed over; from then on the half that works spells records in the second version. So an
/// engine that is on a run stays on it.
pub fn slot_checkpoints_begin<P: Problem, D: Disk>()
    ensures begins { CheckpointsBegin ⟦<P as Kept>⟧.analysis D.Disk }
    ensures stays { CheckpointsStayOnRuns ⟦<P as Kept>⟧.analysis D.Disk }
{}
