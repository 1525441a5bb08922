//! Laws of the store. The functions do nothing: their clauses are the laws.
ghost use Rattle.ide_batch.specs.Items.{functions_by};
ghost use Rattle.ide_store.specs.Acting.{CallsAreActs};
ghost use Rattle.ide_store.specs.Known.{Known, Knows};
ghost use Rattle.ide_store.specs.Opening.{HalvesBegin};
ghost use Rattle.ide_store.specs.Recovery.{OneDiskAnswers, OneDiskRecovers};
ghost use Rattle.ide_store.specs.Runs.{ActsLeaveDisks, FrozenImagesAnswer};
ghost use Rattle.ide_store.specs.TwoDisksLaws.{CheckpointsCanBePlanned, SlotsGiveBack, TwoDisksAnswers, TwoDisksBegin, TwoDisksGoOn, TwoDisksKeep, TwoDisksRecover, slots_of};
ghost use Rattle.ide_store.specs.Writing.{JournalsWriteStores};

use crate::kept::Kept;
use ide_disk::Disk;
use ide_graph::{
    ends_of_programs_are_nodes, exits_of_programs_are_owned,
    graphs_of_one_text_have_the_same_edges, graphs_of_programs_are_closed,
    sites_of_programs_are_joined,
};
use ide_problem::Problem;
use ide_steps::tasks_owe_their_parts;
use ide_theory::keys_stand_at_nodes;

/// Over every list of steps, seals, disk calls, crashes and openings that can happen one after the
/// other from a new store on one disk: while the machine runs, its image is that after its steps; an
/// opening can happen; and each that can gives the image after a beginning of the steps, with all
/// those that were done before the last acknowledged record was sealed.
pub fn every_run_recovers<P: Problem>()
    ensures { OneDiskRecovers P.F.edge P.F.eq (functions_by P.F.proper P.F.form P.F.eq P.F.edge.all_top) }
{}

/// Two slots on two disks, of either version, are a store as well: they keep what a store has to; a
/// new store has no record, and what one disk holds is held beside a closed slot; wherever records are
/// still to be stored, or a checkpoint is begun, some call can be made; all that stands in a slot gives
/// back the image of the records, and its commands are theirs; and where there are parts of that image,
/// a checkpoint over all records can be planned.
pub fn two_disks_are_a_store<P: Problem>()
    ensures keep { TwoDisksKeep (slots_of ⟦<P as Kept>⟧.analysis) }
    ensures begin { TwoDisksBegin (slots_of ⟦<P as Kept>⟧.analysis) }
    ensures go_on { TwoDisksGoOn (slots_of ⟦<P as Kept>⟧.analysis) }
    ensures give_back { SlotsGiveBack (slots_of ⟦<P as Kept>⟧.analysis) }
    ensures plan { CheckpointsCanBePlanned (slots_of ⟦<P as Kept>⟧.analysis) }
{}

/// As [`every_run_recovers`], of a store on two disks, with the beginnings and the calls of checkpoints
/// among what happens.
pub fn every_run_recovers_on_two_disks<P: Problem>()
    ensures { TwoDisksRecover (slots_of ⟦<P as Kept>⟧.analysis) }
{}

/// Over every list of claims, parts, ends and releases of any hands, loads, roots, batches, disk calls,
/// crashes and openings that can happen one after the other from a new store on one disk: the store
/// recovers, as above; over each graph of the image's program, wherever nothing is pending, each value
/// that follows from the image is the best one for the program and its roots; and the work since the
/// last opening or load is bounded: claims by the keys that were pending then, lowerings, releases and
/// entries of roots, lowerings and entries by the ranks that the keys of the graph can lose.
pub fn every_run_answers<P: Problem>()
    ensures { OneDiskAnswers P.L.algebra P.F.edge P.targets P.F.eq P.F.proper P.F.form }
{
    programs_are_known::<P>();
}

/// As [`every_run_answers`], of a store on two disks, whose slots are of either version, with the
/// beginnings and the calls of checkpoints among what happens, also of those that go over from the first
/// version to the second: over each checkpoint, each crash and each opening the values that follow stay the
/// best ones, and the bounds of the work are the same. A run begins at a new store, or at one of either version
/// which a run on one disk left, and beside which a closed slot was put.
pub fn every_run_answers_on_two_disks<P: Problem>()
    ensures { TwoDisksAnswers ⟦<P as Kept>⟧.analysis }
{
    programs_are_known::<P>();
}

/// Each call of a core is an act of the store whose half that works it is made for, by what the call says
/// of the core before and after it.
pub fn calls_are_acts<P: Problem>()
    ensures { CallsAreActs ⟦<P as Kept>⟧.analysis }
{
    analyses_are_known::<P>();
}

/// A half that works begins on each new store, and goes on from each opening.
pub fn halves_begin<P: Problem>()
    ensures { HalvesBegin ⟦<P as Kept>⟧.analysis }
{
    analyses_are_known::<P>();
}

/// What the half that works does leaves the disks, and what is stored on them, as they are, wherever the
/// store stands.
pub fn acts_leave_disks<P: Problem>()
    ensures { ActsLeaveDisks ⟦<P as Kept>⟧.analysis }
{}

/// Where an image that a run of a store came to is frozen, over each graph of its program the values that
/// follow from it are the best ones for the program and the roots of that run. What a run is, a crate whose
/// engine stays on one says.
pub fn frozen_images_answer<P: Problem>()
    ensures { FrozenImagesAnswer P ⟦<P as Kept>⟧.analysis }
{
    every_run_answers::<P>();
    every_run_answers_on_two_disks::<P>();
}

/// A journal that stands behind the stored records is a writer of a store on one disk, and each call that
/// it makes for the record under way is an event of the store: a good one, one that stores the record,
/// or one that failed.
pub fn journals_write_stores<D: Disk>()
    ensures { JournalsWriteStores D.Disk }
{}

// Runs over the graphs of programs are lawful, and have room for their keys.
fn programs_are_known<P: Problem>()
    ensures { Known P.L.algebra P.F.edge P.targets }
{
    ends_of_programs_are_nodes();
    graphs_of_programs_are_closed();
    sites_of_programs_are_joined();
    keys_stand_at_nodes::<P>();
}

// All that acts of an analysis stand on: that, and what is so of its tasks and records.
fn analyses_are_known<P: Problem>()
    ensures { Knows ⟦<P as Kept>⟧.analysis }
{
    exits_of_programs_are_owned();
    graphs_of_one_text_have_the_same_edges();
    sites_of_programs_are_joined();
    tasks_owe_their_parts::<P>();
    programs_are_known::<P>();
}
