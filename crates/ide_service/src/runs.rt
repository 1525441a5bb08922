//! What is so of every run that is kept in a store.
ghost use Rattle.ide_service.specs.Served.{ValuesOfRunsAreBest};
ghost use Rattle.ide_store.specs.Recovery.{OneDiskAnswers};
ghost use Rattle.ide_store.specs.TwoDisksLaws.{TwoDisksAnswers};

use ide_graph::{
    ends_of_programs_are_nodes, exits_of_programs_are_owned,
    graphs_of_one_text_have_the_same_edges, graphs_of_programs_are_closed,
    sites_of_programs_are_joined,
};
use ide_problem::Problem;
use ide_steps::tasks_owe_their_parts;
use ide_store::{Kept, every_run_answers, every_run_answers_on_two_disks};
use ide_theory::{graphs_are_supergraphs, keys_stand_at_nodes};

/// Over every list of worker steps, seals, disk calls, commands, crashes and openings that can happen one
/// after the other from a new store on one disk, with any number of hands, and a crash between any two
/// calls, within a disk call or within an opening, with any bytes that the disk may then leave:
///
/// 1. while the store runs, its image is that after the history of its steps;
/// 2. each opening that can happen gives the image after a beginning of the history, with functions and
///    pending marks alike, at least as long as it was when the last acknowledged record was sealed;
/// 3. an opening finds a list of records, so that one can happen;
/// 4. over each graph of the image's program, wherever nothing is pending, however often it was stopped,
///    loaded and rooted, each value that follows from the image is the best one for its program and roots;
/// 5. since the last opening or load, claims are at most the keys that were pending then, lowerings, claims
///    given back and entries of roots; and lowerings and entries at most `HEIGHT` for each jump of a node
///    and two facts and each summary of a call and two facts.
///
/// It does nothing: its clause is the law, of the definitions alone: no engine of one disk stands here.
pub fn every_run<P: Problem>()
    ensures { OneDiskAnswers P.L.algebra P.F.edge P.targets P.F.eq P.F.proper P.F.form }
{
    every_run_answers::<P>();
}

/// Over every list of worker steps, seals, disk calls, checkpoints, commands, crashes and openings that can
/// happen one after the other from a new store on two disks, whose slots are of either version, or from
/// one of either version which such a run on one disk left, in whatever state, and beside which a closed slot
/// was put, with any number of hands, checkpoints begun and their calls made at any time between, and a
/// crash between any two calls, within a disk call, within a checkpoint or within an opening, with any bytes
/// that the disks may then leave: all that [`every_run`] says of one disk, in the same words (1 to 5).
///
/// It does nothing: its clause is the law. What each call of an [`ide_slot_store::SlotEngine`] is among
/// these, the contract of the call says.
pub fn every_run_on_two_disks<P: Problem>()
    ensures { TwoDisksAnswers ⟦<P as Kept>⟧.analysis }
{
    every_run_answers_on_two_disks::<P>();
}

/// Where an image that a run of a store came to is frozen, values that are best over it are the best ones
/// for the program and the roots of that run, at each node and fact.
pub fn values_of_runs_are_best<P: Problem>()
    ensures { ValuesOfRunsAreBest P ⟦<P as Kept>⟧.analysis }
{
    ends_of_programs_are_nodes();
    exits_of_programs_are_owned();
    graphs_are_supergraphs::<P>();
    graphs_of_one_text_have_the_same_edges();
    graphs_of_programs_are_closed();
    sites_of_programs_are_joined();
    keys_stand_at_nodes::<P>();
    tasks_owe_their_parts::<P>();
}
