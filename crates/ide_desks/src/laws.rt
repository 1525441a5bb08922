//! Laws of halves that go on apart from each other. The functions do nothing: their clauses are the laws.
ghost use Rattle.ide_desks.specs.Apart.{RunsAreLive, HalvesMeet};

use ide_disk::Disk;
use ide_graph::{
    ends_of_programs_are_nodes, exits_of_programs_are_owned,
    graphs_of_one_text_have_the_same_edges, graphs_of_programs_are_closed,
    sites_of_programs_are_joined,
};
use ide_problem::Problem;
use ide_steps::tasks_owe_their_parts;
use ide_store::{Kept, two_disks_are_a_store};
use ide_theory::keys_stand_at_nodes;

/// Where an engine is on a run, each of its halves keeps what it keeps apart from the other: the half that
/// works is on the run, and the half that writes is live with the records that it was handed.
pub fn runs_are_live<P: Problem, D: Disk>()
    ensures { RunsAreLive ⟦<P as Kept>⟧.analysis D.Disk }
{
    ends_of_programs_are_nodes();
    exits_of_programs_are_owned();
    graphs_of_one_text_have_the_same_edges();
    graphs_of_programs_are_closed();
    sites_of_programs_are_joined();
    keys_stand_at_nodes::<P>();
    tasks_owe_their_parts::<P>();
}

/// And where they meet, with all that is sealed handed over, they are on a run again: so all that is told of
/// engines on runs is told of them, of what a crash leaves, of an opening behind it, and of the answers.
pub fn halves_meet<P: Problem, D: Disk>()
    ensures { HalvesMeet ⟦<P as Kept>⟧.analysis D.Disk }
{
    two_disks_are_a_store::<P>();
}
