//! Laws of tasks. The functions do nothing: their clauses are the laws.
ghost use Rattle.ide_steps.specs.Calls.{CallsAreSteps};
ghost use Rattle.ide_steps.specs.Owed.{TasksOweTheirParts};
ghost use Rattle.ide_steps.specs.Room.{ImagesHaveRoom, IsWholeCore};

use crate::machine::Core;
use ide_problem::Problem;
use ide_theory::{
    keys_stand_at_nodes, parts_in_range_are_owed, runs_are_sound, sites_make_a_graph,
};

/// A task, as it is claimed, owes exactly what each rule instance with its key gives.
pub fn tasks_owe_their_parts<P: Problem>()
    ensures { TasksOweTheirParts P.L.algebra P.F.edge P.targets }
{
    parts_in_range_are_owed::<P>();
    sites_make_a_graph::<P>();
}

/// Each call of a hand is a step of it, by what the call says of the core before and after it: so
/// calls of any hands in any order, from a core that was just loaded, are a run.
pub fn calls_are_steps<P: Problem>()
    ensures { CallsAreSteps P.L.algebra P.F.edge P.targets }
{
    runs_are_sound::<P>();
    sites_make_a_graph::<P>();
    tasks_owe_their_parts::<P>();
}

/// Each core's tables have each key once, and its graph a site for each node.
pub fn cores_are_whole<P: Problem>(core: &Core<P>)
    ensures { IsWholeCore core.now }
{
    let _ = core.image.key_count();
    if let Some(loaded) = &core.loaded {
        let _ = loaded.graph.node_count();
    }
}

/// The image of a run has no more keys than its graph has room for.
pub fn images_have_room<P: Problem>()
    ensures { ImagesHaveRoom P.L.algebra P.F.edge P.targets }
{
    keys_stand_at_nodes::<P>();
    runs_are_sound::<P>();
    sites_make_a_graph::<P>();
}
