//! Laws of values and their dump. The functions do nothing: their clauses are the laws.
ghost use Rattle.ide_values.specs.Best.{DumpsOfBestAreBest, FollowingValuesAreBest};

use ide_graph::{graphs_of_programs_are_closed, sites_of_programs_are_joined};
use ide_problem::Problem;
use ide_theory::{runs_are_best, runs_are_sound, sites_make_a_graph};

/// Values that follow from start values over the graph of a program are best, where a run came to
/// the tables that they follow from, nothing waits and the roots have their identities.
pub fn following_values_are_best<P: Problem>()
    ensures { FollowingValuesAreBest P.L.algebra P.F.edge P.targets }
{
    runs_are_best::<P>();
    runs_are_sound::<P>();
    sites_make_a_graph::<P>();
    sites_of_programs_are_joined();
    graphs_of_programs_are_closed();
}

/// The dump of such values shows the best value of each fact at each node.
pub fn dumps_of_best_are_best<P: Problem>()
    ensures { DumpsOfBestAreBest P.L.algebra P.F.edge P.targets }
{}
