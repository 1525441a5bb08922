//! What an answer of the solver means, and that a quiet image gives it.
//!
//! An interprocedural distributive environment problem (Sagiv, Reps and Horwitz, Theoretical
//! Computer Science 167, 1996) asks, for each node and fact, for the greatest value below the
//! effect of every valid path from a root. The crate has no code: its definitions say what paths,
//! effects, best values, rule instances, claims and runs are, over any supergraph and any lawful
//! lattice and edge functions, and the functions below do nothing but carry the theorems as their
//! contracts, for every analysis.
#![tactic(auto)]

ghost use Rattle.ide_theory.specs.Theorem.{ValuesAreBest, RunsAreBest, BestIsUnique, TopIsBest, PartsAreOwed, PartsInRangeAreOwed, RunsAreSound, RunsGoOn, ReleasedRunsAreRuns, StartsAreSeeded, ClaimsArePaid, LoweringsAreFew, WaysAreImageSteps, RootsAreWays, SitesMakeAGraph, GraphsAreSupergraphs, KeysStandAtNodes};

use ide_graph::{edges_are_lawful, sites_of_programs_are_joined};
use ide_problem::Problem;

/// Values that follow from a quiet image, in which the roots have their identities, are best.
pub fn values_are_best<P: Problem>()
    ensures { ValuesAreBest P.L.algebra P.F.edge P.targets }
{}

/// Values that follow from the end of a run are best, whatever hands took part, in whatever order.
pub fn runs_are_best<P: Problem>()
    ensures { RunsAreBest P.L.algebra P.F.edge P.targets }
{}

/// A node and a fact have no two best values.
pub fn best_is_unique<P: Problem>()
    ensures { BestIsUnique P.L.algebra P.F.edge P.targets }
{}

/// Top is best where no valid path leads.
pub fn top_is_best<P: Problem>()
    ensures { TopIsBest P.L.algebra P.F.edge P.targets }
{}

/// The parts of a key, listed by edge, partner and target, are what a claim of it owes: what each
/// rule instance with the key gives, and nothing else.
pub fn parts_are_owed<P: Problem>()
    ensures { PartsAreOwed P.L.algebra P.F.edge P.targets }
{}

/// The same in any image whose keys have their facts in range.
pub fn parts_in_range_are_owed<P: Problem>()
    ensures { PartsInRangeAreOwed P.L.algebra P.F.edge P.targets }
{}

/// Each state that a run comes to keeps the invariant; its keys and parts have their facts in range,
/// its functions are proper, what waits is present, and what is claimed waits.
pub fn runs_are_sound<P: Problem>()
    ensures { RunsAreSound P.L.algebra P.F.edge P.targets }
{}

/// Steps from the end of a run are a run, and what was received stays so.
pub fn runs_go_on<P: Problem>()
    ensures { RunsGoOn P.L.algebra P.F.edge P.targets }
{}

/// A run stays one where every hand gives back its claim, as at a stop.
pub fn released_runs_are_runs<P: Problem>()
    ensures { ReleasedRunsAreRuns P.L.algebra P.F.edge P.targets }
{}

/// Where a jump is present, the start of its procedure has received the identity of the jump's first
/// fact: a call gave it, or a root.
pub fn starts_are_seeded<P: Problem>()
    ensures { StartsAreSeeded P.L.algebra P.F.edge P.targets }
{}

/// Each claim is paid by a key that waits no more, by a lowering, by a claim that was given back, or by
/// the entry of a root.
pub fn claims_are_paid<P: Problem>()
    ensures { ClaimsArePaid P.L.algebra P.F.edge P.targets }
{}

/// Each lowering is paid by a rank that the function of a key lost, and so is each entry of a root,
/// where the identity is not always-top.
pub fn lowerings_are_few<P: Problem>()
    ensures { LoweringsAreFew P.L.algebra P.F.edge P.targets }
{}

/// What hands do is the parts and the ends of claims, to an image of any program.
pub fn ways_are_image_steps<P: Problem, Program, Name>()
    ensures { WaysAreImageSteps P.L.algebra P.F.edge P.targets Program Name }
{}

/// To set a root is to make the identity of each entry at its start that is absent, one after the other.
pub fn roots_are_ways<P: Problem, Program, Name>()
    ensures { RootsAreWays P.L.algebra P.F.edge P.targets Program Name }
{}

/// Sites of which each edge along a procedure stays in it, each call leads to a start whose exit has
/// it among its callers, and each caller is a call that returns where its site says, make a
/// supergraph; and what stands at its nodes is what the sites have.
pub fn sites_make_a_graph<P: Problem>()
    ensures { SitesMakeAGraph P.L.algebra P.F.edge P.targets }
{}

/// The graph of a program whose text has no fault is such a supergraph: its edges are as a flow may
/// rely on, its sites fit together, and what stands at its nodes is what the sites have.
pub fn graphs_are_supergraphs<P: Problem>()
    ensures { GraphsAreSupergraphs P.L.algebra P.F.edge P.targets }
{
    edges_are_lawful();
    sites_of_programs_are_joined();
    sites_make_a_graph::<P>();
}

/// The keys and the parts of a run stand at the nodes of its graph, and summaries at its call nodes,
/// where edges end at nodes.
pub fn keys_stand_at_nodes<P: Problem>()
    ensures { KeysStandAtNodes P.L.algebra P.F.edge P.targets }
{}
