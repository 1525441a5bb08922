//! Laws of the edges of a program. The functions do nothing: their clauses are the laws.
ghost use Rattle.ide_graph.specs.Closed.{GraphsOfProgramsAreClosed};
ghost use Rattle.ide_graph.specs.Ends.{EndsOfProgramsAreNodes};
ghost use Rattle.ide_graph.specs.Exits.{ExitsOfProgramsAreOwned};
ghost use Rattle.ide_graph.specs.Joined.{SitesOfProgramsAreJoined};
ghost use Rattle.ide_graph.specs.SameGraphs.{GraphsOfOneTextAreSame};
ghost use Rattle.ide_graph.specs.EdgeLaws.{AlongEdgesReachTheReturnSite, BackEdgesReturn, CallEdgesEnter, EdgesAreLawful, NodesHaveOneSite, NormalEdgesStayWithin, ReturnSitesFollowCalls};

use ide_text::spell_one_program;

/// A normal edge stays in its procedure, and does not end at the start.
pub fn normal_edges_stay_within()
    ensures { NormalEdgesStayWithin }
{}

/// A call-to-return edge stays in its procedure, and ends at the return site.
pub fn along_edges_reach_the_return_site()
    ensures { AlongEdgesReachTheReturnSite }
{}

/// A call edge ends at the start of the callee.
pub fn call_edges_enter()
    ensures { CallEdgesEnter }
{}

/// A return edge leaves the exit of the callee, and comes to the call's return site.
pub fn back_edges_return()
    ensures { BackEdgesReturn }
{}

/// The node before a return site is its call node.
pub fn return_sites_follow_calls()
    ensures { ReturnSitesFollowCalls }
{}

/// The edges of a program are as a flow function may rely on.
pub fn edges_are_lawful()
    ensures { EdgesAreLawful }
{}

/// A node has one site.
pub fn nodes_have_one_site()
    ensures { NodesHaveOneSite }
{}

/// The sites of a program's graph fit together: edges stay in their procedures or lead to callees,
/// and the exits of these know them.
pub fn sites_of_programs_are_joined()
    ensures { SitesOfProgramsAreJoined }
{}

/// A program's graph is closed: each node has a site and a procedure, each procedure a start of its
/// own, and calls end at nodes.
pub fn graphs_of_programs_are_closed()
    ensures { GraphsOfProgramsAreClosed }
{}

/// Each exit of a program's graph is that of its node's procedure, and its callers can be counted.
pub fn exits_of_programs_are_owned()
    ensures { ExitsOfProgramsAreOwned }
{}

/// The edges of a program's graph end at its nodes, and its procedures begin at them.
pub fn ends_of_programs_are_nodes()
    ensures { EndsOfProgramsAreNodes }
{}

/// Two graphs of one text are the same: their nodes, facts, procedures, names and sites.
pub fn graphs_of_one_text_have_the_same_edges()
    ensures { GraphsOfOneTextAreSame }
{
    spell_one_program();
}
