//! The interprocedural supergraph of a program, after Sagiv, Reps and Horwitz (Precise
//! Interprocedural Dataflow Analysis with Applications to Constant Propagation, Theoretical
//! Computer Science 167, 1996): one start and one exit node for each procedure, a call node and a
//! return site for each call, and normal, call, return and call-to-return edges.
//!
//! [`Graph::of`] makes the graph of a program; [`Graph::site`] gives what stands at a node, with
//! the edges out of it. Edges are plain data, so that a flow function needs nothing but its edge.
#![tactic(auto)]

mod builder;
mod call;
mod directory;
mod edge;
mod edges;
mod globals;
mod graph;
mod laws;
mod layout;
mod names;
mod numbering;
mod scope;
mod shared_site;
mod site;
mod step;

pub use edge::{EdgeData, EdgeKind, Effect};
pub use edges::Edges;
pub use graph::Graph;
pub use laws::{
    along_edges_reach_the_return_site, back_edges_return, call_edges_enter, edges_are_lawful,
    ends_of_programs_are_nodes, exits_of_programs_are_owned,
    graphs_of_one_text_have_the_same_edges, graphs_of_programs_are_closed, nodes_have_one_site,
    normal_edges_stay_within, return_sites_follow_calls, sites_of_programs_are_joined,
};
pub use shared_site::SharedSite;
pub use site::{Caller, Site};
