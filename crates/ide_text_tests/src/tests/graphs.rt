//! Graphs of texts.
use super::texts::given;
use ide_graph::Graph;
use ide_text::{Program, parse};
use std::process::Abort;

/// The program that a text spells.
pub(crate) fn program_of(rt: &(impl Abort + AllocGlobal), text: &[u8]) -> Program {
    given(rt, parse(rt.alloc(), text))
}

/// The graph of the program that a text spells.
pub(crate) fn graph_of(rt: &(impl Abort + AllocGlobal), text: &str) -> Graph {
    let program = program_of(rt, text.as_bytes());
    given(rt, Graph::of(rt.alloc(), &program))
}
