//! A loaded program, shared by the core and what it hands out.
ghost use Rattle.std.specs.Prelude.{◌≡◌, IfOk, IsOkUnless};
ghost use Rattle.ide_graph.specs.GraphOf.{IsGraphOf};
ghost use Rattle.ide_graph.specs.ProgramEdges.{HasEdgesOf};
ghost use Rattle.ide_steps.specs.ProgramText.{said_by};
ghost use Rattle.ide_tasks.specs.Sources.{AreSourcesOf};
ghost use Rattle.ide_text.specs.Program.{text_of, value_of};
ghost use Rattle.ide_theory.specs.Within.{is_call};

use crate::program_text::ProgramText;
use ide_graph::{Graph, Site};
use ide_problem::Problem;
use ide_tasks::Sources;
use ide_text::Program;
use ide_wire::Refused;
use std::alloc::Global;

/// A program with its supergraph and the inverse of its call flow. It never changes. Neither steps
/// nor values have a use of the program's statements, so that its text stands here.
#[derive(Drop)]
pub struct Loaded<P: Problem> {
    pub program: ProgramText,
    pub graph: Graph,
    pub sources: Sources<P>,
}

impl<P: Problem> Loaded<P> {
    /// The program with this text, ready to be solved. The text is kept, and the program dropped.
    pub(crate) fn of(alloc: Global, program: Program, text: Vec<u8>) -> Result<Loaded<P>, Refused>
        requires { text_of program ≡ text.items }
        ensures program { IfOk result (λ loaded. said_by loaded.program ≡ value_of program) }
        ensures graph { IfOk result (λ loaded. IsGraphOf program loaded.graph) }
        ensures edges { IfOk result (λ loaded. HasEdgesOf program loaded.graph) }
        ensures sources { IfOk result (λ loaded. AreSourcesOf P.targets loaded.graph loaded.sources) }
        ensures refused { IsOkUnless result Refused.NoMemory }
    {
        let graph = Graph::of(alloc, &program)?;
        let text = ProgramText::of(text, &program);
        drop(program);
        let sources = Sources::of(alloc, &graph)?;
        Ok(Loaded {
            program: text,
            graph,
            sources,
        })
    }
}

/// Whether it is the site of a call node.
pub(crate) fn is_call(site: &Site) -> bool
    ensures { result ≡ is_call site.now }
{
    matches!(site, Site::Call { .. })
}
