//! The inverse of a call's flow.
ghost use Rattle.std.specs.Prelude.{◌≡◌, [], None};
ghost use Rattle.ide_steps.specs.Lent.{AreLent, FactsAscend};

use crate::machine::Core;
use ide_graph::edges_are_lawful;
use ide_problem::Problem;
use ide_tasks::LentSources;
use ide_wire::{Fact, Node};

impl<P: Problem> Core<P> {
    /// The facts at a call node from which the call edge to the procedure that begins at `start`
    /// reaches `fact` there, ascending, each once and with the function on the edge: the inverse of
    /// the call's flow. There are none where the node is no call of a procedure that begins at
    /// `start`, or no program is loaded. They are lent: it takes logarithmic time and no memory.
    pub fn sources(&self, call: Node, start: Node, fact: Fact) -> LentSources<'_, P::F>
        ensures exact { AreLent P.targets self.now call start fact result }
        ensures once { FactsAscend result }
        ensures none { self.now.graph ≡ None → result ≡ [] }
    {
        edges_are_lawful();
        let Some(loaded) = &self.loaded else {
            return LentSources::none();
        };
        loaded.sources.over_call(&loaded.graph, call, start, fact)
    }
}
