//! Where a procedure stands among the nodes, and what its own facts are called.
ghost use Rattle.std.specs.Prelude.{◌≡◌, ◌≤◌, length, IfOk, SomeIff, ◌+◌, IsOkUnless};
ghost use Rattle.ide_graph.specs.Numbering.{IsLayout};
ghost use Rattle.ide_wire.specs.declared.refused.Refused.TheVariants.{NoMemory};

use crate::names::Names;
use ide_text::Procedure;
use ide_wire::{Node, Refused};
use std::alloc::Global;

/// A procedure in the graph: its first and its last node, and the names of its own facts, the
/// parameters first and then the locals.
#[derive(Drop)]
pub(crate) struct Layout {
    pub start: Node,
    pub exit: Node,
    pub parameter_count: usize,
    pub own: Names,
}

impl Layout {
    /// The layout of a procedure that stands from `start` to `exit`.
    pub fn of(
        alloc: Global,
        start: Node,
        exit: Node,
        procedure: &Procedure,
    ) -> Result<Layout, Refused>
        ensures layout { IfOk result (IsLayout start exit procedure.now) }
        ensures parameters { IfOk result (λ layout. layout.parameter_count ≤ length layout.own) }
        ensures refused { IsOkUnless result NoMemory }
    {
        let mut own = Names::new(alloc);
        own.add_all(alloc, &procedure.parameters)?;
        let parameter_count = own.len();
        own.add_all(alloc, &procedure.locals)?;
        Ok(Layout {
            start,
            exit,
            parameter_count,
            own,
        })
    }

    /// The node at a position, where the procedure has it.
    pub fn node_at(&self, position: u32) -> Option<Node>
        ensures { SomeIff result (self.now.start + position ≤ self.now.exit) (self.now.start + position) }
    {
        let exit = self.exit;
        match self.start.checked_add(position) {
            Some(node) if node <= exit => Some(node),
            _ => None,
        }
    }
}
