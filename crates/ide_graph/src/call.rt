//! A call statement, with its names looked up.
ghost use Rattle.std.specs.Prelude.{◌≡◌, ◌+◌, ◌<◌, ◌^◌};

use crate::scope::Scope;
use ide_text::Name;
use ide_wire::{Fact, Node};

/// A call: its node, what its names stand for, and the procedures that it may call, each once in
/// ascending order.
#[derive(Drop)]
pub(crate) struct Call<'a, 'p> {
    pub node: Node,
    pub scope: Scope<'a, 'p>,
    /// The fact that the call assigns, if any.
    pub target: Option<Fact>,
    pub callees: Vec<usize>,
    pub arguments: &'p [Name],
}

impl Call<'_, '_> {
    /// The node that the call returns to. Its saturation is never met: the call's procedure has an
    /// exit past it.
    pub fn return_site(&self) -> Node
        ensures { self.now.node + 1 < 2 ^ 32 → result ≡ self.now.node + 1 }
    {
        self.node.saturating_add(1)
    }
}
