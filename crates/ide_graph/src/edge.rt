//! Edges of the supergraph, as plain data that carry all that a flow function needs.
ghost use Rattle.std.specs.Prelude.{◌≡◌, ◌+◌, ◌↔◌, IsTrue};

use ide_wire::{Fact, Listing, Node};

/// An edge: where it ends, how the program's facts are numbered, and what it is.
///
/// Facts are numbered so: 0 is `@zero`, the globals are 1 and on, then comes `@result`, then the
/// parameters and locals of the procedure.
#[derive(PartialEq, Eq, Drop)]
pub struct EdgeData {
    pub end: Node,
    /// The fact `@result`: the facts below it are `@zero` and the globals.
    pub result: Fact,
    /// How many facts the program has.
    pub facts: u32,
    pub kind: EdgeKind,
}

impl EdgeData {
    /// Whether it ends at the node behind this one.
    #[inline(always)]
    pub fn leads_behind(&self, node: Node) -> bool
        ensures { IsTrue result ↔ (self.now.end ≡ node + 1) }
    {
        self.end > node && self.end - node == 1
    }
}

/// The four kinds of edges, each with what its flow depends on.
#[derive(PartialEq, Eq, Drop)]
pub enum EdgeKind {
    /// Within a procedure, by one statement.
    Normal(Effect),
    /// From a call node to a callee's start: each argument with the parameter that it goes to.
    Call(Listing<(Fact, Fact)>),
    /// From a callee's exit to the return site, with the fact that the call assigns, if any.
    Return(Option<Fact>),
    /// From a call node to its return site, with the fact that the call assigns, if any.
    CallToReturn(Option<Fact>),
}

/// What a statement does to the facts of its procedure.
#[derive(Clone, Copy, PartialEq, Eq, Debug)]
pub enum Effect {
    /// Nothing changes.
    Nothing,
    /// `target = number`
    Number {
        target: Fact,
        number: u64,
    },
    /// `target = source`
    Copy {
        target: Fact,
        source: Fact,
    },
    /// `target = source + number`, modulo 2^64
    Sum {
        target: Fact,
        source: Fact,
        number: u64,
    },
    /// `target = source - number`, modulo 2^64
    Difference {
        target: Fact,
        source: Fact,
        number: u64,
    },
    /// `target = ?`
    Unknown {
        target: Fact,
    },
    /// `target = mix first second`
    Mix {
        target: Fact,
        first: Fact,
        second: Fact,
    },
    /// A procedure's start: `@result` and the locals, the facts from `first` to before `end`, get
    /// what they hold at entry.
    Enter {
        first: Fact,
        end: Fact,
    },
}
