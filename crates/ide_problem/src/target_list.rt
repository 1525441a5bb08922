//! The list that a flow function fills.
ghost use Rattle.std.specs.Prelude.{◌≡◌, [], ◌∷◌, ◌++◌, OnOk, OnErr};

use ide_lattice::EdgeFn;
use ide_wire::Fact;
use std::alloc::{AllocError, Global};

/// The targets of one fact over one edge, each with the function that its value depends by.
/// Callers keep one list and clear it between facts, so that its room is taken once.
#[derive(Drop)]
pub struct TargetList<F: EdgeFn> {
    pub list: Vec<(Fact, F)>,
}

impl<F: EdgeFn> TargetList<F> {
    /// An empty list.
    pub fn new(alloc: Global) -> TargetList<F>
        ensures { result.list.items ≡ [] }
    {
        TargetList {
            list: Vec::new(alloc),
        }
    }

    /// Puts one more target at the end. At an error the list is empty.
    #[inline(always)]
    pub fn add(&mut self, fact: Fact, function: F) -> Result<(), AllocError>
        ensures ok { OnOk result (self.new.list.items ≡ self.old.list.items ++ (fact, function) ∷ []) }
        ensures err { OnErr result (self.new.list.items ≡ []) }
    {
        match self.list.push((fact, function)) {
            Ok(()) => Ok(()),
            Err(_) => {
                self.list.clear();
                Err(AllocError)
            }
        }
    }

    /// Empties the list and keeps its room.
    pub fn clear(&mut self)
        ensures { self.new.list.items ≡ [] }
    {
        self.list.clear();
    }
}
