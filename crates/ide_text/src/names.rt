//! Names that were declared, each found in constant time.
ghost use Rattle.std.specs.Prelude.{◌≡◌, ◌++◌, ◌∷◌, [], IfOk, IfNone, not, true};
ghost use Rattle.ide_text.specs.Names.{is_among, IsFirstRepeated};

use crate::name::Name;
use indexmap::IndexSet;
use std::alloc::{AllocError, Global};
use std::marker::Model;

/// Names that were declared. Contracts see the list of their bytes.
#[derive(Drop)]
pub(crate) struct Names<'p> {
    set: IndexSet<&'p [u8]>,
}

impl<'p> Model for Names<'p> {
    ghost use Rattle.std.specs.Prelude.{List, ℕ, map};

    ghost Value = { List (List ℕ) };

    ghost view = { λ n. map (λ name. name.now) n.set.keys };
}

impl<'p> Names<'p> {
    /// No names.
    pub(crate) fn new(alloc: Global) -> Names<'p>
        ensures { result ≡ [] }
    {
        Names {
            set: IndexSet::new(alloc),
        }
    }

    /// Whether the name is one of them.
    pub(crate) fn has(&self, name: &Name) -> bool
        ensures { result ≡ is_among self.now name.now }
    {
        self.set.contains(name.as_bytes())
    }

    /// Adds the name, unless it is one of them; answers whether it was none.
    fn add(&mut self, name: &'p Name) -> Result<bool, AllocError>
        ensures new { IfOk result (λ new. new ≡ not (is_among self.old name.now)) }
        ensures added { IfOk result (λ new. new ≡ true → self.new ≡ self.old ++ name.now ∷ []) }
    {
        Ok(self.set.insert(name.as_bytes())?)
    }

    /// Adds these names up to the first that is one of them already, or one of the taken ones, or
    /// stands twice; answers its place.
    pub(crate) fn declare(
        &mut self,
        taken: &Names<'_>,
        names: &'p [Name],
    ) -> Result<Option<usize>, AllocError>
        ensures first { IfOk result (IsFirstRepeated (taken.now ++ self.old) names.now) }
        ensures added { IfOk result (λ first. IfNone first (self.new ≡ self.old ++ names.now)) }
    {
        for (place, name) in names.iter().enumerate() {
            if taken.has(name) || !self.add(name)? {
                return Ok(Some(place));
            }
        }
        Ok(None)
    }
}
