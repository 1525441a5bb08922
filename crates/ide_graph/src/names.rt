//! Lists of names that are looked up both ways.
ghost use Rattle.std.specs.Prelude.{◌≡◌, ◌+◌, ◌<◌, ◌≤◌, ◌++◌, [], length, slice_get, IfSome, IsSome, OnOk, ◌↔◌, IsOkUnless};
ghost use Rattle.std.specs.Option.{option_copied};
ghost use Rattle.std.specs.List.{position};
ghost use Rattle.ide_graph.specs.Naming.{AreNew, with_name};
ghost use Rattle.std.specs.Str.{bytes_eq};
ghost use Rattle.ide_wire.specs.declared.refused.Refused.TheVariants.{NoMemory};

use ide_text::Name;
use ide_wire::Refused;
use indexmap::IndexSet;
use std::alloc::Global;
use std::marker::Model;

/// Names in the order of their first declarations, each found by its index and by its bytes in
/// constant time. Contracts see the list of their bytes.
#[derive(Drop)]
pub(crate) struct Names {
    set: IndexSet<Vec<u8>>,
}

impl Model for Names {
    ghost use Rattle.std.specs.Prelude.{List, ℕ, map};

    ghost Value = { List (List ℕ) };

    ghost view = { λ n. map (λ v. v.items) n.set.keys };
}

impl Names {
    /// No names.
    pub fn new(alloc: Global) -> Names
        ensures { result ≡ [] }
    {
        Names {
            set: IndexSet::new(alloc),
        }
    }

    /// Adds each name that is not there yet.
    pub fn add_all(&mut self, alloc: Global, names: &[Name]) -> Result<(), Refused>
        ensures added { OnOk result (AreNew self.old names.now → self.new ≡ self.old ++ names.now) }
        ensures longer { OnOk result (length self.old ≤ length self.new) }
        ensures few { OnOk result (length self.new ≤ length self.old + length names.now) }
        ensures refused { IsOkUnless result NoMemory }
    {
        for name in names {
            self.add(alloc, name)?;
        }
        Ok(())
    }

    /// Adds a name, unless it is there.
    fn add(&mut self, alloc: Global, name: &Name) -> Result<(), Refused>
        ensures added { OnOk result (self.new ≡ with_name self.old name.now) }
        ensures longer { OnOk result (length self.old ≤ length self.new) }
        ensures few { OnOk result (length self.new ≤ length self.old + 1) }
        ensures refused { IsOkUnless result NoMemory }
    {
        self.set.insert(name.as_bytes().to_vec(alloc)?)?;
        Ok(())
    }

    /// How many names there are.
    pub fn len(&self) -> usize
        ensures len { result ≡ length self.now }
    {
        self.set.len()
    }

    /// The index of a name.
    pub fn index_of(&self, name: &[u8]) -> Option<usize>
        ensures value { result ≡ position (bytes_eq name.now) self.now }
        ensures within { IfSome result (λ index. index < length self.now) }
    {
        self.set.get_index_of(name)
    }

    /// The name at an index.
    pub fn get(&self, index: usize) -> Option<&[u8]>
        ensures value { option_copied result ≡ slice_get self.now index }
    {
        self.set.get_index(index).map(|name| name.as_slice())
    }
}
