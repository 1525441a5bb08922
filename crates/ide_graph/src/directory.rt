//! The names of a program's procedures.
ghost use Rattle.std.specs.Prelude.{◌≡◌, ◌<◌, length, IfOk, IfSome, OnOk, IsOkUnless};
ghost use Rattle.ide_graph.specs.Found.{FindsEach};
ghost use Rattle.ide_graph.specs.Named.{procedure_of_name};
ghost use Rattle.ide_text.specs.Places.{with_place};
ghost use Rattle.ide_wire.specs.declared.refused.Refused.TheVariants.{NoMemory};

use ide_text::Procedure;
use ide_wire::Refused;
use indexmap::IndexMap;
use std::alloc::Global;
use std::marker::Model;

/// The procedures of a program by their names, each found in constant time. Contracts see how
/// many procedures there are, and the names with their procedures.
#[derive(Drop)]
pub(crate) struct Directory {
    indices: IndexMap<Vec<u8>, usize>,
    procedure_count: usize,
}

impl Model for Directory {
    ghost use Rattle.std.specs.Prelude.{ℕ, ◌<◌, map};
    ghost use Rattle.std.specs.List.{All};
    ghost use Rattle.std.specs.Map.{values_of};
    ghost use Rattle.ide_graph.specs.Named.{Named};

    ghost Value = { Named };

    ghost view = { λ d. record { count = d.procedure_count; procedures = map (λ e. (e.0.items, e.1)) d.indices.entries } };

    ghost invariant = { λ d. All (λ index. index < d.procedure_count) (values_of d.indices.entries) };
}

impl Directory {
    /// The names of these procedures. Of two with one name it has the first.
    pub fn of(alloc: Global, procedures: &[Procedure]) -> Result<Directory, Refused>
        ensures named { IfOk result (λ directory. FindsEach procedures.now directory.procedures) }
        ensures counted { IfOk result (λ directory. directory.count ≡ length procedures.now) }
        ensures refused { IsOkUnless result NoMemory }
    {
        let mut directory = Directory {
            indices: IndexMap::with_capacity(alloc, procedures.len())?,
            procedure_count: procedures.len(),
        };
        for (index, procedure) in procedures.iter().enumerate() {
            directory.add(alloc, procedure.name.as_bytes(), index)?;
        }
        Ok(directory)
    }

    /// The index of the procedure of that name.
    pub fn find(&self, name: &[u8]) -> Option<usize>
        ensures value { result ≡ procedure_of_name self.now.procedures name.now }
        ensures within { IfSome result (λ index. index < self.now.count) }
    {
        self.indices.get(name).copied()
    }

    /// Gives a name its procedure, unless it has one.
    fn add(&mut self, alloc: Global, name: &[u8], index: usize) -> Result<(), Refused>
        requires { index < self.old.count }
        ensures added { OnOk result (self.new.procedures ≡ with_place self.old.procedures name.now index) }
        ensures counted { self.new.count ≡ self.old.count }
        ensures refused { IsOkUnless result NoMemory }
    {
        if !self.indices.contains_key(name) {
            self.indices.insert(name.to_vec(alloc)?, index)?;
        }
        Ok(())
    }
}
