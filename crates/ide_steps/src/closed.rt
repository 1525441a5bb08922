//! A quiet image, frozen.
ghost use Rattle.std.specs.Prelude.{◌≡◌, [], Some, IfErr, IfOk};
ghost use Rattle.ide_steps.specs.CloseRefusal.{CloseFault, IsFreezeRefusal};
ghost use Rattle.ide_steps.specs.Frozen.{graph_in, program_in};

use crate::loaded::Loaded;
use crate::machine::Core;
use ide_image::Tables;
use ide_problem::Problem;
use ide_wire::Refused;
use std::sync::Arc;

/// What a core held when no key was pending: the program, its roots and the tables.
#[derive(Drop)]
pub struct Closed<P: Problem> {
    pub loaded: Arc<Loaded<P>>,
    /// The roots, as indices of procedures, in the order in which they were made.
    pub roots: Vec<usize>,
    pub tables: Tables<P::F>,
}

impl<P: Problem> Core<P> {
    /// The image as it stands, copied; the core goes on.
    ///
    /// Refusals, in this order: `NoProgram`; `Unfinished` where some key is pending; `NoMemory`.
    pub fn freeze(&self) -> Result<Closed<P>, Refused>
        ensures refused { IfErr result (IsFreezeRefusal self.now) }
        ensures program { IfOk result (λ closed. self.now.program ≡ Some (program_in closed)) }
        ensures graph { IfOk result (λ closed. self.now.graph ≡ Some (graph_in closed)) }
        ensures table { IfOk result (λ closed. closed.tables.table ≡ self.now.table) }
        ensures roots { IfOk result (λ closed. closed.roots.items ≡ self.now.roots) }
        ensures quiet { IfOk result (λ _. self.now.pile.pending ≡ []) }
    {
        let Some(loaded) = &self.loaded else {
            return Err(Refused::NoProgram);
        };
        if !self.is_quiet() {
            return Err(Refused::Unfinished);
        }
        Ok(Closed {
            loaded: Arc::try_clone(loaded)?,
            roots: Vec::from_slice(self.alloc, self.roots.as_slice())?,
            tables: self.image.copy_tables(self.alloc)?,
        })
    }

    /// The image as it stands, with no copy. Where it is refused, the core comes back.
    ///
    /// Refusals, in this order: `NoProgram`; `Unfinished` where some key is pending.
    pub fn close(self) -> Result<Closed<P>, (Refused, Core<P>)>
        ensures program { IfOk result (λ closed. self.program ≡ Some (program_in closed)) }
        ensures graph { IfOk result (λ closed. self.graph ≡ Some (graph_in closed)) }
        ensures table { IfOk result (λ closed. closed.tables.table ≡ self.table) }
        ensures roots { IfOk result (λ closed. closed.roots.items ≡ self.roots) }
        ensures quiet { IfOk result (λ _. self.pile.pending ≡ []) }
        ensures refused { IfErr result (λ e. CloseFault self e.0) }
        ensures unchanged { IfErr result (λ e. e.1 ≡ self) }
    {
        if self.loaded.is_none() {
            return Err((Refused::NoProgram, self));
        }
        if !self.is_quiet() {
            return Err((Refused::Unfinished, self));
        }
        let Core {
            alloc,
            loaded,
            roots,
            image,
        } = self;
        match loaded {
            Some(loaded) => Ok(Closed {
                loaded,
                roots,
                tables: image.into_tables(),
            }),
            None => Err((
                Refused::NoProgram,
                Core {
                    alloc,
                    loaded: None,
                    roots,
                    image,
                },
            )),
        }
    }
}
