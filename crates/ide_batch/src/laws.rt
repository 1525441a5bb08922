//! Laws of bodies and of the fold. The functions do nothing: their clauses are the laws.
ghost use Rattle.ide_batch.specs.Applied.{NewCoresAreEmpty};
ghost use Rattle.ide_batch.specs.Fold.{BatchesLead};
ghost use Rattle.ide_batch.specs.Grouping.{GroupsSpellLists};
ghost use Rattle.ide_batch.specs.Laws.{BodiesAreApart};

use crate::spelled::Spelled;
use ide_lattice::EdgeFn;

/// No two records share a body, and nothing that follows a body changes what it spells.
pub fn bodies_are_apart<F: EdgeFn>()
    ensures { BodiesAreApart ⟦<F as Spelled>⟧.forms }
{}

/// Each batch that the first version spells has a body in the second too.
pub fn groups_spell_lists<F: EdgeFn>()
    ensures { GroupsSpellLists ⟦<F as Spelled>⟧.forms }
{}

/// A batch that tells how an image changed gives the image as it is now, over the one of before.
pub fn batches_lead<F: EdgeFn>()
    ensures { BatchesLead F }
{}

/// A core that is new has the empty image, from which every fold begins.
pub fn new_cores_are_empty<F: EdgeFn>()
    ensures { NewCoresAreEmpty F }
{}
