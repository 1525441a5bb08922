//! The body of a batch, in the version of its store.
ghost use Rattle.ide_batch.specs.Bodies.{AreSpelled, SpellsNone};
ghost use Rattle.ide_batch.specs.Forms.{IfNotRead, IfRead};

use crate::groups::read_groups;
use crate::items::read_items;
use crate::spelled::Spelled;
use ide_journal::Version;
use ide_lattice::EdgeFn;
use ide_wire::Key;
use std::alloc::{AllocError, Global};

/// The items that the body spells in that version, if it spells any.
pub(crate) fn read_body<F: EdgeFn>(
    alloc: Global,
    version: Version,
    body: &[u8],
) -> Result<Option<Vec<(Key, F, bool)>>, AllocError>
    ensures items { IfRead result (λ items. AreSpelled ⟦<F as Spelled>⟧.forms version items.items body.now) }
    ensures none { IfNotRead result (SpellsNone ⟦<F as Spelled>⟧.forms version body.now) }
{
    match version {
        Version::One => read_items(alloc, body),
        Version::Two => read_groups(alloc, body),
    }
}
