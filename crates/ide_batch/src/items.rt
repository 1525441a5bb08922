//! The body of a batch in the first version of a store: how many items, then each.
ghost use Rattle.ide_batch.specs.Bodies.{SpellsNone};
ghost use Rattle.ide_batch.specs.Items.{IsListBody};
ghost use Rattle.ide_batch.specs.Forms.{IfNotRead, IfRead};
ghost use Rattle.ide_journal.specs.declared.version.Version.TheVariants.{One};

use crate::coded::front_of;
use crate::list::{are_ascending, list_in_front};
use crate::spelled::Spelled;
use ide_lattice::EdgeFn;
use ide_wire::Key;
use std::alloc::{AllocError, Global};

/// The most items of a batch.
pub const MOST: usize = 65_536;

/// The items that the body spells, if it spells any.
pub(crate) fn read_items<F: EdgeFn>(
    alloc: Global,
    body: &[u8],
) -> Result<Option<Vec<(Key, F, bool)>>, AllocError>
    ensures items { IfRead result (λ items. IsListBody ⟦<F as Spelled>⟧.forms items.items body.now) }
    ensures none { IfNotRead result (SpellsNone ⟦<F as Spelled>⟧.forms One body.now) }
{
    let Some((count, rest)) = front_of::<u32>(body) else {
        return Ok(None);
    };
    if count as usize > MOST {
        return Ok(None);
    }
    let Some((items, rest)) = list_in_front::<(Key, F, bool)>(alloc, count as usize, rest)? else {
        return Ok(None);
    };
    if !rest.is_empty() {
        return Ok(None);
    }
    if items.is_empty() {
        return Ok(None);
    }
    if !are_ascending(items.as_slice()) {
        return Ok(None);
    }
    Ok(Some(items))
}
