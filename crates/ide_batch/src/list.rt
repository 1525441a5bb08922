//! Lists of things with forms, and whether items ascend.
ghost use Rattle.std.specs.Prelude.{◌≡◌, ℕ, ◌++◌, List, length, map, IsTrue, ◌↔◌};
ghost use Rattle.std.specs.List.{flat_map};
ghost use Rattle.std.specs.List.Sorted.{IsStrictlySortedBy};
ghost use Rattle.ide_batch.specs.Forms.{IfNotRead, IfRead, NoListInFront, all_proper};
ghost use Rattle.ide_wire.specs.KeyOrder.{key_cmp};

use crate::coded::Coded;
use ide_wire::Key;
use std::alloc::{AllocError, Global};
use std::cmp::Ordering;

/// So many things in front of the bytes, and the bytes after them.
pub(crate) fn list_in_front<T: Coded>(
    alloc: Global,
    count: usize,
    bytes: &[u8],
) -> Result<Option<(Vec<T>, &[u8])>, AllocError>
    ensures counted { IfRead result (λ front. length front.0.items ≡ count) }
    ensures proper { IfRead result (λ front. IsTrue (all_proper T.proper front.0.items)) }
    ensures found { IfRead result (λ front. bytes.now ≡ flat_map T.form front.0.items ++ front.1.now) }
    ensures none { IfNotRead result (NoListInFront T.proper T.form count bytes.now) }
{
    let mut list = Vec::new(alloc);
    let mut rest = bytes;
    for _taken in 0..count {
        let Some((item, behind)) = T::front(rest) else {
            return Ok(None);
        };
        list.push(item)?;
        rest = behind;
    }
    Ok(Some((list, rest)))
}

/// Whether the first key stands before the second.
fn is_below(first: Key, second: Key) -> bool
    ensures { IsTrue result ↔ (key_cmp first second ≡ Ordering.Less) }
{
    first.cmp(&second) == Ordering::Less
}

/// Whether each item's key is above that of the item before.
pub(crate) fn are_ascending<F: Copy>(items: &[(Key, F, bool)]) -> bool
    ensures { IsTrue result ↔ IsStrictlySortedBy key_cmp (map (λ item. item.0) items.now) }
{
    for next in 1..items.len() {
        let before = items[next - 1];
        let item = items[next];
        if !is_below(before.0, item.0) {
            return false;
        }
    }
    true
}
