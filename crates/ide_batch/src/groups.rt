//! The body of a batch in the second version of a store: how many groups, then each, with the items
//! of one node and kind.
ghost use Rattle.std.specs.Prelude.{◌≡◌, ℕ, ◌++◌, ◌≤◌, ◌↔◌, length, IfSome, IfNone, IsTrue};
ghost use Rattle.ide_batch.specs.Bodies.{SpellsNone};
ghost use Rattle.ide_batch.specs.Forms.{IfNotRead, IfRead};
ghost use Rattle.ide_batch.specs.Groups.{IsGroupedBody, key_of_kind};
ghost use Rattle.ide_batch.specs.GroupsRead.{GroupInFront, IsAbove, Listed, NoGroup, NoGroups, NoMembers, ReadsGroups, header_form, is_proper_header};
ghost use Rattle.ide_journal.specs.declared.version.Version.TheVariants.{Two};
ghost use Rattle.ide_wire.specs.Form.{NoFormInFront};

use crate::coded::{Coded, front_of};
use crate::items::MOST;
use crate::spelled::Spelled;
use ide_lattice::EdgeFn;
use ide_wire::{Fact, Key, Node};
use std::alloc::{AllocError, Global};
use std::cmp::Ordering;

/// The fewest bytes of a member: those of two facts, one of a function, and one that says whether it is pending.
const LEAST: usize = 6;

/// The items that the body spells in groups, if it spells any. They go onto one vector, with room for as many as
/// so many bytes may spell: no count reserves room for what may not be there.
pub(crate) fn read_groups<F: EdgeFn>(
    alloc: Global,
    body: &[u8],
) -> Result<Option<Vec<(Key, F, bool)>>, AllocError>
    ensures items { IfRead result (λ items. IsGroupedBody ⟦<F as Spelled>⟧.forms items.items body.now) }
    ensures none { IfNotRead result (SpellsNone ⟦<F as Spelled>⟧.forms Two body.now) }
{
    let Some((count, rest)) = front_of::<u32>(body) else {
        return Ok(None);
    };
    if count == 0 {
        return Ok(None);
    }
    let Some((items, behind)) = groups_in_front::<F>(alloc, count, rest)? else {
        return Ok(None);
    };
    if !behind.is_empty() {
        return Ok(None);
    }
    Ok(Some(items))
}

/// The items of so many groups in front of the bytes, and the bytes after them.
fn groups_in_front<F: EdgeFn>(
    alloc: Global,
    count: u32,
    bytes: &[u8],
) -> Result<Option<(Vec<(Key, F, bool)>, &[u8])>, AllocError>
    ensures read { IfRead result (λ got. ReadsGroups ⟦<F as Spelled>⟧.forms count got.0.items bytes.now got.1.now) }
    ensures none { IfNotRead result (NoGroups ⟦<F as Spelled>⟧.forms count bytes.now) }
{
    let mut items = Vec::with_capacity(alloc, MOST.min(bytes.len() / LEAST))?;
    let mut before = None;
    let mut rest = bytes;
    for _taken in 0..count {
        let Some((place, behind)) = group_in_front::<F>(before, &mut items, rest)? else {
            return Ok(None);
        };
        before = Some(place);
        rest = behind;
    }
    Ok(Some((items, rest)))
}

/// The kind and node of a group in front of the bytes, which stands above the place before, and the
/// bytes after it. Its items are appended, or some of them where there is none.
fn group_in_front<'a, F: EdgeFn>(
    before: Option<(u32, Node)>,
    items: &mut Vec<(Key, F, bool)>,
    bytes: &'a [u8],
) -> Result<Option<((u32, Node), &'a [u8])>, AllocError>
    requires { length items.old.items ≤ 65536 }
    ensures read { IfRead result (GroupInFront ⟦<F as Spelled>⟧.forms before items.old.items items.new.items bytes.now) }
    ensures none { IfNotRead result (NoGroup ⟦<F as Spelled>⟧.forms before (length items.old.items) bytes.now) }
{
    let Some((place, members, rest)) = header_in_front(bytes) else {
        return Ok(None);
    };
    if !is_above(before, place) {
        return Ok(None);
    }
    if members == 0 {
        return Ok(None);
    }
    if members as usize > MOST - items.len() {
        return Ok(None);
    }
    let Some(behind) = members_in_front(place, members, items, rest)? else {
        return Ok(None);
    };
    Ok(Some((place, behind)))
}

/// The kind and node of a group, how many members it has, and the bytes after that.
fn header_in_front(bytes: &[u8]) -> Option<((u32, Node), u32, &[u8])>
    ensures proper { IfSome result (λ front. IsTrue (is_proper_header (front.0, front.1))) }
    ensures found { IfSome result (λ front. bytes.now ≡ header_form (front.0, front.1) ++ front.2.now) }
    ensures none { IfNone result (NoFormInFront is_proper_header header_form bytes.now) }
{
    let (&kind, numbers) = bytes.split_first()?;
    if kind > 1 {
        return None;
    }
    let (node, behind) = front_of::<Node>(numbers)?;
    let (count, rest) = front_of::<u32>(behind)?;
    Some(((u32::from(kind), node), count, rest))
}

/// The bytes after so many members, which ascend, of the kind and node. Their items are appended, or
/// some of them where there are none.
fn members_in_front<'a, F: EdgeFn>(
    place: (u32, Node),
    count: u32,
    items: &mut Vec<(Key, F, bool)>,
    bytes: &'a [u8],
) -> Result<Option<&'a [u8]>, AllocError>
    ensures read { IfRead result (Listed ⟦<F as Spelled>⟧.forms place count items.old.items items.new.items bytes.now) }
    ensures none { IfNotRead result (NoMembers ⟦<F as Spelled>⟧.forms count bytes.now) }
{
    let mut before = None;
    let mut rest = bytes;
    for _taken in 0..count {
        let Some((member, behind)) = <(Fact, Fact, F, bool)>::front(rest) else {
            return Ok(None);
        };
        let (first, second, function, pending) = member;
        let facts = (u32::from(first), u32::from(second));
        if !is_above(before, facts) {
            return Ok(None);
        }
        items.push((key_at(place, first, second), function, pending))?;
        before = Some(facts);
        rest = behind;
    }
    Ok(Some(rest))
}

/// The key of that kind, at that node.
fn key_at(place: (u32, Node), first: Fact, second: Fact) -> Key
    ensures { result ≡ key_of_kind place.0 place.1 first second }
{
    if place.0 == 0 {
        Key::Jump(place.1, first, second)
    } else {
        Key::Summary(place.1, first, second)
    }
}

/// Whether the place is above the one before, if there is one.
fn is_above(before: Option<(u32, u32)>, place: (u32, u32)) -> bool
    ensures { IsTrue result ↔ IsAbove before place }
{
    let Some((first, second)) = before else {
        return true;
    };
    first.cmp(&place.0).then(second.cmp(&place.1)) == Ordering::Less
}
