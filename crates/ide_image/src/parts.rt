//! Steps of the parts that an image is made of, after which they agree again.
ghost use Rattle.std.specs.Prelude.{◌≡◌, ℕ, ◌+◌, ◌%◌, ◌<◌, ◌≤◌, ◌^◌, None, Some, false, true, length, IfSome, IsOk, OnOk, OnErr, IsOkUnless};
ghost use Rattle.std.specs.Option.{is_some};
ghost use Rattle.ide_wire.specs.declared.key.Key.TheVariants.{Jump};
ghost use Rattle.ide_wire.specs.declared.refused.Refused.TheVariants.{NoMemory};
ghost use Rattle.ide_image.specs.Worklist.{MarksIn, claim_in, is_claim_of};
ghost use Rattle.ide_image.specs.ChangeLog.{KeepsSlots, KeepsSlotsAt, MarksNoted, MayNote, noted_at};
ghost use Rattle.ide_image.specs.KeyedImage.{AddsAllBySlot, AddsBySlot, AreParts, CountsBySlot, FreesKey, HasRoomFor, IsListed, MarksAllIn, MarksKey, NotesAllBySlot, NotesBySlot, SameOver, SameParts, SettlesKey, UsesRoom, marked_at, pending_by_slot};
ghost use Rattle.ide_image.specs.Indexed.{HaveCells, PutsEntries, PutsEntry, place_of_key};
ghost use Rattle.ide_image.specs.Left.{is_left, is_left_by_slot, left_by_slot};
ghost use Rattle.ide_image.specs.Queue.{pending_at, pending_count};
ghost use Rattle.ide_image.specs.Ranks.{item_in};
ghost use Rattle.ide_image.specs.Walk.{AreListedFrom, AreNotesIn, KeepsNotesFrom, StandBehind, WalksBySlot, jump_behind, with_entered};

use crate::change_log::ChangeLog;
use crate::claim::Claim;
use crate::claims;
use crate::entry::Entry;
use crate::indexed::Indexed;
use crate::queue::Queue;
use ide_lattice::EdgeFn;
use ide_pages::offset_of;
use ide_wire::{Fact, Key, Node, Refused};

/// Whether the slot at a place is pending.
pub(crate) fn is_pending_at(queue: &Queue, place: usize) -> bool
    ensures { result ≡ marked_at (pending_at queue.now.list) place }
{
    place != 0 && queue.is_pending(place - 1)
}

/// Whether the key of the slot at a place is noted.
pub(crate) fn is_noted_at<F: EdgeFn>(changes: &ChangeLog<F>, place: usize) -> bool
    ensures { result ≡ marked_at (noted_at changes.now) place }
{
    place != 0 && changes.is_noted(place - 1)
}

/// Whether the key of a slot has a function, and another entry than before. Where it had no function before, only the
/// slot's cell is looked at.
#[inline(always)]
pub(crate) fn is_left_at<F: EdgeFn>(
    indexed: &Indexed<F>,
    queue: &Queue,
    slot: u32,
    key: Key,
    before: &Entry<F>,
) -> bool
    requires slot { place_of_key indexed.now key ≡ slot + 1 }
    ensures { result ≡ is_left_by_slot F.eq indexed.now queue.now key before.now }
{
    let slot = slot as usize;
    if before.function.is_none() {
        return indexed.has_function(slot);
    }
    match indexed.function_at(slot + 1) {
        Some(now) => is_left(now, queue.is_pending(slot), before),
        None => false,
    }
}

/// The key of a slot with its function and whether it is pending, where its entry is another one than before.
pub(crate) fn left_at<F: EdgeFn>(
    indexed: &Indexed<F>,
    queue: &Queue,
    slot: u32,
    key: Key,
    before: Entry<F>,
) -> Option<(Key, F, bool)>
    requires slot { place_of_key indexed.now key ≡ slot + 1 }
    ensures left { result ≡ left_by_slot F.eq indexed.now queue.now key before }
    ensures item { IfSome result (λ item. item_in indexed.now queue.now slot ≡ Some item) }
{
    let slot = slot as usize;
    let now = indexed.function_at(slot + 1)?;
    let pending = queue.is_pending(slot);
    if is_left(now, pending, &before) {
        Some((key, now, pending))
    } else {
        None
    }
}

/// The key of a slot with its function and whether it is pending, as it stands.
#[inline(always)]
pub(crate) fn item_at<F: EdgeFn>(
    indexed: &Indexed<F>,
    queue: &Queue,
    slot: u32,
) -> Option<(Key, F, bool)>
    ensures { result ≡ item_in indexed.now queue.now slot }
{
    let (key, function) = indexed.entry_at(slot as usize)?;
    Some((key, function, queue.is_pending(slot as usize)))
}

/// Whether a function and a mark make another entry than before.
#[inline(always)]
fn is_left<F: EdgeFn>(now: F, pending: bool, before: &Entry<F>) -> bool
    ensures { result ≡ is_left F.eq (Some now) before.now.function pending before.now.pending }
{
    match before.function {
        Some(then) => now != then || pending != before.pending,
        None => true,
    }
}

/// Makes room for so many keys more, that are pending and have cells, and for so many notes, where changes are noted.
#[inline(always)]
pub(crate) fn make_room<F: EdgeFn>(
    indexed: &mut Indexed<F>,
    queue: &mut Queue,
    changes: &mut ChangeLog<F>,
    additional: usize,
    notes: usize,
) -> Result<(), Refused>
    ensures same { SameParts indexed.old indexed.new queue.old queue.new changes.old changes.new }
    ensures count { pending_count queue.new.list ≡ pending_count queue.old.list }
    ensures bound { length indexed.new.cells ≡ length indexed.old.cells }
    ensures room { OnOk result (HasRoomFor additional notes indexed.new queue.new changes.new) }
    ensures few { OnOk result (length indexed.new.cells < 2 ^ 32) }
    ensures refused { IsOkUnless result NoMemory }
{
    indexed.reserve(additional)?;
    queue.reserve(additional)?;
    let slots = indexed.cell_count();
    changes.make_room(notes, slots)?;
    queue.cover(slots)?;
    Ok(())
}

/// Makes the key, which is pending, pending no longer, and notes the entry of before. Only the note
/// takes memory.
#[inline(always)]
pub(crate) fn end_slot<F: EdgeFn>(
    indexed: &Indexed<F>,
    queue: &mut Queue,
    changes: &mut ChangeLog<F>,
    key: Key,
) -> Result<(), Refused>
    requires pending { pending_by_slot indexed.now queue.old key ≡ true }
    requires listed { IsListed indexed.now changes.old key }
    ensures pending { OnOk result (SettlesKey indexed.now key queue.old queue.new) }
    ensures held { OnOk result (FreesKey indexed.now key queue.old queue.new) }
    ensures count { OnOk result (pending_count queue.new.list + 1 ≡ pending_count queue.old.list) }
    ensures list { OnOk result (NotesBySlot indexed.now queue.old key changes.old changes.new) }
    ensures slots { OnOk result (KeepsSlots (place_of_key indexed.now) changes.old changes.new) }
    ensures marks { OnOk result (MarksKey indexed.now key changes.old changes.new) }
    ensures err { OnErr result (SameOver indexed.now queue.old queue.new changes.old changes.new) }
    ensures nobody { changes.old.list ≡ None → IsOk result }
    ensures refused { IsOkUnless result NoMemory }
{
    let near = queue.near_slot(offset_of(key));
    let slot = indexed.cell_of(key, near.slot);
    changes.make_room(1, slot + 1)?;
    note_now(indexed, queue, changes, slot, key);
    queue.settle(slot, near.position);
    Ok(())
}

/// Notes the entry of the key, whose slot this is, as it stands, if changes are noted and the key is not yet. Elsewhere it
/// does not read it.
#[inline(always)]
fn note_now<F: EdgeFn>(
    indexed: &Indexed<F>,
    queue: &Queue,
    changes: &mut ChangeLog<F>,
    slot: usize,
    key: Key,
)
    requires slot { slot + 1 ≡ place_of_key indexed.now key }
    requires few { slot + 1 < 2 ^ 32 }
    requires room { MayNote 1 (slot + 1) changes.old }
    requires listed { IsListed indexed.now changes.old key }
    ensures list { NotesBySlot indexed.now queue.now key changes.old changes.new }
    ensures slots { KeepsSlotsAt slot key changes.old changes.new }
    ensures marks { MarksNoted slot changes.old changes.new }
    ensures room { (n s : ℕ) → MayNote (n + 1) s changes.old → MayNote n s changes.new }
{
    if !changes.wants(slot) {
        return;
    }
    let before = Entry {
        function: indexed.function_at(slot + 1),
        pending: queue.is_pending(slot),
    };
    changes.note(slot, key, before);
}

/// Puts the function into the key's cell, which this is, and notes the entry of before.
#[inline(always)]
pub(crate) fn put_noted<F: EdgeFn>(
    indexed: &mut Indexed<F>,
    queue: &Queue,
    changes: &mut ChangeLog<F>,
    cell: usize,
    key: Key,
    function: F,
)
    requires cell { cell + 1 ≡ place_of_key indexed.old key }
    requires few { cell + 1 < 2 ^ 32 }
    requires room { HasRoomFor 1 1 indexed.old queue.now changes.old }
    requires listed { IsListed indexed.old changes.old key }
    ensures cells { PutsEntry key function indexed.old indexed.new }
    ensures stands { cell + 1 ≡ place_of_key indexed.new key }
    ensures list { NotesBySlot indexed.old queue.now key changes.old changes.new }
    ensures slots { KeepsSlots (place_of_key indexed.new) changes.old changes.new }
    ensures marks { MarksNoted cell changes.old changes.new }
    ensures taken { indexed.old.room ≤ indexed.new.room + 1 }
    ensures notes { (n s : ℕ) → MayNote (n + 1) s changes.old → MayNote n s changes.new }
{
    note_now(indexed, queue, changes, cell, key);
    indexed.put(cell, key, function);
}

/// Marks the claim of the key as lowered, if a hand has claimed it.
fn mark_held<T: Drop>(claims: &mut Vec<Option<Claim<T>>>, is_held: bool, key: Key)
    requires { (h : ℕ) → is_held ≡ false → is_claim_of key (claim_in claims.old.items h) ≡ false }
    ensures { MarksIn key claims.old.items claims.new.items }
{
    if is_held {
        claims::mark(claims, key);
    }
}

/// Puts the function into the key's cell, which this is, makes the key pending, marks a claim of it, and
/// notes the entry of before.
#[inline(always)]
pub(crate) fn enter<F: EdgeFn, T: Drop>(
    indexed: &mut Indexed<F>,
    queue: &mut Queue,
    claims: &mut Vec<Option<Claim<T>>>,
    changes: &mut ChangeLog<F>,
    cell: usize,
    key: Key,
    function: F,
)
    requires cell { cell + 1 ≡ place_of_key indexed.old key }
    requires few { cell + 1 < 2 ^ 32 }
    requires room { HasRoomFor 1 1 indexed.old queue.old changes.old }
    requires whole { AreParts indexed.old queue.old claims.old.items changes.old }
    ensures whole { AreParts indexed.new queue.new claims.new.items changes.new }
    ensures cells { PutsEntry key function indexed.old indexed.new }
    ensures list { NotesBySlot indexed.old queue.old key changes.old changes.new }
    ensures claims { MarksIn key claims.old.items claims.new.items }
    ensures pending { AddsBySlot key indexed.old indexed.new queue.old queue.new }
    ensures count { CountsBySlot indexed.old key queue.old queue.new }
    ensures room { UsesRoom indexed.old indexed.new queue.old queue.new changes.old changes.new }
{
    put_noted(indexed, queue, changes, cell, key, function);
    let is_held = queue.push(cell);
    mark_held(claims, is_held, key);
}

/// Enters the keys of the entries, which have cells, with their functions, one after the other, for which there is room.
pub(crate) fn enter_all<F: EdgeFn, T: Drop>(
    indexed: &mut Indexed<F>,
    queue: &mut Queue,
    claims: &mut Vec<Option<Claim<T>>>,
    changes: &mut ChangeLog<F>,
    list: &[(Key, F)],
)
    requires room { HasRoomFor (length list.now) (length list.now) indexed.old queue.old changes.old }
    requires made { HaveCells indexed.old list.now }
    requires whole { AreParts indexed.old queue.old claims.old.items changes.old }
    ensures whole { AreParts indexed.new queue.new claims.new.items changes.new }
    ensures cells { PutsEntries list.now indexed.old indexed.new }
    ensures pending { AddsAllBySlot list.now indexed.old indexed.new queue.old queue.new }
    ensures claims { MarksAllIn list.now claims.old.items claims.new.items }
    ensures noting { is_some changes.new.list ≡ is_some changes.old.list }
    ensures notes { NotesAllBySlot indexed.old queue.old list.now changes.old changes.new }
{
    // Pages that were made for these keys stand behind the others.
    let last = indexed.cell_count().saturating_sub(1);
    for entry in list {
        let cell = indexed.cell_of(entry.0, last);
        enter(indexed, queue, claims, changes, cell, entry.0, entry.1);
    }
}

/// Notes the entry of the jump between the facts at the node, which has the cell, as it stands, and those at so many nodes
/// behind it as absent, if changes are noted. These have the cells behind that one.
#[inline(always)]
pub(crate) fn note_walk<F: EdgeFn>(
    indexed: &Indexed<F>,
    queue: &Queue,
    changes: &mut ChangeLog<F>,
    cell: usize,
    node: Node,
    from: Fact,
    to: Fact,
    count: usize,
)
    requires cell { cell + 1 ≡ place_of_key indexed.now (Jump node from to) }
    requires page { node % 64 + count < 64 }
    requires few { cell + count + 1 < 2 ^ 32 }
    requires stands { StandBehind cell (jump_behind node from to) count indexed.now }
    requires room { MayNote (count + 1) (length indexed.now.cells) changes.old }
    requires notes { AreNotesIn indexed.now changes.old }
    ensures list { WalksBySlot node from to count indexed.now queue.now changes.old changes.new }
    ensures notes { AreNotesIn indexed.now changes.new }
{
    if !changes.is_noting() {
        return;
    }
    note_now(indexed, queue, changes, cell, Key::Jump(node, from, to));
    note_behind(changes, cell + 1, node, from, to, count);
}

/// Notes as absent the jumps between the facts at so many nodes behind this one, which have the slots from the first on, if
/// changes are noted.
#[inline(always)]
fn note_behind<F: EdgeFn>(
    changes: &mut ChangeLog<F>,
    first: usize,
    node: Node,
    from: Fact,
    to: Fact,
    count: usize,
)
    requires page { node % 64 + count < 64 }
    requires few { first + count < 2 ^ 32 }
    requires room { MayNote count (first + count) changes.old }
    requires listed { AreListedFrom first (jump_behind node from to) count changes.old }
    ensures list { changes.new.list ≡ with_entered changes.old.list (jump_behind node from to) count }
    ensures notes { KeepsNotesFrom first (jump_behind node from to) count changes.old changes.new }
{
    for step in 0..count {
        let absent = Entry {
            function: None,
            pending: false,
        };
        let key = Key::Jump(node + 1 + step as u32, from, to);
        changes.note(first + step, key, absent);
    }
}
