//! Which slots are pending, and which of these a hand has claimed: a mark for each slot, and a stack of
//! those that wait for a hand.
//!
//! A mark does not say where its slot is on the stack. One that is settled or claimed is looked for among the
//! slots near the top, where it nearly always is. Elsewhere it is left on the stack, and forgotten once it
//! comes to the top.
ghost use Rattle.std.specs.Prelude.{◌≡◌, ℕ, ◌+◌, ◌-◌, ◌<◌, ◌≤◌, ◌^◌, [], true, false, length, slice_get, Some, IfSome, IfNone, OnErr, OnOk, IsTrue, vec_capacity, vec_len};
ghost use Rattle.ide_image.specs.declared.mark.Mark.TheVariants.{Settled};
ghost use Rattle.ide_image.specs.Queue.{AreStacked, CountsPushed, CountsReturned, CountsSettled, IsStack, KeepsMarks, MarksHeld, MovesOn, SameMarks, SameSums, SetsHeldSlot, SetsMark, SetsPendingSlot, TopWaits, held_at, is_held, is_pending_mark, mark_in, owed_count, pending_at, pending_count, one_if, stacked_at, waiting_at};

use crate::mark::Mark;
use crate::marks::Marks;
use std::alloc::{AllocError, Global};
use std::marker::Model;

/// How many slots, from the top of the stack down, are looked through for one that is taken off.
const NEAR: usize = 8;

/// A slot, and where it stands on the stack.
#[derive(Drop)]
pub(crate) struct Stacked {
    pub(crate) slot: usize,
    pub(crate) position: usize,
}

/// A mark for each slot, in bits, and the slots that wait. A slot behind the last mark is settled, and
/// each slot is below 2^32.
///
/// Each call takes a constant time, but for `reserve`, `cover`, `clear`, and for the slots that `settle` and
/// `hold` take off the top of the stack, each of which one call before left there.
#[derive(Drop)]
pub(crate) struct Queue {
    marks: Marks,
    /// The slots that wait and those that were left here, each once. The top one waits. It has room for those
    /// that `held` counts.
    stack: Vec<u32>,
    /// How many slots hands have claimed that are not on the stack: a release puts them back there.
    held: usize,
    /// How many slots are pending.
    pending: usize,
}

impl Model for Queue {
    ghost use Rattle.std.specs.Prelude.{◌+◌, ◌-◌, vec_capacity, vec_len};
    ghost use Rattle.ide_image.specs.Queue.{SlotMarks, IsQueue};

    ghost Value = { SlotMarks };

    ghost view = { λ q. record { list = q.marks; spare = vec_capacity q.stack - (vec_len q.stack + q.held) } };

    ghost invariant = { λ q. IsQueue q.marks q.stack.items (vec_capacity q.stack) q.held q.pending };
}

impl Queue {
    /// A queue in which each slot is settled. It allocates nothing.
    pub(crate) fn new(alloc: Global) -> Self
        ensures { result.list ≡ [] }
    {
        Queue {
            marks: Marks::new(alloc),
            stack: Vec::new(alloc),
            held: 0,
            pending: 0,
        }
    }

    /// Whether the slot is pending.
    #[inline(always)]
    pub(crate) fn is_pending(&self, slot: usize) -> bool
        ensures { result ≡ pending_at self.now.list slot }
    {
        self.marks.is_pending(slot)
    }

    /// How many slots are pending.
    pub(crate) fn pending_count(&self) -> usize
        ensures { result ≡ pending_count self.now.list }
    {
        self.pending
    }

    /// The slot on top of the stack: one that waits, if one does.
    pub(crate) fn top(&self) -> Option<u32>
        ensures waits { IfSome result (λ slot. waiting_at self.now.list slot ≡ true) }
        ensures none { IfNone result ((n : ℕ) → waiting_at self.now.list n ≡ false) }
    {
        self.stack.last().copied()
    }

    /// The slot on top of the stack, where that of the next key is looked for first: the first one, if none waits.
    #[inline(always)]
    pub(crate) fn top_slot(&self) -> usize {
        match self.stack.last() {
            Some(slot) => *slot as usize,
            None => 0,
        }
    }

    /// The highest of the slots near the top of the stack that is at the offset of a page of 64, where that of a key
    /// whose parts were done is looked for first: the first slot, if none of these is.
    #[inline(always)]
    pub(crate) fn near_slot(&self, offset: usize) -> Stacked {
        let len = self.stack.len();
        for position in (len.saturating_sub(NEAR)..len).rev() {
            let slot = self.stack[position] as usize;
            if slot % 64 == offset {
                return Stacked { slot, position };
            }
        }
        Stacked {
            slot: 0,
            position: 0,
        }
    }

    /// Makes room for so many more pending slots.
    pub(crate) fn reserve(&mut self, additional: usize) -> Result<(), AllocError>
        requires few { additional < 2 ^ 32 }
        ensures room { OnOk result (additional ≤ self.new.spare) }
        ensures same { self.new.list ≡ self.old.list }
    {
        self.stack.reserve(additional + self.held)
    }

    /// Makes a mark for each of the first slots, up to this count: those that are new are settled.
    #[inline(always)]
    pub(crate) fn cover(&mut self, count: usize) -> Result<(), AllocError>
        requires few { count < 2 ^ 32 }
        ensures covered { OnOk result (count ≤ length self.new.list) }
        ensures pending { SameMarks (pending_at self.old.list) (pending_at self.new.list) }
        ensures held { SameMarks (held_at self.old.list) (held_at self.new.list) }
        ensures count { pending_count self.new.list ≡ pending_count self.old.list }
        ensures room { self.new.spare ≡ self.old.spare }
    {
        self.marks.cover(count)
    }

    /// Makes the slot pending: if it is not, it waits then. Answers whether a hand has claimed it.
    #[inline(always)]
    pub(crate) fn push(&mut self, slot: usize) -> bool
        requires there { slot < length self.old.list }
        requires room { 0 < self.old.spare }
        ensures claimed { result ≡ held_at self.old.list slot }
        ensures pending { SetsPendingSlot slot true self.old.list self.new.list }
        ensures held { SameMarks (held_at self.old.list) (held_at self.new.list) }
        ensures count { CountsPushed slot self.old.list self.new.list }
        ensures covered { length self.new.list ≡ length self.old.list }
        ensures room { self.old.spare ≤ self.new.spare + 1 }
    {
        let is_held = self.marks.is_held(slot);
        if !self.marks.is_pending(slot) {
            make_wait(&mut self.marks, &mut self.stack, slot);
            self.pending += 1;
        }
        is_held
    }

    /// Makes the slot settled. On the stack it is looked for at the likely position first.
    #[inline(always)]
    pub(crate) fn settle(&mut self, slot: usize, likely: usize)
        requires there { slot < length self.old.list }
        ensures pending { SetsPendingSlot slot false self.old.list self.new.list }
        ensures held { SetsHeldSlot slot false self.old.list self.new.list }
        ensures count { CountsSettled slot self.old.list self.new.list }
        ensures covered { length self.new.list ≡ length self.old.list }
        ensures room { self.old.spare ≤ self.new.spare }
    {
        if self.marks.is_pending(slot) {
            make_settled(
                &mut self.marks,
                &mut self.stack,
                &mut self.held,
                slot,
                likely,
            );
            self.pending -= 1;
        }
    }

    /// Makes the slot `to`, which is settled, wait in the place of `from`, which waits. On top of the stack it writes the
    /// one over the other.
    #[inline(always)]
    pub(crate) fn move_on(&mut self, from: usize, to: usize)
        requires waits { waiting_at self.old.list from ≡ true }
        requires settled { pending_at self.old.list to ≡ false }
        requires there { to < length self.old.list }
        requires room { 0 < self.old.spare }
        ensures pending { MovesOn from to self.old.list self.new.list }
        ensures held { SameMarks (held_at self.old.list) (held_at self.new.list) }
        ensures count { pending_count self.new.list ≡ pending_count self.old.list }
        ensures covered { length self.new.list ≡ length self.old.list }
        ensures room { self.old.spare ≤ self.new.spare + 1 }
    {
        if is_top(&self.stack, from) && self.marks.get(to) == Mark::Settled {
            move_top(&mut self.marks, &mut self.stack, from, to);
        } else {
            self.settle(from, 0);
            let _ = self.push(to);
        }
    }

    /// Makes the slot, which no hand has claimed, pending or settled.
    pub(crate) fn set_pending(&mut self, slot: usize, pending: bool)
        requires there { slot < length self.old.list }
        requires room { 0 < self.old.spare }
        requires free { held_at self.old.list slot ≡ false }
        ensures pending { SetsPendingSlot slot pending self.old.list self.new.list }
        ensures held { SameMarks (held_at self.old.list) (held_at self.new.list) }
    {
        if pending {
            let _ = self.push(slot);
        } else {
            self.settle(slot, 0);
        }
    }

    /// Gives the slot, which waits, to a hand.
    pub(crate) fn hold(&mut self, slot: usize) -> Result<(), AllocError>
        requires waits { waiting_at self.old.list slot ≡ true }
        ensures held { OnOk result (MarksHeld slot true self.old self.new) }
        ensures err { OnErr result (self.new ≡ self.old) }
    {
        self.marks.hold(slot, Mark::HeldLeft)?;
        tidy(&mut self.marks, &mut self.stack, &mut self.held, slot);
        Ok(())
    }

    /// Takes the slot, which a hand has claimed, back: it waits then. It takes no memory.
    pub(crate) fn release(&mut self, slot: usize)
        requires held { held_at self.old.list slot ≡ true }
        ensures { MarksHeld slot false self.old self.new }
    {
        if !self.marks.is_stacked(slot) {
            self.held -= 1;
        }
        make_wait(&mut self.marks, &mut self.stack, slot);
    }

    /// Makes each slot settled. It takes no memory.
    pub(crate) fn clear(&mut self)
        ensures { self.new.list ≡ [] }
    {
        self.marks.clear();
        self.stack.clear();
        self.held = 0;
        self.pending = 0;
    }
}

/// Makes the slot, which does not wait, wait: it goes on the stack, unless it was left there.
#[inline(always)]
fn make_wait(marks: &mut Marks, stack: &mut Vec<u32>, slot: usize)
    requires there { slot < length marks.old }
    requires few { length marks.old ≤ 2 ^ 32 }
    requires room { stacked_at marks.old slot ≡ false → vec_len stack.old < vec_capacity stack.old }
    requires stacked { AreStacked marks.old stack.old.items }
    requires top { TopWaits marks.old stack.old.items }
    ensures stacked { AreStacked marks.new stack.new.items }
    ensures top { TopWaits marks.new stack.new.items }
    ensures pending { SetsPendingSlot slot true marks.old marks.new }
    ensures held { SetsHeldSlot slot false marks.old marks.new }
    ensures count { CountsPushed slot marks.old marks.new }
    ensures returned { CountsReturned slot marks.old marks.new }
    ensures covered { length marks.new ≡ length marks.old }
    ensures len { vec_len stack.new + one_if (stacked_at marks.old slot) ≡ vec_len stack.old + 1 }
    ensures capacity { vec_capacity stack.new ≡ vec_capacity stack.old }
{
    let was_stacked = marks.is_stacked(slot);
    marks.set(slot, Mark::Waiting);
    if !was_stacked {
        stack.push_reserved(slot as u32);
    }
}

/// Whether the slot is on top of the stack.
#[inline(always)]
fn is_top(stack: &[u32], slot: usize) -> bool
    ensures { IsTrue result → slice_get stack.now (length stack.now - 1) ≡ Some slot }
{
    match stack.last() {
        Some(top) => *top as usize == slot,
        None => false,
    }
}

/// Makes the slot `to`, which is settled and not on the stack, wait on top of it, where `from` waits, which is settled
/// then.
#[inline(always)]
fn move_top(marks: &mut Marks, stack: &mut Vec<u32>, from: usize, to: usize)
    requires top { slice_get stack.old.items (length stack.old.items - 1) ≡ Some from }
    requires waits { waiting_at marks.old from ≡ true }
    requires settled { mark_in marks.old to ≡ Settled }
    requires there { to < length marks.old }
    requires few { length marks.old ≤ 2 ^ 32 }
    requires stacked { AreStacked marks.old stack.old.items }
    ensures stacked { AreStacked marks.new stack.new.items }
    ensures top { TopWaits marks.new stack.new.items }
    ensures pending { MovesOn from to marks.old marks.new }
    ensures held { SameMarks (held_at marks.old) (held_at marks.new) }
    ensures count { pending_count marks.new ≡ pending_count marks.old }
    ensures owed { owed_count marks.new ≡ owed_count marks.old }
    ensures covered { length marks.new ≡ length marks.old }
    ensures len { vec_len stack.new ≡ vec_len stack.old }
    ensures capacity { vec_capacity stack.new ≡ vec_capacity stack.old }
{
    let top = stack.len() - 1;
    stack[top] = to as u32;
    marks.set(from, Mark::Settled);
    marks.set(to, Mark::Waiting);
}

/// Makes the slot settled.
#[inline(always)]
fn make_settled(
    marks: &mut Marks,
    stack: &mut Vec<u32>,
    held: &mut usize,
    slot: usize,
    likely: usize,
)
    requires there { slot < length marks.old }
    requires stack { IsStack marks.old stack.old.items held.old }
    requires top { TopWaits marks.old stack.old.items }
    ensures stack { IsStack marks.new stack.new.items held.new }
    ensures top { TopWaits marks.new stack.new.items }
    ensures pending { SetsPendingSlot slot false marks.old marks.new }
    ensures held { SetsHeldSlot slot false marks.old marks.new }
    ensures count { CountsSettled slot marks.old marks.new }
    ensures covered { length marks.new ≡ length marks.old }
    ensures room { vec_len stack.new + held.new ≤ vec_len stack.old + held.old }
    ensures capacity { vec_capacity stack.new ≡ vec_capacity stack.old }
{
    match marks.get(slot) {
        Mark::Settled | Mark::Left => {}
        Mark::Waiting => leave(marks, stack, held, slot, likely),
        Mark::Held => {
            *held -= 1;
            marks.set(slot, Mark::Settled);
        }
        Mark::HeldLeft => marks.set(slot, Mark::Left),
    }
}

/// Makes the slot, which waits, settled, and takes it off the stack where it is near the top, and then those that were left
/// on top, so that one that waits is on top.
#[inline(always)]
fn leave(marks: &mut Marks, stack: &mut Vec<u32>, held: &mut usize, slot: usize, likely: usize)
    requires waits { waiting_at marks.old slot ≡ true }
    requires stack { IsStack marks.old stack.old.items held.old }
    ensures stack { IsStack marks.new stack.new.items held.new }
    ensures top { TopWaits marks.new stack.new.items }
    ensures pending { SetsPendingSlot slot false marks.old marks.new }
    ensures held { SetsHeldSlot slot false marks.old marks.new }
    ensures count { CountsSettled slot marks.old marks.new }
    ensures covered { length marks.new ≡ length marks.old }
    ensures room { vec_len stack.new + held.new ≤ vec_len stack.old + held.old }
    ensures capacity { vec_capacity stack.new ≡ vec_capacity stack.old }
{
    settle_waiting(marks, stack, slot, likely);
    clear_top(marks, stack, held);
}

/// Makes the slot, which waits, settled, and takes it off the stack where it is near the top: elsewhere it is left there.
#[inline(always)]
fn settle_waiting(marks: &mut Marks, stack: &mut Vec<u32>, slot: usize, likely: usize)
    requires waits { waiting_at marks.old slot ≡ true }
    requires few { length marks.old ≤ 2 ^ 32 }
    requires stacked { AreStacked marks.old stack.old.items }
    ensures stacked { AreStacked marks.new stack.new.items }
    ensures pending { SetsPendingSlot slot false marks.old marks.new }
    ensures held { SetsHeldSlot slot false marks.old marks.new }
    ensures count { CountsSettled slot marks.old marks.new }
    ensures owed { owed_count marks.new ≡ owed_count marks.old }
    ensures covered { length marks.new ≡ length marks.old }
    ensures room { vec_len stack.new ≤ vec_len stack.old }
    ensures capacity { vec_capacity stack.new ≡ vec_capacity stack.old }
{
    match position_of(stack, slot as u32, likely) {
        Some(position) => {
            let _ = stack.swap_remove(position);
            marks.set(slot, Mark::Settled);
        }
        None => marks.set(slot, Mark::Left),
    }
}

/// Takes the slot, which was left on the stack, off it where it is near the top, and then those that were left on top, so
/// that one that waits is on top.
#[inline(always)]
fn tidy(marks: &mut Marks, stack: &mut Vec<u32>, held: &mut usize, slot: usize)
    requires there { slot < length marks.old }
    requires left { waiting_at marks.old slot ≡ false }
    requires stack { IsStack marks.old stack.old.items held.old }
    ensures stack { IsStack marks.new stack.new.items held.new }
    ensures top { TopWaits marks.new stack.new.items }
    ensures same { KeepsMarks marks.old marks.new }
    ensures room { vec_len stack.new + held.new ≤ vec_len stack.old + held.old }
    ensures capacity { vec_capacity stack.new ≡ vec_capacity stack.old }
{
    take_near(marks, stack, held, slot);
    clear_top(marks, stack, held);
}

/// Takes the slot, which was left on the stack, off it, where it is near the top.
#[inline(always)]
fn take_near(marks: &mut Marks, stack: &mut Vec<u32>, held: &mut usize, slot: usize)
    requires there { slot < length marks.old }
    requires left { waiting_at marks.old slot ≡ false }
    requires stack { IsStack marks.old stack.old.items held.old }
    ensures stack { IsStack marks.new stack.new.items held.new }
    ensures same { KeepsMarks marks.old marks.new }
    ensures room { vec_len stack.new + held.new ≤ vec_len stack.old + held.old }
    ensures capacity { vec_capacity stack.new ≡ vec_capacity stack.old }
{
    if let Some(position) = position_near(stack, slot as u32) {
        let _ = stack.swap_remove(position);
        take_off(marks, held, slot);
    }
}

/// Takes the slots that were left on top of the stack off it, so that one that waits is on top.
#[inline(always)]
fn clear_top(marks: &mut Marks, stack: &mut Vec<u32>, held: &mut usize)
    requires stack { IsStack marks.old stack.old.items held.old }
    ensures stack { IsStack marks.new stack.new.items held.new }
    ensures top { TopWaits marks.new stack.new.items }
    ensures same { KeepsMarks marks.old marks.new }
    ensures room { vec_len stack.new + held.new ≤ vec_len stack.old + held.old }
    ensures capacity { vec_capacity stack.new ≡ vec_capacity stack.old }
{
    while let Some(slot) = left_on_top(marks, stack) {
        let _ = stack.pop();
        take_off(marks, held, slot);
    }
}

/// The slot on top of the stack, if it was left there.
#[inline(always)]
fn left_on_top(marks: &Marks, stack: &[u32]) -> Option<usize>
    requires { AreStacked marks.now stack.now }
    ensures at { IfSome result (λ slot. slice_get stack.now (length stack.now - 1) ≡ Some slot) }
    ensures left { IfSome result (λ slot. waiting_at marks.now slot ≡ false) }
    ensures none { IfNone result (TopWaits marks.now stack.now) }
{
    let slot = *stack.last()? as usize;
    if marks.is_waiting(slot) {
        None
    } else {
        Some(slot)
    }
}

/// Where the slot is on the stack, if it is at the likely place or near the top.
#[inline(always)]
fn position_of(stack: &[u32], slot: u32, likely: usize) -> Option<usize>
    ensures { IfSome result (λ position. slice_get stack.now position ≡ Some slot) }
{
    if likely < stack.len() && stack[likely] == slot {
        return Some(likely);
    }
    position_near(stack, slot)
}

/// Where the slot is on the stack, if it is near the top.
#[inline(always)]
fn position_near(stack: &[u32], slot: u32) -> Option<usize>
    ensures { IfSome result (λ position. slice_get stack.now position ≡ Some slot) }
{
    let len = stack.len();
    for position in (len.saturating_sub(NEAR)..len).rev() {
        if stack[position] == slot {
            return Some(position);
        }
    }
    None
}

/// Gives the slot, which was left on the stack and is taken off it, the mark of one that is not there.
#[inline(always)]
fn take_off(marks: &mut Marks, held: &mut usize, slot: usize)
    requires stacked { stacked_at marks.old slot ≡ true }
    requires left { waiting_at marks.old slot ≡ false }
    requires owed { owed_count marks.old ≡ held.old }
    requires few { length marks.old ≤ 2 ^ 32 }
    ensures stacked { SetsMark slot false (stacked_at marks.old) (stacked_at marks.new) }
    ensures owed { owed_count marks.new ≡ held.new }
    ensures same { KeepsMarks marks.old marks.new }
    ensures room { held.new ≤ held.old + 1 }
{
    if marks.is_pending(slot) {
        marks.set(slot, Mark::Held);
        *held += 1;
    } else {
        marks.set(slot, Mark::Settled);
    }
}
