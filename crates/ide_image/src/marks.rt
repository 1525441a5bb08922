//! The marks of slots.
ghost use Rattle.std.specs.Prelude.{◌≡◌, ℕ, ◌*◌, ◌<◌, ◌≤◌, ◌^◌, [], true, length, slice_set, OnErr, OnOk};
ghost use Rattle.ide_image.specs.Bits.{AreMarked, MarksBits};
ghost use Rattle.ide_image.specs.Queue.{SameSums, held_at, is_held, mark_in, pending_at, stacked_at, waiting_at};

use crate::bits::Bits;
use crate::mark::Mark;
use std::alloc::{AllocError, Global};
use std::marker::Model;

/// A mark for each of the first slots, in two bits, and in three once a hand has claimed one. A slot behind them is
/// settled. Contracts see the list of the marks.
#[derive(Drop)]
pub(crate) struct Marks {
    /// Which slots are pending. It may have bits behind those of `stacked`, none of which is set.
    pending: Bits,
    /// Which slots are on the stack: a pending one is anyway, unless a hand has claimed it.
    stacked: Bits,
    /// Which of the pending slots hands have claimed. It has bits only once one has.
    held: Bits,
}

impl Model for Marks {
    ghost use Rattle.std.specs.Prelude.{List};
    ghost use Rattle.ide_image.specs.declared.mark.Mark.{Mark};
    ghost use Rattle.ide_image.specs.Bits.{AreMarked, marks_in};

    ghost Value = { List Mark };

    ghost view = { λ m. marks_in m.pending m.stacked m.held };

    ghost invariant = { λ m. AreMarked m.pending m.stacked };
}

impl Marks {
    /// Marks of slots that are settled. It allocates nothing.
    pub(crate) fn new(alloc: Global) -> Self
        ensures { result ≡ [] }
    {
        Marks {
            pending: Bits::new(alloc),
            stacked: Bits::new(alloc),
            held: Bits::new(alloc),
        }
    }

    /// The mark of the slot: settled, where it has none.
    #[inline(always)]
    pub(crate) fn get(&self, slot: usize) -> Mark
        ensures { result ≡ mark_in self.now slot }
    {
        Mark::of(
            self.pending.get(slot),
            self.stacked.get(slot),
            self.held.get(slot),
        )
    }

    /// Whether the slot is pending.
    #[inline(always)]
    pub(crate) fn is_pending(&self, slot: usize) -> bool
        ensures { result ≡ pending_at self.now slot }
    {
        self.pending.get(slot)
    }

    /// Whether a hand has claimed the slot.
    #[inline(always)]
    pub(crate) fn is_held(&self, slot: usize) -> bool
        ensures { result ≡ held_at self.now slot }
    {
        self.held.get(slot) && self.pending.get(slot)
    }

    /// Whether the slot is pending, and no hand has claimed it.
    #[inline(always)]
    pub(crate) fn is_waiting(&self, slot: usize) -> bool
        ensures { result ≡ waiting_at self.now slot }
    {
        self.pending.get(slot) && !self.held.get(slot)
    }

    /// Whether the slot is on the stack.
    #[inline(always)]
    pub(crate) fn is_stacked(&self, slot: usize) -> bool
        ensures { result ≡ stacked_at self.now slot }
    {
        self.stacked.get(slot) || self.is_waiting(slot)
    }

    /// Gives the slot that mark: one of a claimed slot only where a hand has claimed it before.
    #[inline(always)]
    pub(crate) fn set(&mut self, slot: usize, mark: Mark)
        requires there { slot < length self.old }
        requires held { is_held mark ≡ true → held_at self.old slot ≡ true }
        ensures { self.new ≡ slice_set self.old slot mark }
    {
        write(
            &mut self.pending,
            &mut self.stacked,
            &mut self.held,
            slot,
            mark,
        );
    }

    /// Gives the slot any mark. It takes memory where no hand had claimed a slot as high.
    pub(crate) fn hold(&mut self, slot: usize, mark: Mark) -> Result<(), AllocError>
        requires there { slot < length self.old }
        requires few { length self.old ≤ 2 ^ 32 }
        ensures marked { OnOk result (self.new ≡ slice_set self.old slot mark) }
        ensures err { OnErr result (self.new ≡ self.old) }
    {
        self.held.cover(slot + 1)?;
        write(
            &mut self.pending,
            &mut self.stacked,
            &mut self.held,
            slot,
            mark,
        );
        Ok(())
    }

    /// Makes a mark for each of the first slots, up to this count: those that are new are settled.
    #[inline(always)]
    pub(crate) fn cover(&mut self, count: usize) -> Result<(), AllocError>
        requires few { count ≤ 2 ^ 32 }
        requires marks { length self.old ≤ 2 ^ 32 }
        ensures covered { OnOk result (count ≤ length self.new) }
        ensures few { length self.new ≤ 2 ^ 32 }
        ensures same { (n : ℕ) → mark_in self.new n ≡ mark_in self.old n }
        ensures counts { SameSums self.old self.new }
    {
        self.pending.cover(count)?;
        self.stacked.cover(count)?;
        Ok(())
    }

    /// Makes each slot settled. It takes no memory, and gives none up.
    pub(crate) fn clear(&mut self)
        ensures { self.new ≡ [] }
    {
        self.pending.clear();
        self.stacked.clear();
        self.held.clear();
    }
}

/// Writes the bits of the mark.
#[inline(always)]
fn write(pending: &mut Bits, stacked: &mut Bits, held: &mut Bits, slot: usize, mark: Mark)
    requires marked { AreMarked pending.old stacked.old }
    requires there { slot < 64 * length stacked.old }
    requires room { is_held mark ≡ true → slot < 64 * length held.old }
    ensures marked { AreMarked pending.new stacked.new }
    ensures marks { MarksBits slot mark pending.old stacked.old held.old pending.new stacked.new held.new }
{
    pending.set(slot, mark.is_pending());
    stacked.set(slot, mark.is_stacked());
    held.set(slot, mark.is_held());
}
