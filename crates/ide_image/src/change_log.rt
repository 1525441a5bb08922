//! Notes of what changed, with a mark at each slot whose key is noted.
ghost use Rattle.std.specs.Prelude.{◌≡◌, ℕ, ◌+◌, ◌<◌, ◌≤◌, ◌^◌, ◌&&◌, [], None, Some, false, not, length, slice_index, OnOk, IsOk, option_map};
ghost use Rattle.std.specs.Option.{is_some, option_copied};
ghost use Rattle.ide_image.specs.ChangeLog.{AreStamps, KeepsSlotsAt, MarksNoted, MayNote, is_noted_in, list_of, noted_at};
ghost use Rattle.ide_image.specs.Notes.{noted, with_note};
ghost use Rattle.ide_image.specs.Queue.{SameMarks};

use crate::changes::Changes;
use crate::entry::Entry;
use crate::noted_marks::NotedMarks;
use ide_wire::Key;
use std::alloc::{AllocError, Global};
use std::marker::Model;
use std::mem;

/// The entry that each key had when changes were last asked for, if the key changed since: none where
/// nobody asked.
#[derive(Drop)]
pub(crate) struct ChangeLog<F: Drop> {
    list: Option<Changes<F>>,
    /// The slot of each note's key.
    slots: Vec<u32>,
    /// For each slot the number of the list that its key was last noted in: 0 for none. One byte, so that those of a
    /// page's slots lie together.
    stamps: Vec<u8>,
    /// The number of the list.
    epoch: u8,
}

impl<F: Drop> Model for ChangeLog<F> {
    ghost use Rattle.ide_image.specs.ChangeLog.{AreStamps, ChangeLog, list_of, note_room};

    ghost Value = { ChangeLog F };

    ghost view = { λ c. record { list = list_of c.list; slots = c.slots.items; stamps = c.stamps.items; epoch = c.epoch; room = note_room c.list c.slots } };

    ghost invariant = { λ c. AreStamps c.stamps.items c.epoch };
}

impl<F: Copy + Drop> ChangeLog<F> {
    /// Changes that nobody asked for. It allocates nothing.
    pub(crate) fn new(alloc: Global) -> Self
        ensures list { result.list ≡ None }
        ensures slots { result.slots ≡ [] }
        ensures marks { (n : ℕ) → noted_at result n ≡ false }
    {
        ChangeLog {
            list: None,
            slots: Vec::new(alloc),
            stamps: Vec::new(alloc),
            epoch: 1,
        }
    }

    /// Whether changes are noted.
    #[inline(always)]
    pub(crate) fn is_noting(&self) -> bool
        ensures { result ≡ is_some self.now.list }
    {
        self.list.is_some()
    }

    /// The notes, in the order of the first changes, if changes are noted.
    pub(crate) fn notes(&self) -> Option<&Changes<F>>
        ensures { list_of (option_copied result) ≡ self.now.list }
    {
        self.list.as_ref()
    }

    /// The slot of each note's key, in the order of the notes.
    pub(crate) fn slots(&self) -> &[u32]
        ensures { result.now ≡ self.now.slots }
    {
        &self.slots
    }

    /// The marks of the slots whose keys are noted.
    pub(crate) fn stamp_marks(&self) -> NotedMarks<'_>
        ensures { SameMarks (noted_at self.now) (is_noted_in result) }
    {
        NotedMarks {
            stamps: &self.stamps,
            epoch: self.epoch,
        }
    }

    /// Whether the slot's key is noted.
    pub(crate) fn is_noted(&self, slot: usize) -> bool
        ensures { result ≡ noted_at self.now slot }
    {
        stamp_in(&self.stamps, slot) == self.epoch
    }

    /// Whether changes are noted, and the slot's key is not yet.
    #[inline(always)]
    pub(crate) fn wants(&self, slot: usize) -> bool
        ensures { result ≡ (is_some self.now.list && not (noted_at self.now slot)) }
    {
        self.list.is_some() && !self.is_noted(slot)
    }

    /// Makes room for so many notes more, of keys at the first slots, where changes are noted.
    #[inline(always)]
    pub(crate) fn make_room(&mut self, additional: usize, slots: usize) -> Result<(), AllocError>
        ensures list { self.new.list ≡ self.old.list }
        ensures slots { self.new.slots ≡ self.old.slots }
        ensures marks { SameMarks (noted_at self.old) (noted_at self.new) }
        ensures room { OnOk result (MayNote additional slots self.new) }
        ensures nobody { self.old.list ≡ None → IsOk result }
    {
        if let Some(list) = &mut self.list {
            list.reserve(additional)?;
            self.slots.reserve(additional)?;
            grow(&mut self.stamps, slots)?;
        }
        Ok(())
    }

    /// Notes the entry that the slot's key had before its change, if changes are noted and the key is
    /// not yet.
    #[inline(always)]
    pub(crate) fn note(&mut self, slot: usize, key: Key, before: Entry<F>)
        requires room { MayNote 1 (slot + 1) self.old }
        requires mark { noted_at self.old slot ≡ is_some (noted self.old.list key) }
        requires few { slot < 2 ^ 32 }
        ensures list { self.new.list ≡ with_note self.old.list key before }
        ensures slots { KeepsSlotsAt slot key self.old self.new }
        ensures marks { MarksNoted slot self.old self.new }
        ensures room { (n s : ℕ) → MayNote (n + 1) s self.old → MayNote n s self.new }
    {
        let is_noted = self.is_noted(slot);
        if let Some(list) = &mut self.list {
            if !is_noted {
                list.push(key, before);
                self.slots.push_reserved(slot as u32);
                self.stamps[slot] = self.epoch;
            }
        }
    }

    /// Hands the notes out, if changes were noted. From now on they are, and no key is noted yet.
    pub(crate) fn take(&mut self, alloc: Global) -> Option<Changes<F>>
        ensures taken { list_of result ≡ self.old.list }
        ensures list { self.new.list ≡ Some [] }
        ensures slots { self.new.slots ≡ [] }
        ensures marks { (n : ℕ) → noted_at self.new n ≡ false }
    {
        self.slots.clear();
        begin_list(&mut self.stamps, &mut self.epoch);
        mem::replace(&mut self.list, Some(Changes::new(alloc)))
    }

    /// Forgets what is noted. From now on changes are, and no key is noted yet. The room for notes stays.
    pub(crate) fn begin(&mut self, alloc: Global)
        ensures list { self.new.list ≡ Some [] }
        ensures slots { self.new.slots ≡ [] }
        ensures marks { (n : ℕ) → noted_at self.new n ≡ false }
    {
        self.clear();
        if self.list.is_none() {
            self.list = Some(Changes::new(alloc));
        }
    }

    /// Forgets what is noted. Changes are noted from now on where they were. The room for notes stays.
    pub(crate) fn clear(&mut self)
        ensures list { self.new.list ≡ option_map (λ _. []) self.old.list }
        ensures slots { self.new.slots ≡ [] }
        ensures marks { (n : ℕ) → noted_at self.new n ≡ false }
    {
        self.slots.clear();
        begin_list(&mut self.stamps, &mut self.epoch);
        if let Some(list) = &mut self.list {
            list.clear();
        }
    }
}

/// The slot's stamp.
#[inline(always)]
pub(crate) fn stamp_in(stamps: &[u8], slot: usize) -> u8
    ensures { result ≡ slice_index stamps.now slot }
{
    match stamps.get(slot) {
        Some(stamp) => *stamp,
        None => 0,
    }
}

/// Makes a stamp for each of the first slots, up to this count: those that are new are of no list.
#[inline(always)]
fn grow(stamps: &mut Vec<u8>, count: usize) -> Result<(), AllocError>
    ensures covered { OnOk result (count ≤ length stamps.new.items) }
    ensures same { (n : ℕ) → slice_index stamps.new.items n ≡ slice_index stamps.old.items n }
{
    if stamps.len() < count {
        stamps.resize(count, 0)?;
    }
    Ok(())
}

/// Begins another list, which no stamp is of. Once in 255 lists the stamps begin anew.
fn begin_list(stamps: &mut Vec<u8>, epoch: &mut u8)
    requires { AreStamps stamps.old.items epoch.old }
    ensures stamps { AreStamps stamps.new.items epoch.new }
    ensures anew { (n : ℕ) → slice_index stamps.new.items n < epoch.new }
{
    if *epoch == u8::MAX {
        stamps.clear();
        *epoch = 1;
    } else {
        *epoch += 1;
    }
}
