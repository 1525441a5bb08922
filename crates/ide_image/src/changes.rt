//! Notes of what changed: keys, each with the entry that it had.
ghost use Rattle.std.specs.Prelude.{◌≡◌, ◌+◌, ◌<◌, ◌≤◌, ◌++◌, ◌∷◌, [], ◌↔◌, IsTrue, OnOk, length, slice_get, vec_capacity, vec_len};
ghost use Rattle.ide_image.specs.Changes.{KeepsCodes, entry_under};

use crate::entry::Entry;
use ide_wire::Key;
use std::alloc::{AllocError, Global};
use std::marker::Model;

/// The most entries that are kept, so that one more than the place of each has 32 bits.
const MOST_ENTRIES: usize = 4_294_967_295;

/// Keys that changed, each with the entry that it had before, in the order of their first changes. One that was absent and
/// not pending, as nearly all were, takes 16 bytes; another one those of its entry beside them.
#[derive(Drop)]
pub struct Changes<F: Drop> {
    /// Each key, with one more than the place of its entry: with 0, if it was absent and not pending.
    keys: Vec<(Key, u32)>,
    /// The entries of the others.
    entries: Vec<Entry<F>>,
}

impl<F: Drop> Model for Changes<F> {
    ghost use Rattle.ide_image.specs.Changes.{AreCodes, Changes, notes_by, notes_room};

    ghost Value = { Changes F };

    ghost view = { λ c. record { items = notes_by c.keys.items c.entries.items; room = notes_room c.keys c.entries } };

    ghost invariant = { λ c. AreCodes c.keys.items c.entries.items };
}

impl<F: Copy + Drop> Changes<F> {
    /// No change. It allocates nothing.
    pub(crate) fn new(alloc: Global) -> Self
        ensures { result.items ≡ [] }
    {
        Changes {
            keys: Vec::new(alloc),
            entries: Vec::new(alloc),
        }
    }

    /// How many keys changed.
    pub fn len(&self) -> usize
        ensures { result ≡ length self.now.items }
    {
        self.keys.len()
    }

    /// Whether none did.
    pub fn is_empty(&self) -> bool
        ensures { IsTrue result ↔ (self.now.items ≡ []) }
    {
        self.keys.is_empty()
    }

    /// The key that changed at an index in their order, and the entry that it had before. It takes constant time.
    #[inline(always)]
    pub fn get(&self, index: usize) -> Option<(Key, Entry<F>)>
        ensures { result ≡ slice_get self.now.items index }
    {
        let (key, code) = *self.keys.get(index)?;
        Some((key, entry_under(&self.entries, code)))
    }

    /// Makes room for so many more. At most 4,294,967,295 keys that had an entry are noted.
    #[inline(always)]
    pub(crate) fn reserve(&mut self, additional: usize) -> Result<(), AllocError>
        ensures items { self.new.items ≡ self.old.items }
        ensures room { OnOk result (additional ≤ self.new.room) }
    {
        self.keys.reserve(additional)?;
        self.entries.reserve(additional)?;
        if self.entries.len() > MOST_ENTRIES || additional > MOST_ENTRIES - self.entries.len() {
            return Err(AllocError);
        }
        Ok(())
    }

    /// Notes a key, for which there is room, with its entry.
    #[inline(always)]
    pub(crate) fn push(&mut self, key: Key, before: Entry<F>)
        requires room { 0 < self.old.room }
        ensures items { self.new.items ≡ self.old.items ++ (key, before) ∷ [] }
        ensures room { self.old.room ≤ self.new.room + 1 }
    {
        let code = code_of(&mut self.entries, before);
        self.keys.push_reserved((key, code));
    }

    /// Forgets them. The room stays.
    pub(crate) fn clear(&mut self)
        ensures { self.new.items ≡ [] }
    {
        self.keys.clear();
        self.entries.clear();
    }
}

/// The entry under a code.
#[inline(always)]
fn entry_under<F: Copy + Drop>(entries: &[Entry<F>], code: u32) -> Entry<F>
    ensures { result ≡ entry_under entries.now code }
{
    let absent = Entry {
        function: None,
        pending: false,
    };
    if code == 0 {
        return absent;
    }
    match entries.get(code as usize - 1) {
        Some(entry) => *entry,
        None => absent,
    }
}

/// Keeps an entry, for which there is room, unless it is that of an absent key, and answers its code.
#[inline(always)]
fn code_of<F: Copy + Drop>(entries: &mut Vec<Entry<F>>, before: Entry<F>) -> u32
    requires room { vec_len entries.old < vec_capacity entries.old }
    requires few { vec_len entries.old < 4294967295 }
    ensures kept { entry_under entries.new.items result ≡ before }
    ensures others { KeepsCodes entries.old.items entries.new.items }
    ensures code { result ≤ length entries.new.items }
    ensures len { vec_len entries.new ≤ vec_len entries.old + 1 }
    ensures capacity { vec_capacity entries.new ≡ vec_capacity entries.old }
{
    if before.function.is_none() && !before.pending {
        return 0;
    }
    entries.push_reserved(before);
    entries.len() as u32
}
