//! What changed, read where it stands.
ghost use Rattle.std.specs.Prelude.{◌≡◌, length};
ghost use Rattle.ide_image.specs.Ranks.{HaveItems, items_in};

use crate::indexed::Indexed;
use crate::parts;
use crate::queue::Queue;
use ide_lattice::EdgeFn;
use ide_wire::Key;
use std::marker::Model;

/// The keys that changed and are present, ascending, each with its function and whether it is pending. They are
/// read from the image as they come: until then there is a number of four bytes for each.
#[derive(Drop)]
pub struct ChangedItems<'a, F: EdgeFn> {
    indexed: &'a Indexed<F>,
    queue: &'a Queue,
    /// The slot of each.
    slots: Vec<u32>,
    /// How many have come.
    next: usize,
}

impl<'a, F: EdgeFn> Model for ChangedItems<'a, F> {
    ghost use Rattle.std.specs.Prelude.{◌≤◌, Bool, List, drop, length};
    ghost use Rattle.ide_image.specs.Ranks.{HaveItems, items_in};
    ghost use Rattle.ide_wire.specs.declared.key.Key.{Key};

    ghost Value = { List (Key × F × Bool) };

    ghost view = { λ c. items_in c.indexed.now c.queue.now (drop c.next c.slots.items) };

    ghost invariant = { λ c. HaveItems c.indexed.now c.queue.now c.slots.items × (c.next ≤ length c.slots.items) };
}

impl<'a, F: EdgeFn> ChangedItems<'a, F> {
    /// The items of slots that have one each.
    pub(crate) fn new(indexed: &'a Indexed<F>, queue: &'a Queue, slots: Vec<u32>) -> Self
        requires { HaveItems indexed.now queue.now slots.items }
        ensures { result ≡ items_in indexed.now queue.now slots.items }
    {
        ChangedItems {
            indexed,
            queue,
            slots,
            next: 0,
        }
    }

    /// How many have not come yet.
    pub fn len(&self) -> usize
        ensures { result ≡ length self.now }
    {
        self.slots.len() - self.next
    }
}

impl<'a, F: EdgeFn> Iterator for ChangedItems<'a, F> {
    ghost use Rattle.std.specs.Iterator.{YieldsFirst, item_count};

    type Item = (Key, F, bool);

    ghost next_gives = { YieldsFirst (λ items. items) };

    ghost remaining = { item_count (λ items. items) };

    #[inline(always)]
    fn next(&mut self) -> Option<(Key, F, bool)> {
        let slot = *self.slots.get(self.next)?;
        self.next += 1;
        parts::item_at(self.indexed, self.queue, slot)
    }
}
