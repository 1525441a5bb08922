//! The place of an item's key, which its group names, and what the group lists of it.
ghost use Rattle.std.specs.Prelude.{◌≡◌};
ghost use Rattle.ide_batch.specs.Grouping.{kind_at, member_of};

use ide_wire::{Fact, Key};

/// What a group lists of an item.
pub(crate) fn member_of<F: Copy>(item: (Key, F, bool)) -> (Fact, Fact, F, bool)
    ensures { result ≡ member_of item }
{
    let (key, function, pending) = item;
    match key {
        Key::Jump(_, first, second) | Key::Summary(_, first, second) => {
            (first, second, function, pending)
        }
    }
}

/// 0 for a jump and 1 for a summary.
pub(crate) fn kind_of(key: Key) -> u8
    ensures { result ≡ kind_at key }
{
    match key {
        Key::Jump(_, _, _) => 0,
        Key::Summary(_, _, _) => 1,
    }
}
