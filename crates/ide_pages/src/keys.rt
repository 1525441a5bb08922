//! Pages of keys: which page a key is on, and at which of its 64 offsets.
ghost use Rattle.std.specs.Prelude.{◌≡◌, ◌%◌, ◌<◌, ◌^◌};
ghost use Rattle.ide_pages.specs.Pages.{IsPage, IsSmall, key_on, listed_fact, offset_of, page_of, row_of};

use ide_wire::{Fact, Key};

// The key that names the key's page: that of its block of 64 nodes, for a summary of 64 facts at the return site.
pub(crate) fn page_of(key: Key) -> Key
    ensures page { result ≡ page_of key }
    ensures is { IsPage result }
    ensures small { IsSmall result }
{
    match key {
        Key::Jump(node, from, to) => Key::Jump(node / 64, from, to),
        Key::Summary(call, from, to) => Key::Summary(call, from, to / 64),
    }
}

/// The key's offset on its page, of 64: the remainder of a jump's node, or of the fact to which a summary leads.
pub fn offset_of(key: Key) -> usize
    ensures offset { result ≡ offset_of key }
    ensures within { result < 64 }
{
    match key {
        Key::Jump(node, _, _) => (node % 64) as usize,
        Key::Summary(_, _, to) => usize::from(to % 64),
    }
}

// The key at an offset of the page.
pub(crate) fn key_on(page: Key, offset: usize) -> Key
    requires small { IsSmall page }
    requires within { offset < 64 }
    ensures { result ≡ key_on page offset }
{
    match page {
        Key::Jump(block, from, to) => Key::Jump(64 * block + offset as u32, from, to),
        Key::Summary(call, from, block) => Key::Summary(call, from, 64 * block + offset as Fact),
    }
}

// The number of a row tells the kind in its highest part, 0 of a jump and 1 of a summary; then the block of nodes, or the
// call, and the fact that its pages have in common.

/// How far the numbers of the rows of summaries stand behind those of jumps.
const KIND: u64 = 0x1_0000_0000_0000;

/// How far those of a block, or of a call, stand behind those of the one before: it has one for each fact.
const BLOCK: u64 = 0x1_0000;

// The number of the page's row.
pub(crate) fn row_of(page: Key) -> u64
    requires page { IsPage page }
    ensures row { result ≡ row_of page }
{
    match page {
        Key::Jump(block, _, to) => u64::from(block) * BLOCK + u64::from(to),
        Key::Summary(call, from, _) => KIND + u64::from(call) * BLOCK + u64::from(from),
    }
}

// What tells the page from the others of its row: a jump's fact at the start, a summary's block of facts at the end.
pub(crate) fn listed_fact(page: Key) -> Fact
    ensures { result ≡ listed_fact page }
{
    match page {
        Key::Jump(_, from, _) => from,
        Key::Summary(_, _, block) => block,
    }
}
