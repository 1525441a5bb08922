//! Which of two slots is current.
ghost use Rattle.std.specs.Prelude.{◌≡◌, ◌↔◌, ◌<◌, IsTrue, IfOk, IfErr, IfSome, IfNone};
ghost use Rattle.ide_slots.specs.Current.{BeginsSo, HasNoCurrent, IsBehindOpen, IsFoundIn, IsNoSlot, files};
ghost use Rattle.ide_slots.specs.Refusals.{IsChoiceRefusal};

use crate::{Side, SlotHead, read_head};
use ide_wire::Refused;

/// The slot that an opening takes, and what its first page tells.
#[derive(Clone, Copy, PartialEq, Eq, Debug)]
pub struct Current {
    pub side: Side,
    pub head: SlotHead,
}

// How a slot begins: its first gate is closed, or open behind a first page that tells this.
#[derive(Drop)]
enum Beginning {
    Closed,
    Open(SlotHead),
}

impl Beginning {
    // Whether it is closed, or of a lesser generation than that of this first page.
    fn is_behind(&self, head: &SlotHead) -> bool
        ensures { IsTrue result ↔ IsBehindOpen self.now head.now }
    {
        match self {
            Beginning::Closed => true,
            Beginning::Open(own) => own.generation < head.generation,
        }
    }
}

// How the file begins, if as a slot.
fn read_beginning(bytes: &[u8]) -> Option<Beginning>
    ensures begins { IfSome result (λ beginning. BeginsSo beginning bytes.now) }
    ensures none { IfNone result (IsNoSlot bytes.now) }
{
    if bytes.len() <= 4096 {
        return None;
    }
    if bytes[4096] == 0 {
        return Some(Beginning::Closed);
    }
    match read_head(bytes) {
        Some(head) => Some(Beginning::Open(head)),
        None => None,
    }
}

/// The current slot of two files, A and B: of the open ones that of greater generation, A where they
/// are equal or none is open. There is none where a file has less than 4,097 bytes, or where the first
/// page of an open slot, or of the current one, is not valid. Bytes behind the first gates are not read.
pub fn find_current(first: &[u8], second: &[u8]) -> Option<Current>
    ensures current { IfSome result (IsFoundIn (files first.now second.now)) }
    ensures none { IfNone result (HasNoCurrent (files first.now second.now)) }
{
    let a = read_beginning(first)?;
    if let Beginning::Open(head) = read_beginning(second)? {
        if a.is_behind(&head) {
            return Some(Current {
                side: Side::Second,
                head,
            });
        }
    }
    match read_head(first) {
        Some(head) => Some(Current {
            side: Side::First,
            head,
        }),
        None => None,
    }
}

/// The current slot of two files, A and B, if it has that tag. The refusal is E4 where no slot is
/// current, and E5 where the current one has another tag.
#[tactic(auto, using(crate::specs::Refusals::no_current))]
pub fn choose_slot(first: &[u8], second: &[u8], tag: u8) -> Result<Current, Refused>
    ensures current { IfOk result (IsFoundIn (files first.now second.now)) }
    ensures tag { IfOk result (λ found. found.head.head.tag ≡ tag) }
    ensures refused { IfErr result (IsChoiceRefusal tag (files first.now second.now)) }
{
    let Some(found) = find_current(first, second) else {
        return Err(Refused::NotAStore);
    };
    if found.head.tag != tag {
        return Err(Refused::WrongInstance);
    }
    Ok(found)
}
