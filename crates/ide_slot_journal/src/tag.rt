//! The tag of a store on two disks, which tells its analysis.
ghost use Rattle.ide_journal.specs.Moments.{OnlyLooks};
ghost use Rattle.ide_slot_journal.specs.Opening.{CountsFaultsOfTwo, RefusesTag, TellsTag};

use crate::opening::read_front;
use ide_disk::Disk;
use ide_slots::find_current;
use ide_wire::Refused;

/// The tag of the slot that an opening of the disks A and B takes as current. Both are read, and stay as
/// they are.
///
/// Refusals: `Disk`, where a call of a disk failed; `NotAStore`, where no slot is current.
#[tactic(auto, using(crate::specs::Opening::tag_device))]
pub fn current_tag<D: Disk>(a: &mut D, b: &mut D) -> Result<u8, Refused>
    ensures tag { TellsTag D.Disk result a.old b.old }
    ensures first_same { OnlyLooks D.Disk a.old a.new }
    ensures second_same { OnlyLooks D.Disk b.old b.new }
    ensures failures { CountsFaultsOfTwo D.Disk result a.old b.old a.new b.new }
    ensures refused { RefusesTag D.Disk result a.old b.old }
{
    let first = read_front(a)?;
    let second = read_front(b)?;
    match find_current(&first, &second) {
        Some(found) => Ok(found.head.tag),
        None => Err(Refused::NotAStore),
    }
}
