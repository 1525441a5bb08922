//! The tag of a store on two disks, as it is told before an opening.
use super::journal::{create, disk};
use ide_disk::MemDisk;
use ide_slot_journal::current_tag;
use ide_wire::Refused;
use std::process::Abort;
use std::test::Fail;

/// Asserts that the disks tell that tag, or that refusal.
fn expect_tag(
    rt: &impl Abort,
    disks: (MemDisk, MemDisk),
    expected: Result<u8, Refused>,
) -> Result<(), Fail> {
    let (mut a, mut b) = disks;
    assert!(rt; current_tag(&mut a, &mut b) == expected);
    Ok(())
}

// Empty disks hold no store; a store tells its tag; a disk that answers no call is at fault.
#[test]
fn a_store_tells_its_tag(rt: HostRuntime) -> Result<(), Fail> {
    let alloc = rt.alloc();
    expect_tag(&rt, (disk(alloc)?, disk(alloc)?), Err(Refused::NotAStore))?;
    let (a, b) = create(alloc, disk(alloc)?, disk(alloc)?)?.into_disks();
    expect_tag(&rt, (a, b), Ok(1))?;
    let (a, mut b) = create(alloc, disk(alloc)?, disk(alloc)?)?.into_disks();
    b.fail_at(b.calls().saturating_add(1));
    expect_tag(&rt, (a, b), Err(Refused::Disk))
}
