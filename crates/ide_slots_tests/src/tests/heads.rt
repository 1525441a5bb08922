//! First pages of slots, as their bytes are written down.
use ide_journal::Version;
use ide_slots::{SlotHead, read_head, spell_head};
use std::alloc::AllocGlobal;
use std::process::Abort;
use std::test::Fail;

/// What the first page tells of the first checkpoint of a store with a load, a root and a batch.
const WORKED: SlotHead = SlotHead {
    version: Version::Two,
    tag: 1,
    generation: 1,
    base: 3,
    commands: 2,
    parts: 1,
};

/// All of that page before the zeros: the letters and the tag, the generation, the base, the commands
/// and the parts.
const TOLD: [u8; 33] = [
    0x49, 0x44, 0x45, 0x4a, 0x52, 0x4e, 0x4c, 0x32, 1, 1, 0, 0, 0, 0, 0, 0, 0, 3, 0, 0, 0, 0, 0, 0,
    0, 2, 0, 0, 0, 1, 0, 0, 0,
];

/// The first page of a store on one disk, before the zeros.
const STORE: [u8; 9] = [0x49, 0x44, 0x45, 0x4a, 0x52, 0x4e, 0x4c, 0x31, 0x4c];

#[test]
fn spells_the_worked_page(rt: HostRuntime) -> Result<(), Fail> {
    let page = spell_head(rt.alloc(), &WORKED)?;
    assert!(rt; page.len() == 4096);
    assert!(rt; page.starts_with(&TOLD));
    assert!(rt; page.iter().skip(33).all(|byte| *byte == 0));
    Ok(())
}

#[test]
fn reads_the_worked_page(rt: HostRuntime) -> Result<(), Fail> {
    let mut page = [0; 4097];
    page[..33].copy_from_slice(&TOLD);
    assert!(rt; read_head(&page) == Some(WORKED));
    Ok(())
}

#[test]
fn reads_a_store_on_one_disk_as_of_generation_0(rt: HostRuntime) -> Result<(), Fail> {
    let mut page = [0; 4097];
    page[..9].copy_from_slice(&STORE);
    let told = SlotHead {
        version: Version::One,
        tag: 0x4c,
        generation: 0,
        base: 0,
        commands: 0,
        parts: 0,
    };
    assert!(rt; read_head(&page) == Some(told));
    Ok(())
}
