//! The slot of a worked checkpoint, read from its bytes.
use ide_slots::{LoadedSlot, read_head, read_slot};
use ide_wire::Refused;
use std::alloc::{AllocGlobal, Global};
use std::process::Abort;
use std::test::Fail;

/// Puts a record, behind an open gate, at the start of a page.
fn put(page: &mut [u8; 4096], kind: u8, number: u8, body: u8) {
    page[0] = 1;
    page[1] = kind;
    page[2] = number;
    page[10] = 1;
    page[14] = body;
}

/// The slot of a checkpoint with a load and a root, under their old numbers 0 and 1, and one part,
/// behind which a record is stored under the number 3.
fn worked(alloc: Global) -> Result<Vec<u8>, Fail> {
    let mut bytes = Vec::with_capacity(alloc, 20481)?;
    bytes.extend_from_slice(b"IDEJRNL2\x07\x01\0\0\0\0\0\0\0\x03\0\0\0\0\0\0\0\x02\0\0\0\x01")?;
    bytes.resize(4096, 0)?;
    for (kind, number, body) in [(1, 0, 0x70), (2, 1, 0x6d), (4, 0, 7), (3, 3, 9)] {
        let mut page = [0; 4096];
        put(&mut page, kind, number, body);
        bytes.extend_from_slice(&page)?;
    }
    bytes.push(0)?;
    Ok(bytes)
}

/// What is read of these bytes.
fn read(alloc: Global, bytes: &[u8]) -> Result<LoadedSlot, Refused> {
    if bytes.len() <= 4096 {
        return Err(Refused::NotAStore);
    }
    match read_head(bytes) {
        Some(head) => read_slot(alloc, bytes, head),
        None => Err(Refused::NotAStore),
    }
}

#[test]
fn reads_the_records_of_a_checkpoint(rt: HostRuntime) -> Result<(), Fail> {
    let bytes = worked(rt.alloc())?;
    let slot = read(rt.alloc(), &bytes)?;
    let expected = [(1, 0, 0x70), (2, 1, 0x6d), (4, 0, 7), (3, 3, 9)];
    assert!(rt; slot.records.len() == 4);
    for (found, (kind, number, body)) in slot.records.iter().zip(expected) {
        assert!(rt; found.number == number && found.raw.kind == kind);
        assert!(rt; found.raw.body.as_slice() == [body].as_slice());
    }
    assert!(rt; slot.gate == 20480);
    Ok(())
}

/// The place that is told where one byte of the worked slot is another one.
fn place(alloc: Global, at: usize, byte: u8) -> Result<Option<u64>, Fail> {
    let mut bytes = worked(alloc)?;
    if let Some(it) = bytes.get_mut(at) {
        *it = byte;
    }
    match read(alloc, &bytes) {
        Err(Refused::Damaged(place)) => Ok(Some(place)),
        _ => Ok(None),
    }
}

#[test]
fn tells_the_place_of_what_is_missing_or_not_whole(rt: HostRuntime) -> Result<(), Fail> {
    let alloc = rt.alloc();
    assert!(rt; place(alloc, 12288, 0)? == Some(2), "the part is missing");
    assert!(rt;
        place(alloc, 4097, 3)? == Some(0),
        "a batch stands where a command has to"
    );
    assert!(rt; place(alloc, 8194, 0)? == Some(1), "a number comes twice");
    assert!(rt; place(alloc, 16386, 4)? == Some(3), "a number is left out");
    assert!(rt;
        place(alloc, 16384, 0)? == None,
        "it ends behind its checkpoint"
    );
    Ok(())
}
