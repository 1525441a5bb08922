//! Which of two slots is current, from their bytes.
use ide_slots::{Side, choose_slot};
use ide_wire::Refused;
use std::process::Abort;

/// The first gate of an open slot.
const OPEN: u8 = 1;

/// The first gate of a slot that is not open.
const CLOSED: u8 = 0;

/// The first page of a slot of version 2, tag 7 and that generation, with two commands and one part,
/// and its first gate.
fn slot(generation: u8, gate: u8) -> [u8; 4097] {
    let mut bytes = [0; 4097];
    bytes[..9].copy_from_slice(b"IDEJRNL2\x07");
    bytes[9] = generation;
    bytes[17] = 3;
    bytes[25] = 2;
    bytes[29] = 1;
    bytes[4096] = gate;
    bytes
}

/// That of slots of these generations and gates the one of that side and generation is current.
fn takes(first: (u8, u8), second: (u8, u8), side: Side, generation: u32) -> bool {
    let (first, second) = (slot(first.0, first.1), slot(second.0, second.1));
    choose_slot(&first, &second, 7).is_ok_and(|it| it.side == side
        && it.head.generation == generation)
}

#[test]
fn takes_the_open_slot_of_greater_generation(rt: HostRuntime) {
    assert!(rt; takes((1, OPEN), (2, OPEN), Side::Second, 2));
    assert!(rt; takes((2, OPEN), (1, OPEN), Side::First, 2));
    assert!(rt; takes((1, OPEN), (1, OPEN), Side::First, 1));
}

#[test]
fn takes_the_open_slot_or_a(rt: HostRuntime) {
    assert!(rt; takes((2, CLOSED), (1, OPEN), Side::Second, 1));
    assert!(rt; takes((1, OPEN), (2, CLOSED), Side::First, 1));
    assert!(rt; takes((2, CLOSED), (2, CLOSED), Side::First, 2));
}

#[test]
fn tells_why_no_slot_is_taken(rt: HostRuntime) {
    let (one, broken) = (slot(1, OPEN), [1; 4097]);
    assert!(rt; choose_slot(&one, &one, 8) == Err(Refused::WrongInstance));
    assert!(rt; choose_slot(&one, &broken, 7) == Err(Refused::NotAStore));
    assert!(rt; choose_slot(&one, &one[..4096], 7) == Err(Refused::NotAStore));
}
