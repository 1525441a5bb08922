//! Long texts, and what a text is answered. A test ends where there is no memory.
use ide_text::parse;
use ide_wire::{Fault, Refused};
use itoa::Buffer;
use std::alloc::{AllocError, Global};
use std::process::Abort;

/// What a call gave that is not to be refused.
pub(crate) fn given<T>(rt: &impl Abort, found: Result<T, Refused>) -> T {
    found.expect(rt, "this is not to be refused")
}

/// What there was memory for.
pub(crate) fn made<T>(rt: &impl Abort, found: Result<T, AllocError>) -> T {
    found.expect(rt, "there is memory for this")
}

/// Whether the text is refused for that fault of that line, or is a program where none is given.
fn is_answered(alloc: Global, text: &[u8], expected: Option<(u32, Fault)>) -> bool {
    match (parse(alloc, text), expected) {
        (Ok(_), None) => true,
        (Err(refused), Some((line, fault))) => refused == Refused::Text { line, fault },
        _ => false,
    }
}

/// That the text is refused for that fault of that line, or is a program where none is given.
pub(crate) fn expect_answered(
    rt: &(impl Abort + AllocGlobal),
    text: &[u8],
    expected: Option<(u32, Fault)>,
    part: &str,
) {
    let answered = is_answered(rt.alloc(), text, expected);
    assert!(rt; answered, "at {part}");
}

/// Appends to the text.
fn add(rt: &impl Abort, text: &mut Vec<u8>, part: &[u8]) {
    made(rt, text.extend_from_slice(part));
}

/// Appends that many copies of a part.
fn add_copies(rt: &impl Abort, text: &mut Vec<u8>, part: &str, count: usize) {
    for _ in 0..count {
        add(rt, text, part.as_bytes());
    }
}

/// The text, that many copies of a part of it, and the rest.
pub(crate) fn repeated(
    rt: &(impl Abort + AllocGlobal),
    head: &str,
    part: &str,
    count: usize,
    tail: &str,
) -> Vec<u8> {
    let mut text = Vec::new(rt.alloc());
    add(rt, &mut text, head.as_bytes());
    add_copies(rt, &mut text, part, count);
    add(rt, &mut text, tail.as_bytes());
    text
}

/// Appends the number.
fn add_number(rt: &impl Abort, text: &mut Vec<u8>, number: u32) {
    add(rt, text, Buffer::new().format(number).as_bytes());
}

/// Appends a line for each number below that count, with the number between both parts.
fn add_lines(rt: &impl Abort, text: &mut Vec<u8>, first: &str, last: &str, count: u32) {
    for number in 0..count {
        add(rt, text, first.as_bytes());
        add_number(rt, text, number);
        add(rt, text, last.as_bytes());
    }
}

/// The text, a line for each number below that count, with the number between both parts, and the
/// rest.
pub(crate) fn numbered(
    rt: &(impl Abort + AllocGlobal),
    head: &str,
    parts: (&str, &str),
    count: u32,
    tail: &str,
) -> Vec<u8> {
    let mut text = Vec::new(rt.alloc());
    add(rt, &mut text, head.as_bytes());
    add_lines(rt, &mut text, parts.0, parts.1, count);
    add(rt, &mut text, tail.as_bytes());
    text
}
