//! How programs are printed, and that each text is spelled in one way.
use super::graphs::program_of;
use super::texts::{expect_answered, given, made, repeated};
use ide_text::{Program, parse, print};
use ide_wire::Fault;
use std::process::Abort;

/// The text of the program, behind what was there before.
fn printed(rt: &(impl Abort + AllocGlobal), program: &Program) -> Vec<u8> {
    let mut out = made(rt, Vec::from_slice(rt.alloc(), b"before "));
    given(rt, print(program, &mut out));
    out
}

/// Whether that is the text, behind what was there before.
fn is_printed(printed: &[u8], text: &[u8]) -> bool {
    printed.len() >= 7 && &printed[..7] == b"before ".as_slice() && &printed[7..] == text
}

/// That the program is printed as that text.
fn expect_spelled(rt: &(impl Abort + AllocGlobal), program: &Program, text: &[u8]) {
    let printed = printed(rt, program);
    assert!(rt; is_printed(printed.as_slice(), text), "not as it stands");
}

/// That a copy of the program that the text spells is printed as the text stands.
fn expect_printed(rt: &(impl Abort + AllocGlobal), text: &str) {
    let program = program_of(rt, text.as_bytes());
    let copy = given(rt, program.copy(rt.alloc()));
    expect_spelled(rt, &copy, text.as_bytes());
}

/// Programs with each statement of the grammar.
const PROGRAMS: [&str; 14] = [
    "proc main\nvar x\nx = 5\nend\n",
    "proc main\nend\n",
    "proc main\nvar x\nvar y\nx = 5\ny = x\nend\n",
    "proc main\nvar x\nbranch other\nx = 5\ngoto done\nat other\nx = 5\nat done\nend\n",
    "proc id p\nreturn p\nend\nproc main\nvar a\nvar b\nvar x\nvar y\na = 5\nb = 6\nx = call id a\ny = call id b\nend\n",
    "proc f y\nvar x\nbranch other\nx = y + 1\ngoto done\nat other\nx = 7\nat done\nreturn x\nend\nproc main\nvar a\nvar b\nvar u\nvar v\na = 6\nb = 5\nu = call f a\nv = call f b\nend\n",
    "proc main\nvar x\nvar y\nx = 18446744073709551615\ny = x + 1\nend\n",
    "global g\nproc rec\nbranch done\ng = g + 1\ncall rec\nat done\nend\nproc main\ng = 0\ncall rec\nend\n",
    "proc main\nvar x\nx = 1\ngoto done\nx = 2\nat done\nend\n",
    "proc main\nvar x\nvar y\ny = x\nx = 1\nend\n",
    "global g\nglobal h_1\nproc p a b\nskip\na = ?\nb = mix a g\na = b - 0\nreturn\nend\n",
    "proc f p\nend\nproc h p\nend\nproc k p\nend\nproc main x\ncall f | h x\nx = call k | f | h x\ncall h | f x\nend\n",
    "proc a\nend\nproc b\nend\nproc c\nend\nproc d\nend\nproc e\nend\nproc f\nend\nproc g\nend\nproc main\ncall a | b | c | d | e | f | g | main\nend\n",
    "proc _\nvar a234567890123456789012345678901\nend\n",
];

#[test]
fn prints_what_it_parsed(rt: HostRuntime) {
    for text in &PROGRAMS {
        expect_printed(&rt, text);
    }
}

/// That the text, if it is a program, is printed as it stands.
fn expect_told(rt: &(impl Abort + AllocGlobal), text: &[u8]) {
    match parse(rt.alloc(), text) {
        Ok(program) => expect_spelled(rt, &program, text),
        Err(_) => {}
    }
}

/// Puts the byte at that place.
fn put(text: &mut [u8], place: usize, byte: u8) {
    if let Some(old) = text.get_mut(place) {
        *old = byte;
    }
}

/// That the text with that byte at that place, if it is a program, is printed as it stands.
fn expect_changed(rt: &(impl Abort + AllocGlobal), text: &[u8], place: usize, byte: u8) {
    let mut changed = made(rt, Vec::from_slice(rt.alloc(), text));
    put(changed.as_mut_slice(), place, byte);
    expect_told(rt, changed.as_slice());
}

#[test]
fn each_byte_tells(rt: HostRuntime) {
    let text =
        b"global g\nproc f y\nvar x\nbranch b\nx = y + 10\nat b\ng = call f x\ncall f | h g\nend\nproc h z\nend\n";
    for place in 0..text.len() {
        expect_changed(&rt, text, place, b' ');
        expect_changed(&rt, text, place, b'\n');
        expect_changed(&rt, text, place, b'0');
        expect_changed(&rt, text, place, b'g');
        expect_changed(&rt, text, place, b'|');
    }
}

/// That no line of the grammar has that spelling, in the one procedure of a text.
fn expect_no_such_line(rt: &(impl Abort + AllocGlobal), line: &str) {
    let text = repeated(rt, "proc main\n", line, 1, "\nend\n");
    expect_answered(rt, text.as_slice(), Some((2, Fault::NoSuchLine)), line);
}

/// That no line of the grammar is spelled as a line of the text.
fn expect_no_such_lines(rt: &(impl Abort + AllocGlobal), text: &str) {
    for line in text.split('\n') {
        expect_no_such_line(rt, line);
    }
}

#[test]
fn spells_spaces_and_numbers_in_one_way(rt: HostRuntime) {
    for line in [
        "skip ", " skip", "skip  ", "", "x  = 5", "x = 05", "x = 00", "x = -5", "x = +5", "x\t=\t5",
    ] {
        expect_no_such_line(&rt, line);
    }
    expect_no_such_line(&rt, "x = 18446744073709551616");
    expect_no_such_line(&rt, "x = 99999999999999999999999999");
}

/// Lines that are almost statements.
const STATEMENTS: &str = "\
x = 5 + x
x = x + x
x = x * 2
x =
x
x = ? ?
x = mix x
x = mix x x x
x = call
call
return 5
return x x
at
at 5
goto L L
end end
proc
proc p 5
global
global g g
# comment";

#[test]
fn spells_each_statement_in_one_way(rt: HostRuntime) {
    expect_no_such_lines(&rt, STATEMENTS);
}

/// Lines that are almost calls of several procedures.
const CALLEES: &str = "\
call | p
call p |
call |
x = call |
call p | | q
call p || q
call p| q
call p |q
call p|q
call p  | q
call p |  q
call p x | q
x = call p | q x | r
call p | q x |
call p | 5
call p | mix
| call p
x | y = call p
x = y | z
goto L | M
return x | y
|";

#[test]
fn spells_each_list_of_callees_in_one_way(rt: HostRuntime) {
    expect_no_such_lines(&rt, CALLEES);
    expect_no_such_line(&rt, "call p | ");
}

#[test]
fn spells_each_name_in_one_way(rt: HostRuntime) {
    for line in ["call mix", "mix = 5", "x = skip", "skip\r", "skip\0", "\0"] {
        expect_no_such_line(&rt, line);
    }
    expect_no_such_line(&rt, "X = \u{e4}");
    expect_no_such_line(&rt, "var a2345678901234567890123456789012");
}
