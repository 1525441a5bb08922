//! What texts that are no programs are refused for, and the limits of those that are.
use super::texts::{expect_answered, numbered, repeated};
use ide_wire::Fault;
use std::process::Abort;

/// That the text is refused for that fault of that line.
fn expect_fault(rt: &(impl Abort + AllocGlobal), text: &str, line: u32, fault: Fault) {
    expect_answered(rt, text.as_bytes(), Some((line, fault)), text);
}

/// A text with a global that is declared twice.
const TWO_GLOBALS: &str = "global g\nglobal g\nproc main\nend\n";

/// A text that goes to a label of another procedure.
const OTHER_LABEL: &str = "proc p\nat L\nend\nproc main\ngoto L\nend\n";

/// A text that assigns a variable of another procedure.
const OTHER_VARIABLE: &str = "proc p x\nend\nproc main\nx = 5\nend\n";

/// A text with a call of more arguments than there are parameters.
const MORE_ARGUMENTS: &str = "proc p a\nend\nproc main\nvar x\ncall p x x\nend\n";

/// A text with a call of fewer arguments, and a procedure that is declared twice.
const FEWER_ARGUMENTS: &str = "proc p a\nend\nproc main\ncall p\nend\nproc p\nend\n";

/// Texts that are refused: for which fault, in which line, and the text.
const TEXTS: [(Fault, u32, &str); 37] = [
    (Fault::NoSuchLine, 2, "proc main\nend"),
    (Fault::NoSuchLine, 1, "skip"),
    (Fault::NoSuchLine, 3, "proc main\nx = 5\nskip \nend\n"),
    (Fault::OutOfPlace, 1, ""),
    (Fault::OutOfPlace, 2, "global g\n"),
    (Fault::OutOfPlace, 2, "proc main\n"),
    (Fault::OutOfPlace, 3, "proc main\nend\nglobal g\n"),
    (Fault::OutOfPlace, 2, "proc main\nglobal g\nend\n"),
    (Fault::OutOfPlace, 2, "proc main\nproc p\nend\n"),
    (Fault::OutOfPlace, 3, "proc main\nskip\nvar x\nend\n"),
    (Fault::OutOfPlace, 1, "skip\n"),
    (Fault::OutOfPlace, 1, "var x\n"),
    (Fault::OutOfPlace, 1, "end\n"),
    (Fault::OutOfPlace, 3, "proc main\nend\nend\n"),
    (Fault::OutOfPlace, 3, "proc main\nend\nskip\n"),
    (Fault::DeclaredTwice, 3, "proc main\nvar x\nvar x\nend\n"),
    (Fault::DeclaredTwice, 2, "global g\nproc main g\nend\n"),
    (Fault::DeclaredTwice, 3, "global g\nproc main\nvar g\nend\n"),
    (Fault::DeclaredTwice, 1, "proc main a a\nend\n"),
    (Fault::DeclaredTwice, 2, "proc main a\nvar a\nend\n"),
    (Fault::DeclaredTwice, 3, "proc main\nend\nproc main\nend\n"),
    (Fault::DeclaredTwice, 3, "proc main\nat L\nat L\nend\n"),
    (Fault::NoSuchLabel, 2, "proc main\ngoto L\nend\n"),
    (Fault::NoSuchLabel, 2, "proc main\nbranch L\nend\n"),
    (Fault::NoSuchVariable, 2, "proc main\nx = call q\nend\n"),
    (Fault::NoSuchVariable, 2, "proc main\ncall q x\nend\n"),
    (Fault::NoSuchVariable, 2, "proc main\nx = 5\nend\n"),
    (Fault::NoSuchVariable, 2, "proc main x\nx = y\nend\n"),
    (Fault::NoSuchVariable, 2, "proc main x\nx = mix x y\nend\n"),
    (Fault::NoSuchVariable, 2, "proc main x\nx = y - 1\nend\n"),
    (Fault::NoSuchVariable, 2, "proc main\nreturn x\nend\n"),
    (Fault::NoSuchProcedure, 2, "proc main\ncall q\nend\n"),
    (Fault::DeclaredTwice, 2, TWO_GLOBALS),
    (Fault::NoSuchLabel, 5, OTHER_LABEL),
    (Fault::NoSuchVariable, 4, OTHER_VARIABLE),
    (Fault::WrongArguments, 5, MORE_ARGUMENTS),
    (Fault::WrongArguments, 4, FEWER_ARGUMENTS),
];

/// That each of the texts is refused for that fault of that line.
fn expect_faults(rt: &(impl Abort + AllocGlobal), texts: &[(Fault, u32, &str)]) {
    for (fault, line, text) in texts {
        expect_fault(rt, text, *line, *fault);
    }
}

#[test]
fn finds_each_fault(rt: HostRuntime) {
    expect_faults(&rt, &TEXTS);
}

/// That the text with that line of `main` is answered so. It has three procedures, `p` and `q` of one
/// parameter and `s` of none, and `main` has the variable `x`: the line is the eighth.
fn expect_line(rt: &(impl Abort + AllocGlobal), line: &str, expected: Option<(u32, Fault)>) {
    let head = "proc p a\nend\nproc q a\nend\nproc s\nend\nproc main x\n";
    let text = repeated(rt, head, line, 1, "\nend\n");
    expect_answered(rt, text.as_slice(), expected, line);
}

/// That the line is a call.
fn expect_call(rt: &(impl Abort + AllocGlobal), line: &str) {
    expect_line(rt, line, None);
}

/// That each of the lines is refused for the fault.
fn expect_wrong(rt: &(impl Abort + AllocGlobal), fault: Fault, lines: &[&str]) {
    for line in lines {
        expect_line(rt, line, Some((8, fault)));
    }
}

#[test]
fn takes_calls_of_several_procedures(rt: HostRuntime) {
    expect_call(&rt, "call p | q x");
    expect_call(&rt, "x = call q | p x");
}

/// Calls of several procedures that are wrong, by the fault that is found: some have others too, and none
/// of them stands above it here.
const WRONG_CALLS: [(Fault, &[&str]); 4] = [
    (
        Fault::NoSuchVariable,
        &["call p | t | s | p y", "y = call p | t | s | p x"],
    ),
    (
        Fault::NoSuchProcedure,
        &[
            "call p | t x",
            "call t | p x",
            "call p | t | s | p x",
            "call p | t | p x",
            "call t | t x",
        ],
    ),
    (
        Fault::WrongArguments,
        &[
            "call p | q",
            "call p | s x",
            "call s | p x",
            "call p | s | p x",
            "call s | s x",
        ],
    ),
    (
        Fault::WrongCallees,
        &["call p | p x", "x = call p | q | p x", "call p | q | p x"],
    ),
];

#[test]
fn finds_the_least_fault_of_a_call(rt: HostRuntime) {
    for (fault, lines) in &WRONG_CALLS {
        expect_wrong(&rt, *fault, lines);
    }
}

#[test]
fn finds_the_least_line_of_wrong_callees(rt: HostRuntime) {
    let wrong = Fault::WrongCallees;
    let other = Fault::NoSuchProcedure;
    expect_fault(&rt, "proc p\ncall p | p\ncall q\nend\n", 2, wrong);
    expect_fault(
        &rt,
        "proc p\ncall p | p\nproc q\nend\n",
        3,
        Fault::OutOfPlace,
    );
    expect_fault(&rt, "proc p\ncall q\ncall p | p\nend\n", 2, other);
    expect_fault(&rt, "proc p\ncall p | p\nend\nproc p\nend\n", 2, wrong);
}

#[test]
fn takes_eight_callees_and_no_more(rt: HostRuntime) {
    let head =
        "proc a\nend\nproc b\nend\nproc c\nend\nproc d\nend\nproc e\nend\nproc f\nend\nproc g\nend\nproc h\nend\nproc i\nend\nproc main\n";
    let eight = "call a | b | c | d | e | f | g | h";
    let wrong = Some((20, Fault::WrongCallees));
    expect_repeated(&rt, head, eight, 1, "\nend\n", None);
    expect_repeated(&rt, head, eight, 1, " | i\nend\n", wrong);
    expect_repeated(
        &rt,
        head,
        "call i",
        1,
        " | i | i | i | i | i | i | i | i\nend\n",
        wrong,
    );
    // A line of many callees is one of the grammar: its fault is among those of names.
    expect_repeated(
        &rt,
        "proc main\ncall main",
        " | main",
        5_000,
        "\nend\n",
        Some((2, Fault::WrongCallees)),
    );
}

/// A text with a procedure of seventeen parameters.
const MANY_PARAMETERS: &str = "proc p a b c d e f g h i j k l m n o q r\nend\n";

/// The same behind a procedure with no end.
const NO_END_AND_MANY: &str = "proc p\nproc p a b c d e f g h i j k l m n o q r\nend\n";

/// A text with a call of no procedure, and a label that is not there in a procedure that is declared twice.
const NO_CALLEE_AND_NO_LABEL: &str = "proc p\ncall p\ncall q\nend\nproc p a\ngoto L\nend\n";

/// A text with a call of no procedure, and a variable that is not there in a procedure that is declared twice.
const NO_CALLEE_AND_NO_VARIABLE: &str = "proc p\ncall q\nx = 5\nend\nproc p\nend\n";

/// Texts with several faults, and which of them is found: that of a line goes before each of the names.
const SEVERAL: [(Fault, u32, &str); 6] = [
    (Fault::TooMany, 1, MANY_PARAMETERS),
    (Fault::OutOfPlace, 2, NO_END_AND_MANY),
    (Fault::OutOfPlace, 4, "proc main\nx = 5\nend\nskip\n"),
    (Fault::NoSuchLine, 3, "proc main\nx = 5\nend"),
    (Fault::NoSuchProcedure, 3, NO_CALLEE_AND_NO_LABEL),
    (Fault::NoSuchProcedure, 2, NO_CALLEE_AND_NO_VARIABLE),
];

#[test]
fn finds_the_least_fault(rt: HostRuntime) {
    expect_faults(&rt, &SEVERAL);
}

/// That the text of many lines is answered so.
fn expect_repeated(
    rt: &(impl Abort + AllocGlobal),
    head: &str,
    part: &str,
    count: usize,
    tail: &str,
    expected: Option<(u32, Fault)>,
) {
    let text = repeated(rt, head, part, count, tail);
    expect_answered(rt, text.as_slice(), expected, part);
}

/// That the text of numbered lines is answered so.
fn expect_numbered(
    rt: &(impl Abort + AllocGlobal),
    head: &str,
    parts: (&str, &str),
    count: u32,
    tail: &str,
    expected: Option<(u32, Fault)>,
) {
    let text = numbered(rt, head, parts, count, tail);
    expect_answered(rt, text.as_slice(), expected, parts.0);
}

#[test]
fn takes_texts_at_the_limits(rt: HostRuntime) {
    expect_repeated(&rt, "proc main\n", "skip\n", 65_534, "end\n", None);
    expect_numbered(&rt, "proc main\n", ("var x", "\n"), 4_094, "end\n", None);
    expect_numbered(&rt, "", ("global x", "\n"), 4_094, "proc main\nend\n", None);
    expect_numbered(&rt, "", ("proc p", "\nend\n"), 1_000, "", None);
    expect_repeated(
        &rt,
        "proc p a b c d e f g h i j k l m n o",
        " p",
        1,
        "\nend\n",
        None,
    );
}

#[test]
fn refuses_too_many_of_a_kind(rt: HostRuntime) {
    let statements = Some((65_536, Fault::TooMany));
    expect_repeated(&rt, "proc main\n", "skip\n", 65_535, "end\n", statements);
    let calls = Some((32_769, Fault::TooMany));
    expect_repeated(&rt, "proc p\n", "call p\n", 32_768, "end\n", calls);
    // A call has two nodes however many callees it has.
    expect_repeated(&rt, "proc p\n", "call p | p\n", 32_768, "end\n", calls);
    let locals = Some((4_096, Fault::TooMany));
    expect_numbered(&rt, "proc main\n", ("var x", "\n"), 4_095, "end\n", locals);
    let globals = Some((4_095, Fault::TooMany));
    expect_numbered(&rt, "", ("global x", "\n"), 4_095, "", globals);
    let procedures = Some((2_001, Fault::TooMany));
    expect_numbered(&rt, "", ("proc p", "\nend\n"), 1_001, "", procedures);
}

#[test]
fn refuses_a_text_too_long(rt: HostRuntime) {
    expect_repeated(&rt, "", "a", 1_048_577, "", Some((0, Fault::TextTooLong)));
    expect_repeated(&rt, "", "a", 1_048_576, "", Some((1, Fault::NoSuchLine)));
}
