//! The tables of the worked programs: how many tasks they take, and what is in them then.
use super::cores::{begin, given, load, root_main};
use ide_image::Changes;
use ide_instances::{ConstFn, CopyConst, Uninit};
use ide_lattice::EdgeFn;
use ide_problem::Problem;
use ide_steps::Core;
use ide_text::print;
use ide_wire::{Fact, Key, Node};
use ide_worked::{CALLEES, COPIES, EMPTY, TWO_CALLS};
use std::process::Abort;

/// Does all tasks, and answers how many.
pub(crate) fn drain<P: Problem>(rt: &impl Abort, core: &mut Core<P>) -> u64 {
    given(rt, core.drain())
}

/// Asserts how many tasks a text has, with `main` as the root.
fn expect_tasks<P: Problem>(
    rt: &(impl Abort + AllocGlobal),
    core: &mut Core<P>,
    text: &str,
    tasks: u64,
) {
    begin(rt, core, text);
    let found = drain(rt, core);
    assert!(rt; found == tasks, "{found} tasks");
}

#[test]
fn tasks_of_the_empty_main(rt: HostRuntime) {
    let mut core: Core<Uninit> = Core::new(rt.alloc());
    expect_tasks(&rt, &mut core, EMPTY, 3);
}

/// Whether the function at a key is the identity.
fn is_identity<P: Problem>(core: &Core<P>, key: Key) -> bool {
    match core.get(key) {
        Some(function) => function == P::F::id(),
        None => false,
    }
}

/// Asserts that a summary is the identity, and not pending.
fn expect_summary<P: Problem>(rt: &impl Abort, core: &Core<P>, call: Node, from: Fact, to: Fact) {
    let key = Key::Summary(call, from, to);
    assert!(rt; is_identity(core, key));
    assert!(rt; !core.is_pending(key));
}

/// Asserts that the program with two calls is tabulated, and that no key is pending.
pub(crate) fn expect_two_calls<P: Problem>(rt: &impl Abort, core: &Core<P>) {
    assert!(rt; core.is_quiet());
    assert!(rt; core.key_count() == 51 + 4);
    expect_summary(rt, core, 6, 0, 0);
    expect_summary(rt, core, 6, 2, 4);
    expect_summary(rt, core, 8, 0, 0);
    expect_summary(rt, core, 8, 3, 5);
}

/// Drains the program with two calls.
fn drain_two_calls<P: Problem>(rt: &(impl Abort + AllocGlobal), core: &mut Core<P>) {
    begin(rt, core, TWO_CALLS);
    drain(rt, core);
    expect_two_calls(rt, core);
}

/// Asserts that no key is told to have changed.
fn expect_no_change<P: Problem>(rt: &impl Abort, core: &mut Core<P>) {
    assert!(rt; core.take_changes().is_empty());
}

/// Asserts that the keys are present that are told to have changed, from absent and not pending.
fn expect_changes<P: Problem>(rt: &impl Abort, core: &Core<P>, changes: &Changes<P::F>) {
    for index in 0..changes.len() {
        assert!(rt;
            changes.get(index).is_some_and(|(key, entry)| {
                core.get(key).is_some() && entry.function.is_none() && !entry.pending
            })
        );
    }
    assert!(rt; changes.get(changes.len()).is_none());
}

/// Asserts that each present key is told to have changed, from absent and not pending.
fn expect_all_changed<P: Problem>(rt: &impl Abort, core: &mut Core<P>) {
    let keys = core.key_count();
    assert!(rt; core.changed_count() == keys);
    let changes = core.take_changes();
    assert!(rt; changes.len() == keys);
    expect_changes(rt, core, &changes);
    assert!(rt; core.changed_count() == 0);
}

/// Asserts that a load changes no key, and that each key that a drain makes is told.
fn expect_told<P: Problem>(rt: &(impl Abort + AllocGlobal), core: &mut Core<P>) {
    load(rt, core, COPIES);
    expect_no_change(rt, core);
    root_main(rt, core);
    drain(rt, core);
    expect_all_changed(rt, core);
}

#[test]
fn a_drained_core_tells_what_changed(rt: HostRuntime) {
    let mut core: Core<CopyConst> = Core::new(rt.alloc());
    expect_told(&rt, &mut core);
}

/// The items of a core.
fn items_of<P: Problem>(rt: &impl Abort, core: &Core<P>) -> Vec<(Key, P::F, bool)> {
    given(rt, core.items())
}

/// Sets an item in a core, which takes every claim back first.
fn set_item<P: Problem>(rt: &impl Abort, core: &mut Core<P>, item: (Key, P::F, bool)) {
    let (key, function, pending) = item;
    core.release_all();
    assert!(rt;
        core.may_have(key) && function != P::F::all_top(),
        "no such item"
    );
    given(rt, core.set(key, function, pending));
}

/// Sets these items in a core.
fn set_items<P: Problem>(rt: &impl Abort, core: &mut Core<P>, items: &[(Key, P::F, bool)]) {
    for item in items {
        set_item(rt, core, *item);
    }
}

/// Asserts how many items are jumps, how many there are, that their keys ascend, and that none is
/// pending.
fn expect_items<F: Copy>(rt: &impl Abort, items: &[(Key, F, bool)], jumps: usize, all: usize) {
    let found = items.iter().filter(|item| matches!(item.0, Key::Jump(..)));
    assert!(rt; found.count() == jumps);
    assert!(rt; items.len() == all);
    assert!(rt; items.iter().map(|item| item.0).is_sorted());
    assert!(rt; !items.iter().any(|item| item.2));
}

/// Asserts that a core with these items has them as its items.
fn expect_image_of<P: Problem>(rt: &impl Abort, core: &mut Core<P>, items: &[(Key, P::F, bool)]) {
    set_items(rt, core, items);
    let found = items_of(rt, core);
    assert!(rt; found.as_slice() == items);
}

/// Asserts how many tasks the two assignments have, that the program with two calls is tabulated,
/// and that its items, in another core, make its image again.
fn expect_tables<P: Problem>(
    rt: &(impl Abort + AllocGlobal),
    core: &mut Core<P>,
    again: &mut Core<P>,
) {
    expect_tasks(rt, core, COPIES, 13);
    drain_two_calls(rt, core);
    load(rt, again, TWO_CALLS);
    let items = items_of(rt, core);
    expect_items(rt, items.as_slice(), 51, 51 + 4);
    expect_image_of(rt, again, items.as_slice());
}

#[test]
fn tasks_and_quiescent_tables(rt: HostRuntime) {
    let mut core: Core<CopyConst> = Core::new(rt.alloc());
    let mut again = Core::new(rt.alloc());
    expect_tables(&rt, &mut core, &mut again);
}

/// Asserts the function at a key, and that it is not pending.
fn expect_function<P: Problem>(rt: &impl Abort, core: &Core<P>, key: Key, want: P::F) {
    assert!(rt; core.get(key) == Some(want));
    assert!(rt; !core.is_pending(key));
}

/// How many of the items are summaries at a call node.
fn count_summaries<F: Copy>(items: &[(Key, F, bool)], call: Node) -> usize {
    let found = items.iter().filter(|item| is_summary(item.0, call));
    found.count()
}

/// Whether the key is a summary at the call node.
fn is_summary(key: Key, call: Node) -> bool {
    match key {
        Key::Summary(own, ..) => own == call,
        Key::Jump(..) => false,
    }
}

/// Asserts how many keys the program with a call of two procedures has: a call has one summary for
/// each pair of facts, and each of its callees lowers it.
fn expect_callees<P: Problem>(rt: &(impl Abort + AllocGlobal), core: &mut Core<P>) {
    begin(rt, core, CALLEES);
    drain(rt, core);
    assert!(rt; core.is_quiet());
    assert!(rt; core.key_count() == 31 + 14 + 14 + 2 + 2);
    expect_summary(rt, core, 10, 0, 0);
    expect_summary(rt, core, 12, 0, 0);
    let items = items_of(rt, core);
    assert!(rt; count_summaries(items.as_slice(), 10) == 2);
    assert!(rt; count_summaries(items.as_slice(), 12) == 2);
}

/// Asserts it, and that these keys have these functions then.
fn expect_functions<P: Problem>(
    rt: &(impl Abort + AllocGlobal),
    core: &mut Core<P>,
    functions: &[(Key, P::F)],
) {
    expect_callees(rt, core);
    for (key, want) in functions {
        expect_function(rt, core, *key, *want);
    }
}

#[test]
fn callees_lower_one_summary(rt: HostRuntime) {
    let functions = [
        (Key::Jump(3, 0, 1), ConstFn::Const(5)),
        (Key::Jump(7, 0, 1), ConstFn::Const(6)),
        (Key::Summary(10, 0, 3), ConstFn::Bottom),
        (Key::Summary(12, 0, 4), ConstFn::Const(5)),
    ];
    let mut core: Core<CopyConst> = Core::new(rt.alloc());
    expect_functions(&rt, &mut core, &functions);
}

/// Whether that fact reaches the parameter of the procedure at a start over a call, by the identity, or none
/// does where none is given.
fn is_reached_from<P: Problem>(
    core: &Core<P>,
    call: Node,
    start: Node,
    fact: Option<Fact>,
) -> bool {
    let sources = core.sources(call, start, 2);
    match (sources.get(0), fact) {
        (Some(source), Some(fact)) => {
            sources.len() == 1 && source.from.fact == fact && source.from.function == P::F::id()
        }
        (None, None) => sources.is_empty(),
        _ => false,
    }
}

/// Asserts what reaches parameters: over which call, at the start of which callee, and which fact, if any.
fn expect_sources<P: Problem>(
    rt: &impl Abort,
    core: &Core<P>,
    sources: &[(Node, Node, Option<Fact>)],
) {
    for (call, start, fact) in sources {
        assert!(rt;
            is_reached_from(core, *call, *start, *fact),
            "over {call} at {start}"
        );
    }
}

/// Asserts that nothing reaches a parameter before a load, and what does with the program of a text.
fn expect_sources_of<P: Problem>(
    rt: &(impl Abort + AllocGlobal),
    core: &mut Core<P>,
    text: &str,
    sources: &[(Node, Node, Option<Fact>)],
) {
    expect_sources(rt, core, &[(6, 0, None)]);
    load(rt, core, text);
    expect_sources(rt, core, sources);
}

/// Appends the text of the program that a core has loaded, if it has one.
fn print_loaded<P: Problem>(
    rt: &(impl Abort + AllocGlobal),
    core: &Core<P>,
    printed: &mut Vec<u8>,
) {
    if let Some(kept) = core.program() {
        let program = given(rt, kept.program(rt.alloc()));
        given(rt, print(&program, printed));
    }
}

/// Asserts that a core with no program prints nothing, and the text itself once it has loaded one.
fn expect_kept<P: Problem>(rt: &(impl Abort + AllocGlobal), core: &mut Core<P>, text: &str) {
    let mut printed = Vec::new(rt.alloc());
    print_loaded(rt, core, &mut printed);
    assert!(rt; printed.is_empty(), "no program is loaded");
    load(rt, core, text);
    print_loaded(rt, core, &mut printed);
    assert!(rt; printed.as_slice() == text.as_bytes(), "another text");
}

#[test]
fn a_loaded_program_is_kept(rt: HostRuntime) {
    let mut core: Core<CopyConst> = Core::new(rt.alloc());
    expect_kept(&rt, &mut core, TWO_CALLS);
}

// Nothing reaches a parameter over a node that is no call, or at a start that is none.
#[test]
fn sources_of_the_two_calls(rt: HostRuntime) {
    let sources = [(6, 0, Some(2)), (8, 0, Some(3)), (7, 0, None), (6, 1, None)];
    let mut core: Core<CopyConst> = Core::new(rt.alloc());
    expect_sources_of(&rt, &mut core, TWO_CALLS, &sources);
}

// A callee is told by its start: a call of two procedures, and one of the first of them.
#[test]
fn sources_of_each_callee(rt: HostRuntime) {
    let sources = [
        (10, 0, Some(2)),
        (10, 4, Some(2)),
        (12, 0, Some(2)),
        (12, 4, None),
        (10, 8, None),
    ];
    let mut core: Core<CopyConst> = Core::new(rt.alloc());
    expect_sources_of(&rt, &mut core, CALLEES, &sources);
}
