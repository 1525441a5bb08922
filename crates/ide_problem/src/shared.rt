//! The flow that analyses of assignments share.
//!
//! Every function on a call, return or call-to-return edge is the identity. Over an assignment
//! each other fact goes to itself, and the assigned fact receives only what the analysis says.
ghost use Rattle.std.specs.Prelude.{◌≡◌, ◌-◌, [], ◌++◌, map, nat_eq, true, OnOk, OnErr};
ghost use Rattle.std.specs.List.{flat_map, range_with_len};
ghost use Rattle.ide_problem.specs.Shared.{PassesOn, kept, passes_effect, assigned_targets, entered_targets, call_targets, return_targets, along_targets, effect_targets, edge_targets};

use crate::target_list::TargetList;
use ide_graph::{EdgeData, EdgeKind, Effect};
use ide_lattice::EdgeFn;
use ide_wire::Fact;
use std::alloc::AllocError;

/// Adds the targets of `fact` over an edge, ascending. The fact that the edge assigns, if it is an
/// assignment, receives `received` from `fact`; out of a procedure's start `@result` and the locals
/// get `at_entry` from `@zero`. A fact that the program does not have has no targets.
#[inline(always)]
pub fn add_targets<F: EdgeFn>(
    edge: &EdgeData,
    received: Option<F>,
    at_entry: F,
    fact: Fact,
    targets: &mut TargetList<F>,
) -> Result<(), AllocError>
    requires { targets.old.list.items ≡ [] }
    ensures ok { OnOk result (targets.new.list.items ≡ edge_targets F.edge.id received at_entry edge.now fact) }
    ensures err { OnErr result (targets.new.list.items ≡ []) }
{
    if u32::from(fact) >= edge.facts {
        return Ok(());
    }
    match &edge.kind {
        EdgeKind::Normal(effect) => {
            add_effect(*effect, edge.result, received, at_entry, fact, targets)
        }
        EdgeKind::Call(pairs) => add_call(edge.result, pairs.as_slice(), fact, targets),
        EdgeKind::Return(assigned) => add_return(edge.result, *assigned, fact, targets),
        EdgeKind::CallToReturn(assigned) => add_along(edge.result, *assigned, fact, targets),
    }
}

/// Whether an edge within a procedure passes the fact on unchanged, where the fact that it assigns receives `received` from
/// it: then [`add_targets`] adds the fact alone, by the identity. Of another edge it is not told.
#[inline(always)]
pub fn unchanged_over<F: EdgeFn>(edge: &EdgeData, received: Option<F>, fact: Fact) -> bool
    ensures { result ≡ true → PassesOn F.edge.id received edge.now fact }
{
    if received.is_some() || u32::from(fact) >= edge.facts {
        return false;
    }
    match &edge.kind {
        EdgeKind::Normal(effect) => passes_effect(*effect, edge.result, fact),
        EdgeKind::Call(_) | EdgeKind::Return(_) | EdgeKind::CallToReturn(_) => false,
    }
}

/// Whether a statement passes a fact on, from which the assigned one receives nothing.
#[inline(always)]
fn passes_effect(effect: Effect, result_fact: Fact, fact: Fact) -> bool
    ensures { result ≡ passes_effect result_fact effect fact }
{
    match effect {
        Effect::Nothing => true,
        Effect::Number { target, .. }
        | Effect::Copy { target, .. }
        | Effect::Sum { target, .. }
        | Effect::Difference { target, .. }
        | Effect::Unknown { target }
        | Effect::Mix { target, .. } => fact != target,
        Effect::Enter { first, end } => {
            fact != 0 && fact != result_fact && !(first <= fact && fact < end)
        }
    }
}

/// The targets over a normal edge, by its effect.
#[inline(always)]
fn add_effect<F: EdgeFn>(
    effect: Effect,
    result_fact: Fact,
    received: Option<F>,
    at_entry: F,
    fact: Fact,
    targets: &mut TargetList<F>,
) -> Result<(), AllocError>
    requires { targets.old.list.items ≡ [] }
    ensures ok { OnOk result (targets.new.list.items ≡ effect_targets F.edge.id received at_entry result_fact effect fact) }
    ensures err { OnErr result (targets.new.list.items ≡ []) }
{
    match effect {
        Effect::Nothing => targets.add(fact, F::id()),
        Effect::Number { target, .. }
        | Effect::Copy { target, .. }
        | Effect::Sum { target, .. }
        | Effect::Difference { target, .. }
        | Effect::Unknown { target }
        | Effect::Mix { target, .. } => add_assigned(target, received, fact, targets),
        Effect::Enter { first, end } => {
            add_entered(result_fact, first, end, at_entry, fact, targets)
        }
    }
}

/// The targets over an assignment to `target`, which receives `received`. Any other fact stays as
/// it is.
#[inline(always)]
fn add_assigned<F: EdgeFn>(
    target: Fact,
    received: Option<F>,
    fact: Fact,
    targets: &mut TargetList<F>,
) -> Result<(), AllocError>
    requires { targets.old.list.items ≡ [] }
    ensures ok { OnOk result (targets.new.list.items ≡ assigned_targets F.edge.id target received fact) }
    ensures err { OnErr result (targets.new.list.items ≡ []) }
{
    if fact < target {
        targets.add(fact, F::id())?;
    }
    if let Some(function) = received {
        targets.add(target, function)?;
    }
    if target < fact {
        targets.add(fact, F::id())?;
    }
    Ok(())
}

/// The targets over the edge out of a procedure's start, whose locals are the facts from `first` to
/// before `end`.
fn add_entered<F: EdgeFn>(
    result_fact: Fact,
    first: Fact,
    end: Fact,
    at_entry: F,
    fact: Fact,
    targets: &mut TargetList<F>,
) -> Result<(), AllocError>
    requires { targets.old.list.items ≡ [] }
    ensures ok { OnOk result (targets.new.list.items ≡ entered_targets F.edge.id at_entry result_fact first end fact) }
    ensures err { OnErr result (targets.new.list.items ≡ []) }
{
    if fact == 0 {
        targets.add(0, F::id())?;
        targets.add(result_fact, at_entry)?;
        add_locals(first, end, at_entry, targets)
    } else if fact == result_fact || (first <= fact && fact < end) {
        Ok(())
    } else {
        targets.add(fact, F::id())
    }
}

/// Adds each local with what it holds at entry.
fn add_locals<F: EdgeFn>(
    first: Fact,
    end: Fact,
    at_entry: F,
    targets: &mut TargetList<F>,
) -> Result<(), AllocError>
    ensures ok { OnOk result (targets.new.list.items ≡ targets.old.list.items ++ map (λ local. (local, at_entry)) (range_with_len first (end - first))) }
    ensures err { OnErr result (targets.new.list.items ≡ []) }
{
    for local in first..end {
        targets.add(local, at_entry)?;
    }
    Ok(())
}

/// The targets over a call edge: `@zero` and the globals go to themselves, each argument to its
/// parameter. The pairs stand by ascending parameter.
fn add_call<F: EdgeFn>(
    result_fact: Fact,
    pairs: &[(Fact, Fact)],
    fact: Fact,
    targets: &mut TargetList<F>,
) -> Result<(), AllocError>
    requires { targets.old.list.items ≡ [] }
    ensures ok { OnOk result (targets.new.list.items ≡ call_targets F.edge.id result_fact pairs.now fact) }
    ensures err { OnErr result (targets.new.list.items ≡ []) }
{
    if fact < result_fact {
        targets.add(fact, F::id())?;
    }
    add_passed(pairs, fact, targets)
}

/// Adds each parameter that the fact is passed to.
fn add_passed<F: EdgeFn>(
    pairs: &[(Fact, Fact)],
    fact: Fact,
    targets: &mut TargetList<F>,
) -> Result<(), AllocError>
    ensures ok { OnOk result (targets.new.list.items ≡ targets.old.list.items ++ flat_map (λ pair. kept F.edge.id (nat_eq pair.0 fact) pair.1) pairs.now) }
    ensures err { OnErr result (targets.new.list.items ≡ []) }
{
    for (argument, parameter) in pairs {
        add_kept(*argument == fact, *parameter, targets)?;
    }
    Ok(())
}

/// Adds a fact by the identity, where the test holds.
fn add_kept<F: EdgeFn>(
    test: bool,
    fact: Fact,
    targets: &mut TargetList<F>,
) -> Result<(), AllocError>
    ensures ok { OnOk result (targets.new.list.items ≡ targets.old.list.items ++ kept F.edge.id test fact) }
    ensures err { OnErr result (targets.new.list.items ≡ []) }
{
    if test {
        targets.add(fact, F::id())?;
    }
    Ok(())
}

/// The targets over a return edge: `@zero` and the globals go to themselves, but for the assigned
/// fact, and `@result` to that fact.
fn add_return<F: EdgeFn>(
    result_fact: Fact,
    assigned: Option<Fact>,
    fact: Fact,
    targets: &mut TargetList<F>,
) -> Result<(), AllocError>
    requires { targets.old.list.items ≡ [] }
    ensures ok { OnOk result (targets.new.list.items ≡ return_targets F.edge.id result_fact assigned fact) }
    ensures err { OnErr result (targets.new.list.items ≡ []) }
{
    match assigned {
        None if fact < result_fact => targets.add(fact, F::id()),
        Some(target) if fact == result_fact => targets.add(target, F::id()),
        Some(target) if fact < result_fact && target != fact => targets.add(fact, F::id()),
        _ => Ok(()),
    }
}

/// The targets over a call-to-return edge: `@zero`, and each fact past the globals but the assigned
/// one, go to themselves.
fn add_along<F: EdgeFn>(
    result_fact: Fact,
    assigned: Option<Fact>,
    fact: Fact,
    targets: &mut TargetList<F>,
) -> Result<(), AllocError>
    requires { targets.old.list.items ≡ [] }
    ensures ok { OnOk result (targets.new.list.items ≡ along_targets F.edge.id result_fact assigned fact) }
    ensures err { OnErr result (targets.new.list.items ≡ []) }
{
    if fact == 0 || (result_fact <= fact && assigned != Some(fact)) {
        targets.add(fact, F::id())
    } else {
        Ok(())
    }
}
