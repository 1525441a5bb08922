//! What meets, compositions and values come to, and the coded and printed forms.
use super::texts::made;
use ide_instances::{ConstFn, ConstValue, CopyConst, ShiftConst, Uninit, UninitFn, UninitValue};
use ide_lattice::{EdgeFn, Lattice, value_of_meet};
use ide_problem::Problem;
use ide_wire::{Key, Wire};
use std::process::Abort;

/// Whether two functions meet to a third, from either side.
fn meet_to(one: ConstFn, other: ConstFn, met: ConstFn) -> bool {
    one.meet(other) == met && other.meet(one) == met
}

/// Whether the function is read from just those bytes.
fn is_read<F: Wire + Eq + Copy>(function: F, form: &[u8]) -> bool {
    match F::take(form) {
        Some((read, length)) => read == function && length == form.len(),
        None => false,
    }
}

/// That the function is coded by those bytes, and read from them.
fn expect_form<F: Wire + Eq + Copy>(rt: &(impl Abort + AllocGlobal), function: F, form: &[u8]) {
    let mut out = Vec::new(rt.alloc());
    made(rt, function.put(&mut out));
    assert!(rt; out.as_slice() == form && is_read(function, form));
}

/// That the value is printed so.
fn expect_shown<L: Lattice>(rt: &(impl Abort + AllocGlobal), value: L, text: &str) {
    let mut out = Vec::new(rt.alloc());
    made(rt, value.show(&mut out));
    assert!(rt; out.as_slice() == text.as_bytes(), "{text}");
}

#[test]
fn meets_of_functions(rt: HostRuntime) {
    let met = ConstFn::ShiftMeet(1, 7);
    assert!(rt; meet_to(ConstFn::Shift(1), ConstFn::Const(7), met));
    assert!(rt; meet_to(ConstFn::Shift(1), ConstFn::Shift(2), ConstFn::Bottom));
    assert!(rt; meet_to(ConstFn::AllTop, met, met));
    assert!(rt; met.apply(ConstValue::Const(6)) == ConstValue::Const(7));
    assert!(rt; met.apply(ConstValue::Const(5)) == ConstValue::Bottom);
    assert!(rt; met.apply(ConstValue::Bottom) == ConstValue::Bottom);
    assert!(rt; met.apply(ConstValue::Top) == ConstValue::Top);
}

#[test]
fn values_of_meets_at_each_analysis(rt: HostRuntime) {
    let parts = [UninitFn::AllTop, UninitFn::Id];
    let value = value_of_meet::<<Uninit as Problem>::F>(&parts, UninitValue::Bottom);
    assert!(rt; value == UninitValue::Bottom);
    let parts = [ConstFn::Const(6), ConstFn::id()];
    let value = value_of_meet::<<CopyConst as Problem>::F>(&parts, ConstValue::Const(6));
    assert!(rt; value == ConstValue::Const(6));
    let parts = [ConstFn::Shift(1), ConstFn::Const(7)];
    let value = value_of_meet::<<ShiftConst as Problem>::F>(&parts, ConstValue::Const(6));
    assert!(rt; value == ConstValue::Const(7));
}

#[test]
fn analyses_keep_what_is_not_named(rt: HostRuntime) {
    assert!(rt; Uninit::keeps_unnamed());
    assert!(rt; CopyConst::keeps_unnamed());
    assert!(rt; ShiftConst::keeps_unnamed());
}

#[test]
fn compositions_of_functions(rt: HostRuntime) {
    let met = ConstFn::ShiftMeet(1, 7);
    assert!(rt; met.compose(ConstFn::Shift(3)) == ConstFn::ShiftMeet(4, 10));
    assert!(rt; ConstFn::Const(6).compose(met) == ConstFn::Const(7));
    assert!(rt; ConstFn::Const(5).compose(met) == ConstFn::Bottom);
    assert!(rt; met.compose(ConstFn::ShiftMeet(2, 9)) == ConstFn::ShiftMeet(3, 9));
    assert!(rt; met.compose(ConstFn::ShiftMeet(2, 8)) == ConstFn::Bottom);
    assert!(rt; ConstFn::Bottom.compose(ConstFn::Const(4)) == ConstFn::Const(4));
    assert!(rt; ConstFn::Shift(u64::MAX).compose(ConstFn::Shift(1)) == ConstFn::id());
}

#[test]
fn forms_of_functions(rt: HostRuntime) {
    let form = [3, 1, 0, 0, 0, 0, 0, 0, 0, 7, 0, 0, 0, 0, 0, 0, 0];
    expect_form(&rt, ConstFn::ShiftMeet(1, 7), &form);
    expect_form(&rt, ConstFn::Shift(258), &[1, 2, 1, 0, 0, 0, 0, 0, 0]);
    expect_form(&rt, ConstFn::Const(5), &[2, 5, 0, 0, 0, 0, 0, 0, 0]);
    expect_form(&rt, ConstFn::AllTop, &[0]);
    expect_form(&rt, ConstFn::Bottom, &[4]);
    assert!(rt; ConstFn::take(&form[..16]) == None);
    assert!(rt; ConstFn::take(&[5]) == None);
    expect_form(&rt, UninitFn::AllTop, &[0]);
    expect_form(&rt, UninitFn::Id, &[1]);
    assert!(rt; UninitFn::take(&[2]) == None);
}

#[test]
fn the_two_values(rt: HostRuntime) {
    let (top, bottom) = (UninitValue::Top, UninitValue::Bottom);
    assert!(rt; top.meet(top) == top);
    assert!(rt; top.meet(bottom) == bottom);
    let (all_top, id) = (UninitFn::AllTop, UninitFn::Id);
    assert!(rt; all_top.apply(bottom) == top);
    assert!(rt; id.apply(bottom) == bottom);
    assert!(rt; id.compose(all_top) == all_top);
    assert!(rt; id.compose(id) == id);
    assert!(rt; id.meet(all_top) == id);
    assert!(rt; all_top.meet(all_top) == all_top);
    assert!(rt; all_top.rank() == UninitFn::HEIGHT);
    assert!(rt; top.rank() == UninitValue::HEIGHT);
}

#[test]
fn printed_values(rt: HostRuntime) {
    expect_shown(&rt, ConstValue::Top, "top");
    expect_shown(
        &rt,
        ConstValue::Const(u64::MAX),
        "const 18446744073709551615",
    );
    expect_shown(&rt, ConstValue::Bottom, "bottom");
    expect_shown(&rt, UninitValue::Top, "top");
    expect_shown(&rt, UninitValue::Bottom, "bottom");
}

#[test]
fn tags_and_lengths_of_forms(rt: HostRuntime) {
    assert!(rt; Uninit::TAG == 1 && CopyConst::TAG == 2 && ShiftConst::TAG == 3);
    assert!(rt; <UninitFn as Wire>::MAX == 1);
    assert!(rt; <ConstFn as Wire>::MAX == 17);
    assert!(rt; <Key as Wire>::MAX == 9);
}
