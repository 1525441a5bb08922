//! Functions over constants that are closed under composition and meet.
ghost use Rattle.std.specs.Prelude.{◌≡◌, ◌++◌, ◌∷◌, OnOk, OnErr};
ghost use Rattle.std.specs.Int.{w64, to_le_bytes};
ghost use Rattle.std.proofs.Common.{refl, lit≤};

use crate::const_value::ConstValue;
use ide_lattice::EdgeFn;
use ide_wire::Wire;
use std::alloc::AllocError;

/// A function over [`ConstValue`]. Each maps top to top, and distinct forms are distinct
/// functions. Sums are modulo 2^64.
#[derive(Clone, Copy, PartialEq, Eq, Debug, Default)]
pub enum ConstFn {
    /// Always top.
    #[default]
    AllTop,
    /// Adds a number to a constant; bottom stays.
    Shift(u64),
    /// That constant, but at top.
    Const(u64),
    /// `ShiftMeet(c, k)` is the meet of `Shift(c)` and `Const(k)`: `k` where adding `c` gives it,
    /// else bottom.
    ShiftMeet(u64, u64),
    /// Bottom, but at top.
    Bottom,
}

/// Appends a kind, then a number. At a refusal the vector is as it was.
fn put_number(kind: u8, number: u64, out: &mut Vec<u8>) -> Result<(), AllocError>
    ensures ok { OnOk result (out.new.items ≡ out.old.items ++ kind ∷ to_le_bytes w64 number) }
    ensures err { OnErr result (out.new.items ≡ out.old.items) }
{
    let [a, b, c, d, e, f, g, h] = number.to_le_bytes();
    out.extend_from_slice(&[kind, a, b, c, d, e, f, g, h])
}

/// Appends a kind, then two numbers. At a refusal the vector is as it was.
fn put_numbers(kind: u8, first: u64, second: u64, out: &mut Vec<u8>) -> Result<(), AllocError>
    ensures ok { OnOk result (out.new.items ≡ out.old.items ++ kind ∷ to_le_bytes w64 first ++ to_le_bytes w64 second) }
    ensures err { OnErr result (out.new.items ≡ out.old.items) }
{
    out.reserve(17)?;
    out.extend_from_slice(&[kind])?;
    out.extend_from_slice(&first.to_le_bytes())?;
    out.extend_from_slice(&second.to_le_bytes())
}

impl Wire for ConstFn {
    ghost use Rattle.ide_instances.specs.ConstFn.{is_proper_fn};
    ghost use Rattle.ide_instances.specs.ConstFnForm.{const_fn_form, const_fn_not_empty, const_fn_at_most, const_fn_prefix_free};

    const MAX: usize = 17;

    ghost MAX = { 17 };

    ghost proper = { is_proper_fn };

    ghost form = { const_fn_form };

    #[inline(always)]
    fn put(&self, out: &mut Vec<u8>) -> Result<(), AllocError> {
        match *self {
            ConstFn::AllTop => out.extend_from_slice(&[0]),
            ConstFn::Shift(shift) => put_number(1, shift, out),
            ConstFn::Const(number) => put_number(2, number, out),
            ConstFn::ShiftMeet(shift, number) => put_numbers(3, shift, number, out),
            ConstFn::Bottom => out.extend_from_slice(&[4]),
        }
    }

    fn take(bytes: &[u8]) -> Option<(ConstFn, usize)> {
        let (kind, numbers) = bytes.split_first()?;
        match *kind {
            0 => Some((ConstFn::AllTop, 1)),
            1 => {
                let (shift, _) = u64::take(numbers)?;
                Some((ConstFn::Shift(shift), 9))
            }
            2 => {
                let (number, _) = u64::take(numbers)?;
                Some((ConstFn::Const(number), 9))
            }
            3 => {
                let (shift, _) = u64::take(numbers)?;
                let (number, _) = u64::take(&numbers[8..])?;
                Some((ConstFn::ShiftMeet(shift, number), 17))
            }
            4 => Some((ConstFn::Bottom, 1)),
            _ => None,
        }
    }

    ghost not_empty = { const_fn_not_empty };

    ghost at_most_max = { const_fn_at_most };

    ghost prefix_free = { const_fn_prefix_free };
}

impl EdgeFn for ConstFn {
    ghost use Rattle.ide_instances.specs.ConstFn.{const_edge};
    ghost use Rattle.ide_instances.specs.ConstFnLaws.{const_functions, const_fn_exact};

    type L = ConstValue;

    const HEIGHT: u16 = 3;

    ghost HEIGHT = { 3 };

    ghost edge = { const_edge };

    fn id() -> ConstFn {
        ConstFn::Shift(0)
    }

    fn all_top() -> ConstFn {
        ConstFn::AllTop
    }

    #[tactic(auto, unfolding(crate::specs::Modular::sum_of))]
    fn apply(self, x: ConstValue) -> ConstValue {
        match self {
            ConstFn::AllTop => ConstValue::Top,
            ConstFn::Shift(c) => match x {
                ConstValue::Top => ConstValue::Top,
                ConstValue::Const(l) => ConstValue::Const(l.wrapping_add(c)),
                ConstValue::Bottom => ConstValue::Bottom,
            },
            ConstFn::Const(k) => match x {
                ConstValue::Top => ConstValue::Top,
                _ => ConstValue::Const(k),
            },
            ConstFn::ShiftMeet(c, k) => match x {
                ConstValue::Top => ConstValue::Top,
                ConstValue::Const(l) if l.wrapping_add(c) == k => ConstValue::Const(k),
                _ => ConstValue::Bottom,
            },
            ConstFn::Bottom => match x {
                ConstValue::Top => ConstValue::Top,
                _ => ConstValue::Bottom,
            },
        }
    }

    #[tactic(auto, unfolding(crate::specs::Modular::sum_of))]
    #[inline(always)]
    fn compose(self, next: ConstFn) -> ConstFn {
        match self {
            ConstFn::AllTop => ConstFn::AllTop,
            ConstFn::Shift(c) => match next {
                ConstFn::Shift(e) => ConstFn::Shift(c.wrapping_add(e)),
                ConstFn::ShiftMeet(e, m) => ConstFn::ShiftMeet(c.wrapping_add(e), m),
                _ => next,
            },
            ConstFn::Const(k) => match next {
                ConstFn::Shift(e) => ConstFn::Const(k.wrapping_add(e)),
                ConstFn::ShiftMeet(e, m) if k.wrapping_add(e) == m => ConstFn::Const(m),
                ConstFn::ShiftMeet(_, _) => ConstFn::Bottom,
                _ => next,
            },
            ConstFn::ShiftMeet(c, k) => match next {
                ConstFn::Shift(e) => ConstFn::ShiftMeet(c.wrapping_add(e), k.wrapping_add(e)),
                ConstFn::ShiftMeet(e, m) if k.wrapping_add(e) == m => {
                    ConstFn::ShiftMeet(c.wrapping_add(e), m)
                }
                ConstFn::ShiftMeet(_, _) => ConstFn::Bottom,
                _ => next,
            },
            ConstFn::Bottom => match next {
                ConstFn::AllTop => ConstFn::AllTop,
                ConstFn::Const(m) => ConstFn::Const(m),
                _ => ConstFn::Bottom,
            },
        }
    }

    fn meet(self, other: ConstFn) -> ConstFn {
        match self {
            ConstFn::AllTop => other,
            ConstFn::Shift(c) => match other {
                ConstFn::AllTop => self,
                ConstFn::Shift(d) if c == d => self,
                ConstFn::Const(k) => ConstFn::ShiftMeet(c, k),
                ConstFn::ShiftMeet(d, k) if c == d => ConstFn::ShiftMeet(c, k),
                _ => ConstFn::Bottom,
            },
            ConstFn::Const(k) => match other {
                ConstFn::AllTop => self,
                ConstFn::Shift(c) => ConstFn::ShiftMeet(c, k),
                ConstFn::Const(l) if k == l => self,
                ConstFn::ShiftMeet(c, l) if k == l => ConstFn::ShiftMeet(c, k),
                _ => ConstFn::Bottom,
            },
            ConstFn::ShiftMeet(c, k) => match other {
                ConstFn::AllTop => self,
                ConstFn::Shift(d) if c == d => self,
                ConstFn::Const(l) if k == l => self,
                ConstFn::ShiftMeet(d, l) if c == d && k == l => self,
                _ => ConstFn::Bottom,
            },
            ConstFn::Bottom => ConstFn::Bottom,
        }
    }

    fn rank(self) -> u16 {
        match self {
            ConstFn::AllTop => 3,
            ConstFn::Shift(_) | ConstFn::Const(_) => 2,
            ConstFn::ShiftMeet(_, _) => 1,
            ConstFn::Bottom => 0,
        }
    }

    fn proper(self) -> bool {
        match self {
            ConstFn::AllTop => true,
            ConstFn::Shift(_c) => true,
            ConstFn::Const(_k) => true,
            ConstFn::ShiftMeet(_c, _k) => true,
            ConstFn::Bottom => true,
        }
    }

    ghost lawful = { const_functions };

    ghost height = { refl };

    ghost exact = { const_fn_exact };

    ghost proper_as_coded = { λ f. refl };

    ghost few_bytes = { lit≤ tt };

    ghost default_is_all_top = { λ f is. is };
}
