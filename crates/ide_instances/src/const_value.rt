//! The flat lattice of 64-bit constants.
ghost use Rattle.std.specs.Prelude.{◌≡◌, ◌++◌, ◌^◌, ◌<◌, true, OnOk, OnErr, codes, decimal};
ghost use Rattle.std.proofs.Common.{refl};

use ide_lattice::Lattice;
use itoa::Buffer;
use std::alloc::AllocError;

/// What is known of a variable: nothing reaches, one constant, or nothing is known.
#[derive(Clone, Copy, PartialEq, Eq, Debug)]
pub enum ConstValue {
    Top,
    Const(u64),
    Bottom,
}

impl Lattice for ConstValue {
    ghost use Rattle.ide_instances.specs.ConstValue.{const_algebra, shown_constant};
    ghost use Rattle.ide_instances.specs.ConstValueLaws.{const_lattice, const_value_exact};

    const HEIGHT: u16 = 2;

    ghost HEIGHT = { 2 };

    ghost algebra = { const_algebra };

    ghost shown = { shown_constant };

    fn top() -> ConstValue {
        ConstValue::Top
    }

    fn bottom() -> ConstValue {
        ConstValue::Bottom
    }

    fn meet(self, other: ConstValue) -> ConstValue {
        match self {
            ConstValue::Top => other,
            ConstValue::Bottom => ConstValue::Bottom,
            ConstValue::Const(one) => match other {
                ConstValue::Top => ConstValue::Const(one),
                ConstValue::Const(two) if one == two => ConstValue::Const(one),
                _ => ConstValue::Bottom,
            },
        }
    }

    fn rank(self) -> u16 {
        match self {
            ConstValue::Top => 2,
            ConstValue::Const(_) => 1,
            ConstValue::Bottom => 0,
        }
    }

    fn proper(self) -> bool {
        match self {
            ConstValue::Top => true,
            ConstValue::Const(_number) => true,
            ConstValue::Bottom => true,
        }
    }

    fn show(self, out: &mut Vec<u8>) -> Result<(), AllocError> {
        match self {
            ConstValue::Top => out.extend_from_slice(b"top"),
            ConstValue::Bottom => out.extend_from_slice(b"bottom"),
            ConstValue::Const(number) => {
                let mut buffer = Buffer::new();
                let digits = buffer.format(number);
                out.reserve(6 + digits.len())?;
                out.extend_from_slice(b"const ")?;
                out.extend_from_slice(digits.as_bytes())
            }
        }
    }

    ghost lawful = { const_lattice };

    ghost height = { refl };

    ghost exact = { const_value_exact };
}
