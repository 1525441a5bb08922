//! The lattice of two values.
ghost use Rattle.std.specs.Prelude.{◌≡◌, ◌++◌, true, OnOk, OnErr, codes};
ghost use Rattle.std.proofs.Common.{refl};

use ide_lattice::Lattice;
use std::alloc::AllocError;

/// Whether a variable may be read before it is written.
#[derive(Clone, Copy, PartialEq, Eq, Debug)]
pub enum UninitValue {
    /// Surely initialised, or not reached.
    Top,
    /// Perhaps uninitialised.
    Bottom,
}

impl Lattice for UninitValue {
    ghost use Rattle.ide_instances.specs.UninitValue.{uninit_algebra, shown_uninit};
    ghost use Rattle.ide_instances.specs.UninitLaws.{uninit_lattice, uninit_value_exact};

    const HEIGHT: u16 = 1;

    ghost HEIGHT = { 1 };

    ghost algebra = { uninit_algebra };

    ghost shown = { shown_uninit };

    fn top() -> UninitValue {
        UninitValue::Top
    }

    fn bottom() -> UninitValue {
        UninitValue::Bottom
    }

    fn meet(self, other: UninitValue) -> UninitValue {
        match self {
            UninitValue::Top => other,
            UninitValue::Bottom => self,
        }
    }

    fn rank(self) -> u16 {
        match self {
            UninitValue::Top => 1,
            UninitValue::Bottom => 0,
        }
    }

    fn proper(self) -> bool {
        true
    }

    fn show(self, out: &mut Vec<u8>) -> Result<(), AllocError> {
        match self {
            UninitValue::Top => out.extend_from_slice(b"top"),
            UninitValue::Bottom => out.extend_from_slice(b"bottom"),
        }
    }

    ghost lawful = { uninit_lattice };

    ghost height = { refl };

    ghost exact = { uninit_value_exact };
}
