//! The lattice: where a value may come from.
ghost use Rattle.std.specs.Prelude.{◌≡◌, ◌++◌, true, OnOk, OnErr, codes};
ghost use Rattle.std.proofs.Common.{refl};

use ide_lattice::Lattice;
use std::alloc::AllocError;

/// Where what a variable holds may come from.
#[derive(Clone, Copy, PartialEq, Eq, Debug)]
pub enum Origin {
    /// From numbers of the program alone, or nothing reaches. It is the top.
    Program,
    /// Perhaps from an input. It is the bottom.
    Input,
}

impl Lattice for Origin {
    ghost use Rattle.ide_example.specs.Origin.{origins, shown_origin};
    ghost use Rattle.ide_example.specs.OriginLaws.{origins_are_a_lattice, equal_origins};

    const HEIGHT: u16 = 1;

    ghost HEIGHT = { 1 };

    ghost algebra = { origins };

    ghost shown = { shown_origin };

    fn top() -> Origin {
        Origin::Program
    }

    fn bottom() -> Origin {
        Origin::Input
    }

    fn meet(self, other: Origin) -> Origin {
        match self {
            Origin::Program => other,
            Origin::Input => self,
        }
    }

    fn rank(self) -> u16 {
        match self {
            Origin::Program => 1,
            Origin::Input => 0,
        }
    }

    fn proper(self) -> bool {
        true
    }

    fn show(self, out: &mut Vec<u8>) -> Result<(), AllocError> {
        match self {
            Origin::Program => out.extend_from_slice(b"top"),
            Origin::Input => out.extend_from_slice(b"input"),
        }
    }

    ghost lawful = { origins_are_a_lattice };

    ghost height = { refl };

    ghost exact = { equal_origins };
}
