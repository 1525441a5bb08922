//! The functions over the lattice: what an edge, or a whole path, carries over.
ghost use Rattle.std.specs.Prelude.{◌≡◌, ◌++◌, true};
ghost use Rattle.std.proofs.Common.{refl, lit≤};

use crate::origin::Origin;
use ide_lattice::EdgeFn;
use ide_wire::Wire;
use std::alloc::AllocError;

/// A function over [`Origin`] that maps the top to the top: there are two.
#[derive(Clone, Copy, PartialEq, Eq, Debug, Default)]
pub enum Carry {
    /// Nothing is carried over: always the top.
    #[default]
    Nothing,
    /// The origin stays as it is.
    Origin,
}

impl Wire for Carry {
    ghost use Rattle.ide_example.specs.CarryForm.{carry_form, not_empty, at_most_one, prefix_free};

    const MAX: usize = 1;

    ghost MAX = { 1 };

    ghost proper = { λ f. true };

    ghost form = { carry_form };

    fn put(&self, out: &mut Vec<u8>) -> Result<(), AllocError> {
        let kind = match *self {
            Carry::Nothing => 0,
            Carry::Origin => 1,
        };
        out.push(kind)?;
        Ok(())
    }

    fn take(bytes: &[u8]) -> Option<(Carry, usize)> {
        match bytes {
            [0, ..] => Some((Carry::Nothing, 1)),
            [1, ..] => Some((Carry::Origin, 1)),
            _ => None,
        }
    }

    ghost not_empty = { not_empty };

    ghost at_most_max = { at_most_one };

    ghost prefix_free = { prefix_free };
}

impl EdgeFn for Carry {
    ghost use Rattle.ide_example.specs.Carry.{carries};
    ghost use Rattle.ide_example.specs.CarryLaws.{carries_are_edge_functions, equal_carries};

    type L = Origin;

    const HEIGHT: u16 = 1;

    ghost HEIGHT = { 1 };

    ghost edge = { carries };

    fn id() -> Carry {
        Carry::Origin
    }

    fn all_top() -> Carry {
        Carry::Nothing
    }

    fn apply(self, x: Origin) -> Origin {
        match self {
            Carry::Nothing => Origin::Program,
            Carry::Origin => x,
        }
    }

    fn compose(self, next: Carry) -> Carry {
        match self {
            Carry::Nothing => self,
            Carry::Origin => next,
        }
    }

    fn meet(self, other: Carry) -> Carry {
        match self {
            Carry::Nothing => other,
            Carry::Origin => self,
        }
    }

    fn rank(self) -> u16 {
        match self {
            Carry::Nothing => 1,
            Carry::Origin => 0,
        }
    }

    fn proper(self) -> bool {
        true
    }

    ghost lawful = { carries_are_edge_functions };

    ghost height = { refl };

    ghost exact = { equal_carries };

    ghost proper_as_coded = { λ f. refl };

    ghost few_bytes = { lit≤ tt };

    ghost default_is_all_top = { λ f is. is };
}
