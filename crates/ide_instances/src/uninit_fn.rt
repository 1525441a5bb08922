//! The functions over the lattice of two values.
ghost use Rattle.std.specs.Prelude.{◌≡◌, ◌++◌, true};
ghost use Rattle.std.proofs.Common.{refl, lit≤};

use crate::uninit_value::UninitValue;
use ide_lattice::EdgeFn;
use ide_wire::Wire;
use std::alloc::AllocError;

/// A function over [`UninitValue`] that maps top to top: there are two.
#[derive(Clone, Copy, PartialEq, Eq, Debug, Default)]
pub enum UninitFn {
    /// Always top.
    #[default]
    AllTop,
    /// The identity.
    Id,
}

impl Wire for UninitFn {
    ghost use Rattle.ide_instances.specs.UninitForm.{uninit_fn_form, uninit_fn_not_empty, uninit_fn_at_most, uninit_fn_prefix_free};

    const MAX: usize = 1;

    ghost MAX = { 1 };

    ghost proper = { λ f. true };

    ghost form = { uninit_fn_form };

    fn put(&self, out: &mut Vec<u8>) -> Result<(), AllocError> {
        let kind = match *self {
            UninitFn::AllTop => 0,
            UninitFn::Id => 1,
        };
        out.push(kind)?;
        Ok(())
    }

    fn take(bytes: &[u8]) -> Option<(UninitFn, usize)> {
        match bytes {
            [0, ..] => Some((UninitFn::AllTop, 1)),
            [1, ..] => Some((UninitFn::Id, 1)),
            _ => None,
        }
    }

    ghost not_empty = { uninit_fn_not_empty };

    ghost at_most_max = { uninit_fn_at_most };

    ghost prefix_free = { uninit_fn_prefix_free };
}

impl EdgeFn for UninitFn {
    ghost use Rattle.ide_instances.specs.UninitFn.{uninit_edge};
    ghost use Rattle.ide_instances.specs.UninitLaws.{uninit_functions, uninit_fn_exact};

    type L = UninitValue;

    const HEIGHT: u16 = 1;

    ghost HEIGHT = { 1 };

    ghost edge = { uninit_edge };

    fn id() -> UninitFn {
        UninitFn::Id
    }

    fn all_top() -> UninitFn {
        UninitFn::AllTop
    }

    fn apply(self, x: UninitValue) -> UninitValue {
        match self {
            UninitFn::AllTop => UninitValue::Top,
            UninitFn::Id => x,
        }
    }

    #[inline(always)]
    fn compose(self, next: UninitFn) -> UninitFn {
        match self {
            UninitFn::AllTop => self,
            UninitFn::Id => next,
        }
    }

    fn meet(self, other: UninitFn) -> UninitFn {
        match self {
            UninitFn::AllTop => other,
            UninitFn::Id => self,
        }
    }

    fn rank(self) -> u16 {
        match self {
            UninitFn::AllTop => 1,
            UninitFn::Id => 0,
        }
    }

    fn proper(self) -> bool {
        true
    }

    ghost lawful = { uninit_functions };

    ghost height = { refl };

    ghost exact = { uninit_fn_exact };

    ghost proper_as_coded = { λ f. refl };

    ghost few_bytes = { lit≤ tt };

    ghost default_is_all_top = { λ f is. is };
}
