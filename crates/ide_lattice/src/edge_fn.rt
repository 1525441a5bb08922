//! Edge functions: the coded functions over a lattice that edges, jumps and summaries carry.
ghost use Rattle.std.specs.Prelude.{◌≡◌, ◌≤◌, ℕ, IsTrue, true};
ghost use Rattle.ide_lattice.specs.Algebra.{EdgeAlgebra};
ghost use Rattle.ide_lattice.specs.Laws.{IsEdgeAlgebra};

use crate::lattice::Lattice;
use ide_wire::Wire;

/// A class of functions over a lattice that is closed under composition and meet, each in one
/// coded form of at most 32 bytes: equality of forms is equality of functions. Every function maps
/// top to top, and the default is the function that always gives top.
pub trait EdgeFn: Wire + Copy + Eq + Default {
    /// The values that the functions map.
    type L: Lattice;

    /// The rank of the always-top function: no entry of a table is lowered more often.
    const HEIGHT: u16;

    ghost HEIGHT: { ℕ };

    ghost edge: { EdgeAlgebra Self Self.L };

    /// The identity.
    fn id() -> Self
        ensures { result ≡ edge.id };

    /// The function that always gives top, which an absent entry stands for.
    fn all_top() -> Self
        ensures { result ≡ edge.all_top };

    /// The function's value at `x`.
    fn apply(self, x: Self::L) -> Self::L
        ensures { result ≡ edge.apply self x };

    /// `self`, then `next`.
    fn compose(self, next: Self) -> Self
        ensures { result ≡ edge.compose self next };

    /// The function that gives the meet of both values everywhere.
    fn meet(self, other: Self) -> Self
        ensures { result ≡ edge.meet self other };

    /// How far above the lowest function it is: a meet that changes a function has a smaller rank.
    fn rank(self) -> u16
        ensures { result ≡ edge.rank self };

    /// Whether the numbers of the function fit their types: true of each that a program holds.
    fn proper(self) -> bool
        ensures yes { IsTrue result }
        ensures proper { IsTrue (edge.proper self) };

    ghost lawful: { IsEdgeAlgebra Self.L.algebra edge };

    ghost height: { edge.height ≡ HEIGHT };

    ghost exact: { (f g : Self) → Self.eq f g ≡ true → f ≡ g };

    ghost proper_as_coded: { (f : Self) → Self.proper f ≡ edge.proper f };

    ghost few_bytes: { Self.MAX ≤ 32 };

    ghost default_is_all_top: { (f : Self) → Self.is_default f → f ≡ edge.all_top };
}
