//! A meet semilattice of finite height.
ghost use Rattle.std.specs.Prelude.{◌≡◌, ◌++◌, ◌↔◌, ℕ, List, IsTrue, true, OnOk, OnErr};
ghost use Rattle.ide_lattice.specs.Algebra.{LatticeAlgebra};
ghost use Rattle.ide_lattice.specs.Laws.{IsLattice};

use std::alloc::AllocError;

/// The values of an analysis: a meet semilattice with a top and a bottom. Top says that no path
/// reaches, and `a` is below `b` where their meet is `a`.
pub trait Lattice: Copy + Eq {
    /// The rank of top: no chain that falls from it is longer.
    const HEIGHT: u16;

    ghost HEIGHT: { ℕ };

    ghost algebra: { LatticeAlgebra Self };

    ghost shown: { Self → List ℕ };

    /// The value where no path reaches.
    fn top() -> Self
        ensures { result ≡ algebra.top };

    /// The value of which nothing is known.
    fn bottom() -> Self
        ensures { result ≡ algebra.bottom };

    /// The greatest value below both.
    fn meet(self, other: Self) -> Self
        ensures { result ≡ algebra.meet self other };

    /// How far above bottom the value is: a meet that changes a value has a smaller rank.
    fn rank(self) -> u16
        ensures { result ≡ algebra.rank self };

    /// Whether the numbers of the value fit their types: true of each value that a program holds.
    fn proper(self) -> bool
        ensures yes { IsTrue result }
        ensures proper { IsTrue (algebra.proper self) };

    /// Appends the printed form of the value: `top`, `bottom`, or what the lattice says.
    fn show(self, out: &mut Vec<u8>) -> Result<(), AllocError>
        ensures ok { OnOk result (out.new.items ≡ out.old.items ++ shown self) }
        ensures err { OnErr result (out.new.items ≡ out.old.items) };

    ghost lawful: { IsLattice algebra };

    ghost height: { algebra.height ≡ HEIGHT };

    ghost exact: { (x y : Self) → Self.eq x y ≡ true → x ≡ y };
}
