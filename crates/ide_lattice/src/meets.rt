//! Finite meets of functions, by the laws alone.
ghost use Rattle.std.specs.Prelude.{◌≡◌, IsTrue, All, fold, map};
ghost use Rattle.ide_lattice.specs.Meets.{meet_all};

use crate::edge_fn::EdgeFn;
use crate::lattice::Lattice;

/// The value at `x` of the meet of the functions, got as the meet of their values: no function is
/// made on the way. Top where there is no function.
pub fn value_of_meet<F: EdgeFn>(functions: &[F], x: F::L) -> F::L
    requires functions { All (λ f. IsTrue (F.edge.proper f)) functions.now }
    requires value { IsTrue (F.L.algebra.proper x) }
    ensures { result ≡ F.edge.apply (meet_all F.edge functions.now) x }
{
    meet_of_values(functions, x)
}

/// The meet of the values of the functions at `x`.
fn meet_of_values<F: EdgeFn>(functions: &[F], x: F::L) -> F::L
    ensures { result ≡ fold F.L.algebra.meet F.L.algebra.top (map (λ f. F.edge.apply f x) functions.now) }
{
    functions
        .iter()
        .map(|function| function.apply(x))
        .fold(F::L::top(), |all, value| all.meet(value))
}
