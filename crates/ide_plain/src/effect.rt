//! What an edge does to an environment.
ghost use Rattle.std.specs.Prelude.{◌≡◌, ◌≤◌, ◌^◌, IfOk, length};
ghost use Rattle.ide_problem.specs.Flow.{function_to};
ghost use Rattle.ide_plain.specs.Effect.{ComeOut, ComesOut};

use ide_graph::EdgeData;
use ide_lattice::{EdgeFn, Lattice};
use ide_problem::{Problem, TargetList};
use ide_solver::Shown;
use ide_wire::Fact;
use std::alloc::{AllocError, Global};

/// The environment after an edge, of as many facts as the one before it: each fact's value is that
/// of [`value_after`].
pub fn environment_after<P: Problem>(
    alloc: Global,
    edge: &EdgeData,
    environment: &[P::L],
) -> Result<Vec<P::L>, AllocError>
    requires few { length environment.now ≤ 2 ^ 16 }
    ensures facts { IfOk result (λ after. length after.items ≡ length environment.now) }
    ensures effect { IfOk result (ComeOut ⟦<P as Shown>⟧.analysis edge.now environment.now) }
{
    let mut after = Vec::with_capacity(alloc, environment.len())?;
    for fact in 0..environment.len() {
        after.push(value_after::<P>(alloc, edge, environment, fact as Fact)?)?;
    }
    Ok(after)
}

/// The value of a fact after an edge: the meet, over all facts before it, of what the flow of the
/// analysis makes of their values.
pub fn value_after<P: Problem>(
    alloc: Global,
    edge: &EdgeData,
    environment: &[P::L],
    fact: Fact,
) -> Result<P::L, AllocError>
    requires few { length environment.now ≤ 2 ^ 16 }
    ensures effect { IfOk result (ComesOut ⟦<P as Shown>⟧.analysis edge.now environment.now fact) }
{
    let mut targets = TargetList::new(alloc);
    let mut value = P::L::top();
    for (index, before) in environment.iter().enumerate() {
        targets.clear();
        P::flow(edge, index as Fact, &mut targets)?;
        value = value.meet(function_to(&targets, fact).apply(*before));
    }
    Ok(value)
}

/// The function to a fact: that of the first target which is the fact, else the one that always
/// gives top.
fn function_to<F: EdgeFn>(targets: &TargetList<F>, fact: Fact) -> F
    ensures { result ≡ function_to F.edge fact targets.now.list.items }
{
    for (target, function) in targets.list.as_slice() {
        if *target == fact {
            return *function;
        }
    }
    F::all_top()
}
