//! The answers of the half of a store that works, and of a service.
ghost use Rattle.std.specs.Prelude.{◌≡◌, Some, IfErr, IfOk, OnOk};
ghost use Rattle.ide_service.specs.Served.{AreAnswersOfRun, AreAnswersOver, IsAnswerRefusal, IsAnswerable, IsServedRefusal};
ghost use Rattle.ide_values.specs.Refusal.{AreWorkers};

use crate::runs::values_of_runs_are_best;
use crate::service::Service;
use ide_desks::Accord;
use ide_disk::Disk;
use ide_problem::Problem;
use ide_steps::cores_are_whole;
use ide_store::{Kept, TableHalf};
use ide_values::{ValuePhase, Values};
use ide_wire::Refused;
use std::alloc::Global;
use std::sync::Wait;
use std::thread::Threads;

/// The values of the image as it stands, by so many workers: at each node and fact the best value for the
/// program and the roots of the run that led to the image, however often that was stopped and opened
/// again. The half goes on.
///
/// Refusals, in this order: those of [`TableHalf::freeze`]; those of [`ValuePhase::values`].
pub fn values_of_table<R: Threads + Sync, P: Problem>(
    rt: &R,
    alloc: Global,
    table: &TableHalf<P>,
    workers: usize,
) -> Result<Values<P>, Refused>
where
    P::F: Sync,
    P::L: Send + Sync,
    ensures workers { OnOk result (AreWorkers workers) }
    ensures best { IfOk result (AreAnswersOver ⟦<P as Kept>⟧.analysis table.now) }
    ensures graph { IfOk result (λ values. table.now.core.graph ≡ Some values.graph) }
    ensures roots { IfOk result (λ values. values.roots ≡ table.now.core.roots) }
    ensures answerable { IfOk result (λ _. IsAnswerable table.now) }
    ensures refused { IfErr result (IsAnswerRefusal table.now workers) }
{
    cores_are_whole(table.core());
    values_of_runs_are_best::<P>();
    let closed = table.freeze()?;
    closed.values(rt, alloc, workers)
}

/// The values of a service's image as it stands, by so many workers: whatever hands and clients did before, and
/// however often the store was stopped and opened again, at each node and fact the best value for the program and
/// the roots of its run. The service goes on.
///
/// Refusals, in this order: those of [`TableHalf::freeze`]; those of [`ValuePhase::values`].
pub fn values_of_service<R: Threads + Wait + Sync, P: Problem, D: Disk, J: Accord>(
    rt: &R,
    alloc: Global,
    service: &Service<P, D, J>,
    workers: usize,
) -> Result<Values<P>, Refused>
where
    P::F: Sync,
    P::L: Send + Sync,
    ensures workers { OnOk result (AreWorkers workers) }
    ensures best { J.told → IfOk result (λ values. ∥ AreAnswersOfRun ⟦<P as Kept>⟧.analysis values ∥₁) }
    ensures refused { IfErr result (IsServedRefusal P.F workers) }
{
    values_of_runs_are_best::<P>();
    match service.freeze(rt) {
        Ok(closed) => closed.values(rt, alloc, workers),
        Err(refused) => Err(refused),
    }
}
