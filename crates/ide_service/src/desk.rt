//! The desk under the table's lock, as what hands work over.
ghost use Rattle.std.specs.Prelude.{◌≡◌, [], None, Some, false};
ghost use Rattle.ide_image.specs.Worklist.{claim_at};
ghost use Rattle.ide_service.specs.Refusing.{HalfRefuses, IsWaiting};
ghost use Rattle.ide_store.specs.TableCalls.{TakesTask};

use crate::hands::Hands;
use ide_desks::{Accord, TableDesk};
use ide_problem::Problem;
use ide_steps::{Claimed, Parted};
use ide_store::Kept;
use ide_tasks::Work;
use ide_wire::Refused;

/// Whoever has the lock has the desk to itself. After a failed disk call it has no use for claims: the store is
/// opened again.
impl<P: Problem, J: Accord> Hands<P> for TableDesk<P, J> {
    ghost rests = { λ desk. desk.half.core.pile.pending ≡ [] };

    ghost waits = { λ desk. IsWaiting desk.half.core };

    ghost is_free = { λ desk hand. desk.half.failed ≡ false → claim_at desk.half.core.pile hand ≡ None };

    ghost takes = { λ hand old new task. TakesTask ⟦<P as Kept>⟧.analysis hand old.half new.half task };

    ghost is_sealed = { λ desk. desk.half.core.changes ≡ Some [] };

    ghost refuses = { λ desk call why. HalfRefuses ⟦<P as Kept>⟧.analysis desk.half call why };

    fn claim(&mut self, hand: usize) -> Result<Claimed<P>, Refused> {
        TableDesk::claim(self, hand)
    }

    fn parts(&mut self, hand: usize, work: &mut Work<P>, most: usize) -> Result<usize, Refused> {
        for count in 0..most {
            match TableDesk::part(self, hand, work) {
                Ok(Parted::NoPart) => return Ok(count),
                Ok(_) => {}
                Err(refused) => return Err(refused),
            }
        }
        Ok(most)
    }

    fn finish(&mut self, hand: usize, work: &Work<P>) -> Result<(), Refused> {
        TableDesk::finish(self, hand, work)
    }

    fn release(&mut self, hand: usize) {
        let _ = TableDesk::release(self, hand);
    }

    fn seal(&mut self) -> Result<(), Refused> {
        match TableDesk::seal(self) {
            Ok(_) => Ok(()),
            Err(refused) => Err(refused),
        }
    }

    /// No other hand works meanwhile.
    fn pause(&mut self) {}
}
