//! The half of a store that works, as what hands work over.
ghost use Rattle.std.specs.Prelude.{◌≡◌, [], None, Some, false};
ghost use Rattle.ide_image.specs.Worklist.{claim_at};
ghost use Rattle.ide_service.specs.Refusing.{HalfRefuses, IsWaiting};
ghost use Rattle.ide_store.specs.TableCalls.{TakesTask};

use crate::hands::Hands;
use ide_problem::Problem;
use ide_steps::{Claimed, Parted};
use ide_store::{Kept, TableHalf};
use ide_tasks::Work;
use ide_wire::Refused;

/// A half after a failed disk call has no use for claims: it is opened again.
impl<P: Problem> Hands<P> for TableHalf<P> {
    ghost rests = { λ table. table.core.pile.pending ≡ [] };

    ghost waits = { λ table. IsWaiting table.core };

    ghost is_free = { λ table hand. table.failed ≡ false → claim_at table.core.pile hand ≡ None };

    ghost takes = { λ hand old new task. TakesTask ⟦<P as Kept>⟧.analysis hand old new task };

    ghost is_sealed = { λ table. table.core.changes ≡ Some [] };

    ghost refuses = { λ table call why. HalfRefuses ⟦<P as Kept>⟧.analysis table call why };

    fn claim(&mut self, hand: usize) -> Result<Claimed<P>, Refused> {
        TableHalf::claim(self, hand)
    }

    fn parts(&mut self, hand: usize, work: &mut Work<P>, most: usize) -> Result<usize, Refused> {
        for count in 0..most {
            match TableHalf::part(self, hand, work) {
                Ok(Parted::NoPart) => return Ok(count),
                Ok(_) => {}
                Err(refused) => return Err(refused),
            }
        }
        Ok(most)
    }

    fn finish(&mut self, hand: usize, work: &Work<P>) -> Result<(), Refused> {
        TableHalf::finish(self, hand, work)
    }

    fn release(&mut self, hand: usize) {
        let _ = TableHalf::release(self, hand);
    }

    fn seal(&mut self) -> Result<(), Refused> {
        match TableHalf::seal(self) {
            Ok(_) => Ok(()),
            Err(refused) => Err(refused),
        }
    }

    /// It has the half to itself, so that no other hand works meanwhile.
    fn pause(&mut self) {}
}
