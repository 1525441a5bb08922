//! A hand of a service: it takes the table's lock for each of its calls, and for as many tasks as its gate lets it
//! do unasked.
ghost use Rattle.std.specs.Prelude.{◌≡◌, Some, false, true};
ghost use Rattle.ide_service.specs.Refusing.{SharedRefuses};

use crate::hands::{Hands, claim_ahead};
use crate::patience::Patience;
use crate::service::Service;
use ide_desks::Accord;
use ide_disk::Disk;
use ide_problem::Problem;
use ide_steps::Claimed;
use ide_store::Kept;
use ide_tasks::Work;
use ide_wire::Refused;
use std::sync::Wait;
use std::time::Clock;

/// What a hand saw of the keys that were pending when it claimed.
#[derive(Clone, Copy, PartialEq, Eq, Debug)]
pub(crate) enum Seen {
    /// One that it has claimed since.
    Task,
    /// Some, each of them claimed.
    Idle,
    /// None.
    Quiet,
}

/// One hand, and the service that it works on.
#[derive(Drop)]
pub(crate) struct SharingHand<'a, R: Wait + Clock, P: Kept, D: Disk, J: Accord> {
    rt: &'a R,
    service: &'a Service<P, D, J>,
    /// How many whole tasks it does in one hold of the lock before it claims the next.
    ahead: usize,
    /// How it waits since it had a task.
    patience: Patience,
    /// What it saw when it last claimed.
    seen: Option<Seen>,
    /// It has no claim.
    free: bool,
}

impl<'a, R: Wait + Clock, P: Problem, D: Disk, J: Accord> SharingHand<'a, R, P, D, J> {
    /// A hand that has no claim.
    pub(crate) fn new(rt: &'a R, service: &'a Service<P, D, J>, ahead: usize) -> Self
        ensures { result.free ≡ true }
    {
        SharingHand {
            rt,
            service,
            ahead,
            patience: Patience::new(),
            seen: None,
            free: true,
        }
    }
}

/// What a hand knows of the others ends with its hold of the lock: it rests, or waits, where its last claim
/// found the store so, and it is refused as the store was that it met.
impl<'a, R: Wait + Clock, P: Problem, D: Disk, J: Accord> Hands<P> for SharingHand<'a, R, P, D, J> {
    ghost use Rattle.ide_service.specs.declared.sharing.Seen.{Seen};

    ghost rests = { λ hands. hands.seen ≡ Some Seen.Quiet };

    ghost waits = { λ hands. hands.seen ≡ Some Seen.Idle };

    ghost is_free = { λ hands _. hands.free ≡ true };

    ghost takes = { λ _ _ new _. new.free ≡ false };

    ghost is_sealed = { λ _. Unit {0} };

    ghost refuses = { λ _ call why. SharedRefuses ⟦<P as Kept>⟧.analysis call why };

    fn claim(&mut self, hand: usize) -> Result<Claimed<P>, Refused> {
        let alloc = self.service.alloc();
        let mut table = self.service.table_for(self.rt, self.ahead);
        match claim_ahead(self.rt, alloc, &mut *table, hand, self.ahead) {
            Ok(Claimed::Task(task)) => {
                self.seen = Some(Seen::Task);
                self.patience = Patience::new();
                self.free = false;
                Ok(Claimed::Task(task))
            }
            Ok(Claimed::Idle) => {
                self.seen = Some(Seen::Idle);
                Ok(Claimed::Idle)
            }
            Ok(Claimed::Quiet) => {
                self.seen = Some(Seen::Quiet);
                Ok(Claimed::Quiet)
            }
            Err(refused) => Err(refused),
        }
    }

    fn parts(&mut self, hand: usize, work: &mut Work<P>, most: usize) -> Result<usize, Refused> {
        Hands::parts(&mut *self.service.table(self.rt), hand, work, most)
    }

    fn finish(&mut self, hand: usize, work: &Work<P>) -> Result<(), Refused> {
        match Hands::finish(&mut *self.service.table(self.rt), hand, work) {
            Ok(()) => {
                self.free = true;
                Ok(())
            }
            Err(refused) => Err(refused),
        }
    }

    fn release(&mut self, hand: usize) {
        Hands::release(&mut *self.service.table(self.rt), hand);
        self.free = true;
    }

    fn seal(&mut self) -> Result<(), Refused> {
        match self.service.seal(self.rt) {
            Ok(_) => Ok(()),
            Err(refused) => Err(refused),
        }
    }

    fn pause(&mut self) {
        self.patience.wait(self.rt);
    }
}
