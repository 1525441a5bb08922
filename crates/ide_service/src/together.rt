//! Several hands and one that writes, each on a thread of its own.
ghost use Rattle.std.specs.Prelude.{OnOk};
ghost use Rattle.ide_values.specs.Refusal.{AreWorkers};

use crate::apart::Span;
use crate::hands::{Ended, Gate};
use crate::service::Service;
use ide_desks::Accord;
use ide_disk::Disk;
use ide_problem::Problem;
use ide_steps::HANDS;
use ide_store::Kept;
use ide_wire::Refused;
use std::alloc::Global;
use std::sync::Wait;
use std::thread;
use std::thread::Threads;
use std::time::Clock;

/// Who works together: hands, and one that writes what they do until it is told that they have ended.
pub trait Team {
    /// Lets the worker of that number work until nothing is left.
    fn work(&self, hand: usize) -> Result<Ended, Refused>;

    /// Writes what the hands do, until stop was raised and nothing is left to write.
    fn commit(&self) -> Result<Ended, Refused>;

    /// Says that the hands have ended.
    fn raise_stop(&self);
}

/// The hands of a service and its committer, whom one gate may stop.
#[derive(Drop)]
pub struct Crew<'a, R: Wait + Clock, P: Kept, D: Disk, J: Accord, G: Gate> {
    pub rt: &'a R,
    pub service: &'a Service<P, D, J>,
    pub gate: &'a G,
    /// How many keys each worker claims at once, by as many hands, and computes with no lock held: 1 where functions are
    /// cheap, and some 16 where they are dear.
    pub keys: usize,
}

impl<'a, R: Wait + Clock, P: Problem, D: Disk, J: Accord, G: Gate> Team
    for Crew<'a, R, P, D, J, G> {
    fn work(&self, hand: usize) -> Result<Ended, Refused> {
        if self.keys == 1 {
            return self.service.work(self.rt, hand, self.gate);
        }
        let span = Span {
            first: hand.saturating_mul(self.keys),
            count: self.keys,
        };
        self.service.work_apart(self.rt, span, self.gate)
    }

    fn commit(&self) -> Result<Ended, Refused> {
        self.service.commit(self.rt, self.gate)
    }

    fn raise_stop(&self) {
        self.service.raise_stop();
    }
}

/// Lets so many hands work, from 1 to 64, hand 0 on the calling thread, while a committer on a thread of its
/// own writes what they do, until no key is pending or a gate stops them, and all is written. A hand that no
/// thread can be made for is left out, and so the work falls to the others; a committer that none can be made
/// for runs after the hands.
///
/// Refusals: `Limit`, where there are no hands or more than 64; `NoMemory`, before anything is done; that of
/// the committer, or else that of the least hand which has one. What was done before stays.
pub fn work_together<R: Threads + Wait + Sync, T: Team + Sync>(
    rt: &R,
    alloc: Global,
    team: &T,
    workers: usize,
) -> Result<(), Refused>
    ensures workers { OnOk result (AreWorkers workers) }
{
    if workers == 0 || workers > HANDS {
        return Err(Refused::Limit);
    }
    thread::scope(thread::scope_env(), rt, |scope| -> Result<(), Refused> {
        let mut hands = Vec::with_capacity(alloc, workers)?;
        let committer = scope.spawn(|| team.commit());
        for hand in 1..workers {
            if let Ok(handle) = scope.spawn(move || team.work(hand)) {
                if hands.push(handle).is_err() {
                    break;
                }
            }
        }
        let mut refused = team.work(0).err();
        for handle in hands {
            refused = refused.or(handle.join(rt).err());
        }
        team.raise_stop();
        let stored = match committer {
            Ok(handle) => handle.join(rt),
            Err(_) => team.commit(),
        };
        first_refusal(stored.err(), refused)
    })
}

/// The one refusal or else the other, if there is one.
fn first_refusal(first: Option<Refused>, second: Option<Refused>) -> Result<(), Refused> {
    match first.or(second) {
        Some(refused) => Err(refused),
        None => Ok(()),
    }
}
