//! A task with its parts.
ghost use Rattle.std.specs.Prelude.{◌≡◌, ◌+◌, IfErr, IfNone, IfOk, length, min, slice_get};
ghost use Rattle.ide_tasks.specs.Parts.{owed};

use crate::parts::parts_of;
use crate::task::Task;
use ide_problem::Problem;
use ide_wire::{Key, Refused};
use std::alloc::Global;
use std::marker::Model;

/// A task, its parts in the order in which they are owed, and how many are done.
#[derive(Drop)]
pub struct Work<P: Problem> {
    task: Task<P>,
    parts: Vec<(Key, P::F)>,
    done: usize,
}

impl<P: Problem> Model for Work<P> {
    ghost use Rattle.std.specs.Prelude.{◌≡◌, ◌≤◌, length};
    ghost use Rattle.ide_tasks.specs.Parts.{owed};
    ghost use Rattle.ide_tasks.specs.Work.{WorkData};

    ghost Value = { WorkData P.F };

    ghost view = { λ w. record { task = w.task; parts = w.parts.items; done = w.done } };

    ghost invariant = { λ w. (w.done ≤ length w.parts.items) × (w.parts.items ≡ owed P.F.edge P.targets w.task) };
}

impl<P: Problem> Work<P> {
    /// The work of a task, with no part done: that of the claim which gave the task, as it stands
    /// then. Where memory is wanting, the task comes back.
    pub fn of(alloc: Global, task: Task<P>) -> Result<Work<P>, (Refused, Task<P>)>
        ensures task { IfOk result (λ work. work.task ≡ task) }
        ensures parts { IfOk result (λ work. work.parts ≡ owed P.F.edge P.targets task) }
        ensures none_done { IfOk result (λ work. work.done ≡ 0) }
        ensures refused { IfErr result (λ e. (e.0 ≡ Refused.NoMemory) × (e.1 ≡ task)) }
    {
        match parts_of(alloc, &task) {
            Ok(parts) => Ok(Work {
                task,
                parts,
                done: 0,
            }),
            Err(_) => Err((Refused::NoMemory, task)),
        }
    }

    /// The task that the parts are of.
    pub fn task(&self) -> &Task<P>
        ensures task { result.now ≡ self.now.task }
        ensures owed { self.now.parts ≡ owed P.F.edge P.targets self.now.task }
    {
        &self.task
    }

    /// All parts of the task, done or not, in the order in which they are done: each a key and the
    /// function that its entry is met with.
    pub fn parts(&self) -> &[(Key, P::F)]
        ensures parts { result.now ≡ self.now.parts }
        ensures owed { result.now ≡ owed P.F.edge P.targets self.now.task }
    {
        self.parts.as_slice()
    }

    /// How many parts are done.
    pub fn done(&self) -> usize
        ensures { result ≡ self.now.done }
    {
        self.done
    }

    /// The first part that is not done.
    pub fn next(&self) -> Option<(Key, P::F)>
        ensures next { result ≡ slice_get self.now.parts self.now.done }
        ensures owed { self.now.parts ≡ owed P.F.edge P.targets self.now.task }
        ensures all_done { IfNone result (self.now.done ≡ length self.now.parts) }
    {
        self.parts.get(self.done).copied()
    }

    /// Counts the next part as done, if one is left.
    pub fn advance(&mut self)
        ensures task { self.new.task ≡ self.old.task }
        ensures parts { self.new.parts ≡ self.old.parts }
        ensures done { self.new.done ≡ min (self.old.done + 1) (length self.old.parts) }
    {
        if self.done < self.parts.len() {
            self.done += 1;
        }
    }
}
