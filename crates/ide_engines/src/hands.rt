//! Hands that work with the half of a store that works, each with the work of its claim.
use ide_problem::Problem;
use ide_steps::{Claimed, Parted};
use ide_store::TableHalf;
use ide_tasks::{Task, Work};
use ide_wire::Refused;
use std::alloc::Global;

/// The most tasks that a hand does, and the most parts of one.
const MANY: usize = 200_000;

/// What a claim gave, without its task.
#[derive(Clone, Copy, PartialEq, Eq)]
pub enum Given {
    /// A task, which the hand works on.
    Task,
    /// None, since other hands have claimed all that is pending.
    Idle,
    /// None, since nothing is pending.
    Quiet,
}

/// A hand, with the work of its claim.
#[derive(Drop)]
pub struct Hand<P: Problem> {
    number: usize,
    work: Option<Work<P>>,
}

/// The work of a task.
fn work_of<P: Problem>(alloc: Global, task: Task<P>) -> Result<Work<P>, Refused> {
    match Work::of(alloc, task) {
        Ok(work) => Ok(work),
        Err(_) => Err(Refused::NoMemory),
    }
}

/// What a claim of the hand of that number gives.
fn claim<P: Problem>(table: &mut TableHalf<P>, number: usize) -> Result<Claimed<P>, Refused> {
    let claimed = table.claim(number)?;
    Ok(claimed)
}

/// Does the next part of the work, with the hand of that number.
fn part<P: Problem>(
    table: &mut TableHalf<P>,
    number: usize,
    work: &mut Work<P>,
) -> Result<Parted, Refused> {
    let parted = table.part(number, work)?;
    Ok(parted)
}

/// Ends the claim of the hand of that number.
fn finish<P: Problem>(
    table: &mut TableHalf<P>,
    number: usize,
    work: &Work<P>,
) -> Result<(), Refused> {
    table.finish(number, work)?;
    Ok(())
}

/// Gives the claim of the hand of that number back.
fn release<P: Problem>(table: &mut TableHalf<P>, number: usize) -> Result<(), Refused> {
    table.release(number)?;
    Ok(())
}

impl<P: Problem> Hand<P> {
    /// The hand of that number, with no claim.
    pub fn new(number: usize) -> Hand<P> {
        Hand { number, work: None }
    }

    /// Claims a key, and keeps its work.
    pub fn claim(&mut self, alloc: Global, table: &mut TableHalf<P>) -> Result<Given, Refused> {
        match claim(table, self.number)? {
            Claimed::Task(task) => {
                self.work = Some(work_of(alloc, task)?);
                Ok(Given::Task)
            }
            Claimed::Idle => Ok(Given::Idle),
            Claimed::Quiet => Ok(Given::Quiet),
        }
    }

    /// Does the next part of its work.
    pub fn part(&mut self, table: &mut TableHalf<P>) -> Result<Parted, Refused> {
        match &mut self.work {
            Some(work) => part(table, self.number, work),
            None => Err(Refused::Stale),
        }
    }

    /// Does all parts of its work that are left, up to so many, and answers how many there were.
    pub fn parts(&mut self, table: &mut TableHalf<P>, most: usize) -> Result<usize, Refused> {
        for count in 0..most {
            if self.part(table)? == Parted::NoPart {
                return Ok(count);
            }
        }
        Ok(most)
    }

    /// Ends its claim, with all parts done.
    pub fn finish(&mut self, table: &mut TableHalf<P>) -> Result<(), Refused> {
        match &self.work {
            Some(work) => finish(table, self.number, work)?,
            None => return Err(Refused::Stale),
        }
        self.work = None;
        Ok(())
    }

    /// Gives its claim back.
    pub fn release(&mut self, table: &mut TableHalf<P>) -> Result<(), Refused> {
        release(table, self.number)?;
        self.work = None;
        Ok(())
    }

    /// Does one part, or ends its claim where none is left. Without a claim it takes one.
    pub fn step(&mut self, alloc: Global, table: &mut TableHalf<P>) -> Result<(), Refused> {
        if self.work.is_none() {
            self.claim(alloc, table)?;
        } else if self.part(table)? == Parted::NoPart {
            self.finish(table)?;
        }
        Ok(())
    }

    /// Goes on with its task, or claims one, and does it; answers whether there was one. Where a call is
    /// refused it keeps its work.
    fn do_task(&mut self, alloc: Global, table: &mut TableHalf<P>) -> Result<bool, Refused> {
        if self.work.is_none() && self.claim(alloc, table)? != Given::Task {
            return Ok(false);
        }
        self.parts(table, MANY)?;
        self.finish(table)?;
        Ok(true)
    }

    /// Does all tasks that no other hand has, and answers how many.
    pub fn drain(&mut self, alloc: Global, table: &mut TableHalf<P>) -> Result<usize, Refused> {
        for tasks in 0..MANY {
            if !self.do_task(alloc, table)? {
                return Ok(tasks);
            }
        }
        Ok(MANY)
    }
}
