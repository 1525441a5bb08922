//! Hands: what one does with its claims, and programs that are tabulated part by part.
use super::cores::{begin, given};
use super::tables::expect_two_calls;
use ide_instances::CopyConst;
use ide_problem::Problem;
use ide_steps::{Claimed, Core, Parted};
use ide_tasks::{Task, Work};
use ide_wire::Refused;
use ide_worked::TWO_CALLS;
use std::process::Abort;

/// What a claim gave, without its task.
#[derive(Clone, Copy, PartialEq, Eq)]
pub(crate) enum Given {
    Task,
    Idle,
    Quiet,
}

/// A hand, with the work of its claim.
#[derive(Drop)]
pub(crate) struct Hand<P: Problem> {
    number: usize,
    claims: u64,
    work: Option<Work<P>>,
}

/// The work of a task.
fn work_of<P: Problem>(rt: &(impl Abort + AllocGlobal), task: Task<P>) -> Work<P> {
    match Work::of(rt.alloc(), task) {
        Ok(work) => work,
        Err(_) => panic!(rt; "no memory"),
    }
}

/// Does up to `most` of the next parts of the work, and answers how many.
fn parts<P: Problem>(
    core: &mut Core<P>,
    number: usize,
    work: &mut Work<P>,
    most: usize,
) -> Result<usize, Refused> {
    let count = core.parts(number, work, most)?;
    Ok(count)
}

/// Ends the claim of the hand of that number.
fn finish<P: Problem>(core: &mut Core<P>, number: usize, work: &Work<P>) -> Result<(), Refused> {
    core.finish(number, work)?;
    Ok(())
}

/// Gives the claim of the hand of that number back.
pub(crate) fn release<P: Problem>(core: &mut Core<P>, number: usize) -> Result<(), Refused> {
    core.release(number)?;
    Ok(())
}

impl<P: Problem> Hand<P> {
    /// The hand of that number, with no claim.
    pub(crate) fn new(number: usize) -> Hand<P> {
        Hand {
            number,
            claims: 0,
            work: None,
        }
    }

    /// Keeps the work of the task that it was given, if there is one.
    fn keep(&mut self, rt: &(impl Abort + AllocGlobal), claimed: Claimed<P>) -> Given {
        match claimed {
            Claimed::Task(task) => {
                self.claims = self.claims.saturating_add(1);
                self.work = Some(work_of(rt, task));
                Given::Task
            }
            Claimed::Idle => Given::Idle,
            Claimed::Quiet => Given::Quiet,
        }
    }

    /// Claims a key, and keeps its work.
    pub(crate) fn claim(
        &mut self,
        rt: &(impl Abort + AllocGlobal),
        core: &mut Core<P>,
    ) -> Result<Given, Refused> {
        match core.claim(self.number) {
            Ok(claimed) => Ok(self.keep(rt, claimed)),
            Err(refused) => Err(refused),
        }
    }

    /// Does the next part of its work.
    pub(crate) fn part(&mut self, core: &mut Core<P>) -> Result<Parted, Refused> {
        match &mut self.work {
            Some(work) => {
                let parted = core.part(self.number, work)?;
                Ok(parted)
            }
            None => Err(Refused::Stale),
        }
    }

    /// Does up to `most` of the next parts of its work, and answers how many.
    pub(crate) fn parts(&mut self, core: &mut Core<P>, most: usize) -> Result<usize, Refused> {
        match &mut self.work {
            Some(work) => parts(core, self.number, work, most),
            None => Err(Refused::Stale),
        }
    }

    /// Ends its claim, with all parts done.
    pub(crate) fn finish(&mut self, core: &mut Core<P>) -> Result<(), Refused> {
        match &self.work {
            Some(work) => finish(core, self.number, work)?,
            None => return Err(Refused::Stale),
        }
        self.work = None;
        Ok(())
    }

    /// Does all of its work by calls of up to `most` parts, and ends its claim.
    fn finish_by_parts(&mut self, rt: &impl Abort, core: &mut Core<P>, most: usize) {
        for _ in 0..100 {
            if given(rt, self.parts(core, most)) < most {
                break;
            }
        }
        given(rt, self.finish(core));
    }

    /// Does all tasks so.
    fn drain_by_parts(&mut self, rt: &(impl Abort + AllocGlobal), core: &mut Core<P>, most: usize) {
        for _ in 0..500 {
            if core.is_quiet() {
                break;
            }
            given(rt, self.claim(rt, core));
            self.finish_by_parts(rt, core, most);
        }
    }

    /// Does one part of its work, or ends the claim where none is left; each third claim is released
    /// after its first part.
    fn go_on(&mut self, rt: &impl Abort, core: &mut Core<P>) {
        if given(rt, self.part(core)) == Parted::NoPart {
            given(rt, self.finish(core));
        } else if self.claims % 3 == 0 {
            given(rt, release(core, self.number));
            self.work = None;
        }
    }

    /// Goes on with its work. Without a claim it takes one.
    fn step(&mut self, rt: &(impl Abort + AllocGlobal), core: &mut Core<P>) {
        if self.work.is_none() {
            given(rt, self.claim(rt, core));
        } else {
            self.go_on(rt, core);
        }
    }
}

/// Asserts that the program with two calls is tabulated by calls of up to `most` parts.
fn expect_by_parts<P: Problem>(
    rt: &(impl Abort + AllocGlobal),
    core: &mut Core<P>,
    hand: &mut Hand<P>,
    most: usize,
) {
    begin(rt, core, TWO_CALLS);
    hand.drain_by_parts(rt, core, most);
    expect_two_calls(rt, core);
}

/// Asserts that it is, by one part with each call, two or all.
fn expect_by_one_two_or_all<P: Problem>(
    rt: &(impl Abort + AllocGlobal),
    core: &mut Core<P>,
    hand: &mut Hand<P>,
) {
    expect_by_parts(rt, core, hand, 1);
    expect_by_parts(rt, core, hand, 2);
    expect_by_parts(rt, core, hand, usize::MAX);
}

#[test]
fn one_part_two_or_all_with_each_call(rt: HostRuntime) {
    let mut core: Core<CopyConst> = Core::new(rt.alloc());
    let mut hand = Hand::new(0);
    expect_by_one_two_or_all(&rt, &mut core, &mut hand);
}

/// Each hand takes one step.
fn take_turn<P: Problem>(
    rt: &(impl Abort + AllocGlobal),
    core: &mut Core<P>,
    hands: &mut [Hand<P>],
) {
    for hand in hands {
        hand.step(rt, core);
    }
}

/// Asserts that the program with two calls is tabulated by hands in turns.
fn expect_in_turns<P: Problem>(
    rt: &(impl Abort + AllocGlobal),
    core: &mut Core<P>,
    hands: &mut [Hand<P>],
) {
    begin(rt, core, TWO_CALLS);
    for _ in 0..500 {
        take_turn(rt, core, hands);
    }
    expect_two_calls(rt, core);
}

#[test]
fn three_hands_in_turns(rt: HostRuntime) {
    let mut core: Core<CopyConst> = Core::new(rt.alloc());
    let mut hands = [Hand::new(0), Hand::new(1), Hand::new(2)];
    expect_in_turns(&rt, &mut core, &mut hands);
}
