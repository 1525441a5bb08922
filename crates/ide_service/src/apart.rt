//! A worker that computes with no lock held: in one hold of the table's lock it claims several keys, each for a hand
//! of its own; then it computes the parts of their tasks, and gives them all in the next hold.
ghost use Rattle.std.specs.Prelude.{◌≡◌, ◌↔◌, ◌⊎◌, ◌+◌, None, IsTrue, Ok, IfErr, OnOk};
ghost use Rattle.ide_service.specs.Refusing.{HalfRefuses, IsLoopRefusal};
ghost use Rattle.ide_service.specs.Spans.{AreHands, IsSpanRefusal};
ghost use Rattle.ide_service.specs.declared.apart.Found.{Found};
ghost use Rattle.ide_service.specs.declared.hands.Point.{Point};

use crate::hands::{Ended, Gate, Hands, Point, end_work};
use crate::patience::Patience;
use crate::service::Service;
use ide_desks::Accord;
use ide_disk::Disk;
use ide_problem::Problem;
use ide_steps::{Claimed, HANDS};
use ide_store::Kept;
use ide_tasks::{Task, Work};
use ide_wire::Refused;
use std::alloc::Global;
use std::sync::Wait;
use std::time::Clock;

/// Hands whose numbers follow each other: so many, from the first on.
#[derive(Clone, Copy, PartialEq, Eq, Debug)]
pub struct Span {
    pub first: usize,
    pub count: usize,
}

impl Span {
    /// Whether there is a hand, and none has a number over 63.
    pub fn is_fit(self) -> bool
        ensures { IsTrue result ↔ AreHands self }
    {
        self.count > 0 && self.count <= HANDS && self.first <= HANDS - self.count
    }

    /// The number behind the last hand's.
    fn end(self) -> usize
        requires { AreHands self }
        ensures { result ≡ self.first + self.count }
    {
        self.first + self.count
    }
}

/// What a worker found when it looked for pending keys.
#[derive(Clone, Copy, PartialEq, Eq, Debug)]
pub(crate) enum Found {
    /// Some, which its hands have claimed.
    Tasks,
    /// Some, each of which others have claimed.
    Idle,
    /// None.
    Quiet,
}

impl<P: Problem, D: Disk, J: Accord> Service<P, D, J> {
    /// Lets several hands work as one, as [`Service::work`] lets one, but that they compute with no lock held: in each
    /// hold of it the parts that were computed are given, and a key is claimed for each hand. It pays where a part takes
    /// as long to compute as to give, or longer. The gate is asked behind each hold: where parts were given, and where
    /// keys were claimed. No hand has a claim at the end.
    ///
    /// Refusals, in this order: `Limit`, where there is no hand or one has a number over 63; those of [`Service::work`] for
    /// one of the hands.
    #[tactic(auto, using(crate::specs::Spans::no_hands))]
    pub fn work_apart<R: Wait + Clock, G: Gate>(
        &self,
        rt: &R,
        span: Span,
        gate: &G,
    ) -> Result<Ended, Refused>
        ensures stopped { result ≡ Ok Ended.Stopped → (point : Point) × G.may_stop gate.now point }
        ensures hands { OnOk result (AreHands span) }
        ensures refused { IfErr result (IsSpanRefusal (HalfRefuses ⟦<P as Kept>⟧.analysis) span) }
    {
        if !span.is_fit() {
            return Err(Refused::Limit);
        }
        let ended = self.take_turns(rt, span, gate);
        release_all(&mut *self.table(rt), span);
        ended
    }

    /// Takes the lock, and computes what was claimed, again and again, until no key is pending or the gate stops it.
    fn take_turns<R: Wait + Clock, G: Gate>(
        &self,
        rt: &R,
        span: Span,
        gate: &G,
    ) -> Result<Ended, Refused>
        requires { AreHands span }
        ensures stopped { result ≡ Ok Ended.Stopped → (point : Point) × G.may_stop gate.now point }
        ensures refused { IfErr result (IsSpanRefusal (HalfRefuses ⟦<P as Kept>⟧.analysis) span) }
    {
        let mut works = Vec::new(self.alloc());
        let mut patience = Patience::new();
        for _ in rt.forever() {
            match self.take_turn(rt, span, &mut works, gate) {
                Ok(Some(Found::Tasks)) => patience = Patience::new(),
                Ok(Some(Found::Idle)) => patience.wait(rt),
                Ok(Some(Found::Quiet)) => return Ok(Ended::Quiet),
                Ok(None) => return Ok(Ended::Stopped),
                Err(refused) => return Err(refused),
            }
        }
        unreachable!()
    }

    /// One hold of the lock, and what is to be computed behind it; nothing where the gate stopped it.
    #[tactic(auto, using(crate::specs::Spans::no_memory))]
    fn take_turn<R: Wait, G: Gate>(
        &self,
        rt: &R,
        span: Span,
        works: &mut Vec<Work<P>>,
        gate: &G,
    ) -> Result<Option<Found>, Refused>
        requires { AreHands span }
        ensures stopped { result ≡ Ok None → (point : Point) × G.may_stop gate.now point }
        ensures refused { IfErr result (IsSpanRefusal (HalfRefuses ⟦<P as Kept>⟧.analysis) span) }
    {
        let Ok(mut tasks) = Vec::with_capacity(self.alloc(), span.count) else {
            return Err(Refused::NoMemory);
        };
        let given = works.len();
        match self.exchange(rt, span, works, &mut tasks) {
            Ok(found) => {
                if given > 0 && !gate.pass(Point::Parted) {
                    return Ok(None);
                }
                if found == Found::Tasks && !gate.pass(Point::Claimed) {
                    return Ok(None);
                }
                match compute(self.alloc(), tasks, works) {
                    Ok(()) => Ok(Some(found)),
                    Err(refused) => Err(refused),
                }
            }
            Err(refused) => Err(refused),
        }
    }

    /// Gives what was computed and claims keys, by one hold of the lock.
    fn exchange<R: Wait>(
        &self,
        rt: &R,
        span: Span,
        works: &mut Vec<Work<P>>,
        tasks: &mut Vec<Task<P>>,
    ) -> Result<Found, Refused>
        requires { AreHands span }
        ensures { IfErr result (IsSpanRefusal (HalfRefuses ⟦<P as Kept>⟧.analysis) span) }
    {
        let mut table = self.table(rt);
        exchange(rt, &mut *table, span, works, tasks)
    }
}

/// Ends the claim of each work, all its parts given, and claims a key for each hand, as far as there are some.
fn exchange<R: Wait, P: Problem, H: Hands<P>>(
    rt: &R,
    hands: &mut H,
    span: Span,
    works: &mut Vec<Work<P>>,
    tasks: &mut Vec<Task<P>>,
) -> Result<Found, Refused>
    requires { AreHands span }
    ensures quiet { result ≡ Ok Found.Quiet → H.rests hands.new }
    ensures idle { result ≡ Ok Found.Idle → H.waits hands.new }
    ensures refused { IfErr result (IsSpanRefusal H.refuses span) }
{
    if let Err(refused) = end_all(rt, hands, span, works) {
        return Err(refused);
    }
    claim_all(hands, span, tasks)
}

/// Gives all parts of each work, and ends its claim. The works are those of the hands, from the first on.
#[tactic(auto, using(crate::specs::Spans::as_one))]
fn end_all<R: Wait, P: Problem, H: Hands<P>>(
    rt: &R,
    hands: &mut H,
    span: Span,
    works: &mut Vec<Work<P>>,
) -> Result<(), Refused>
    requires { AreHands span }
    ensures { IfErr result (IsSpanRefusal H.refuses span) }
{
    for hand in span.first..span.end() {
        if let Some(work) = works.get_mut(hand - span.first) {
            if let Err(refused) = end_work(rt, hands, hand, work) {
                return Err(refused);
            }
        }
    }
    Ok(())
}

/// Claims a key for each hand, from the first on, as far as there are some.
#[tactic(auto, using(crate::specs::Spans::as_one, crate::specs::Spans::no_memory))]
fn claim_all<P: Problem, H: Hands<P>>(
    hands: &mut H,
    span: Span,
    tasks: &mut Vec<Task<P>>,
) -> Result<Found, Refused>
    requires { AreHands span }
    ensures quiet { result ≡ Ok Found.Quiet → H.rests hands.new }
    ensures idle { result ≡ Ok Found.Idle → H.waits hands.new }
    ensures refused { IfErr result (IsSpanRefusal H.refuses span) }
{
    for hand in span.first..span.end() {
        match claim_one(hands, hand) {
            Ok(Claimed::Task(task)) => {
                if tasks.push(task).is_err() {
                    return Err(Refused::NoMemory);
                }
            }
            Ok(Claimed::Idle) => return Ok(tasks_or(Found::Idle, tasks.is_empty())),
            Ok(Claimed::Quiet) => return Ok(tasks_or(Found::Quiet, tasks.is_empty())),
            Err(refused) => return Err(refused),
        }
    }
    Ok(Found::Tasks)
}

/// Claims a key for the hand.
#[tactic(auto, using(crate::specs::Refusing::no_claim))]
fn claim_one<P: Problem, H: Hands<P>>(hands: &mut H, hand: usize) -> Result<Claimed<P>, Refused>
    ensures quiet { result ≡ Ok Claimed.Quiet → H.rests hands.new }
    ensures idle { result ≡ Ok Claimed.Idle → H.waits hands.new }
    ensures refused { IfErr result (IsLoopRefusal H.refuses hand) }
{
    hands.claim(hand)
}

/// What was found where some hands have claimed keys, or none has, and there are no more.
fn tasks_or(nothing: Found, none: bool) -> Found
    ensures { (result ≡ Found.Tasks) ⊎ (result ≡ nothing) }
{
    if none { nothing } else { Found::Tasks }
}

/// Computes the parts of the tasks. What was computed before is freed.
fn compute<P: Problem>(
    alloc: Global,
    tasks: Vec<Task<P>>,
    works: &mut Vec<Work<P>>,
) -> Result<(), Refused>
    ensures { IfErr result (λ why. why ≡ Refused.NoMemory) }
{
    works.clear();
    for task in tasks {
        match Work::of(alloc, task) {
            Ok(work) => {
                if works.push(work).is_err() {
                    return Err(Refused::NoMemory);
                }
            }
            Err((refused, _)) => return Err(refused),
        }
    }
    Ok(())
}

/// Gives back what claim each hand has.
fn release_all<P: Problem, H: Hands<P>>(hands: &mut H, span: Span)
    requires { AreHands span }
{
    for hand in span.first..span.end() {
        hands.release(hand);
    }
}
