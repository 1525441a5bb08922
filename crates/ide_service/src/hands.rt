//! A hand at work: it claims a key, does the parts of its task and ends the claim, again and again, until
//! nothing is left or a gate stops it.
ghost use Rattle.std.specs.Prelude.{◌≡◌, ◌↔◌, ◌<◌, ◌≤◌, ℕ, false, length, true, Ok, IfErr, IfOk, IsTrue, OnErr, OnOk};
ghost use Rattle.ide_service.specs.Parts.{IsFurther, with_more_done};
ghost use Rattle.ide_service.specs.Refusing.{HandCall, IsLoopRefusal, IsRefusedOver, IsTaskRefusal, to_claim, to_finish, to_part, to_seal};
ghost use Rattle.ide_steps.specs.Claiming.{IfTask};
ghost use Rattle.ide_tasks.specs.Task.{TaskData};
ghost use Rattle.ide_wire.specs.declared.refused.Refused.{Refused};
ghost use Rattle.ide_service.specs.declared.hands.Point.{Point};

use ide_problem::Problem;
use ide_steps::Claimed;
use ide_tasks::{Task, Work};
use ide_wire::Refused;
use std::alloc::Global;
use std::sync::Wait;

/// Where a loop asks its gate whether to go on.
#[derive(Clone, Copy, PartialEq, Eq, Debug)]
pub enum Point {
    /// As many tasks were done as a hand may do unasked, in one hold of the table's lock, and it has no claim.
    Drained,
    /// A task was claimed.
    Claimed,
    /// As many of its parts were done as the gate's stride says, or the last of them.
    Parted,
    /// What was sealed is to be stored, and no disk call for it was made yet.
    BeforeSync,
    /// A record was stored.
    Stored,
}

/// Lets a loop go on, or stops it at a point.
pub trait Gate {
    ghost use Rattle.ide_service.specs.declared.hands.Point.{Point};

    /// It may stop a loop at the point.
    ghost may_stop: { Self → Point → Type 0 };

    /// Whether the loop goes on behind the point.
    fn pass(&self, point: Point) -> bool
        ensures { result ≡ false → may_stop self.now point };

    /// How many parts a hand may do between two questions.
    fn stride(&self) -> usize
        ensures { 0 < result };

    /// How many whole tasks a hand may do unasked, in one hold of the table's lock: behind so many that it drained it asks
    /// at [`Point::Drained`]; where it has to claim, it asks of each task behind so many.
    fn ahead(&self) -> usize;
}

/// A gate that lets everybody go on.
#[derive(Clone, Copy, Debug)]
pub struct Open {
    /// How many whole tasks a hand may do unasked ([`Gate::ahead`]).
    pub ahead: usize,
}

impl Gate for Open {
    ghost may_stop = { λ _ _. ⊥ };

    /// It stops nobody.
    fn pass(&self, _point: Point) -> bool {
        true
    }

    fn stride(&self) -> usize {
        usize::MAX
    }

    fn ahead(&self) -> usize {
        self.ahead
    }
}

/// Hands over one image, of which each claims a key at a time.
pub trait Hands<P: Problem> {
    /// No key is pending.
    ghost rests: { Self → Type 0 };

    /// Some key is pending, and each that is has a claim.
    ghost waits: { Self → Type 0 };

    /// The hand of that number has no claim.
    ghost is_free: { Self → ℕ → Type 0 };

    /// From the first to the second, the hand came to claim the task's key, and to owe its parts.
    ghost takes: { ℕ → Self → Self → TaskData P.F → Type 0 };

    /// Nothing changed since the last record.
    ghost is_sealed: { Self → Type 0 };

    /// The call may be refused so.
    ghost refuses: { Self → HandCall P.F → Refused → Type 0 };

    /// Claims a pending key that no hand has claimed.
    fn claim(&mut self, hand: usize) -> Result<Claimed<P>, Refused>
        ensures task { IfTask result (takes hand self.old self.new) }
        ensures quiet { result ≡ Ok Claimed.Quiet → rests self.new }
        ensures waiting { result ≡ Ok Claimed.Idle → waits self.new }
        ensures nothing { result ≡ Ok Claimed.Quiet → is_free self.old hand → is_free self.new hand }
        ensures idle { result ≡ Ok Claimed.Idle → is_free self.old hand → is_free self.new hand }
        ensures cause { IfErr result (refuses self.old (to_claim hand)) }
        ensures refused { OnErr result (is_free self.old hand → is_free self.new hand) };

    /// Does up to so many of the next parts of the hand's work, and answers how many: fewer only where
    /// none is left.
    ///
    /// `Limit` where a batch is full: the parts before are done, and the work counts them.
    fn parts(&mut self, hand: usize, work: &mut Work<P>, most: usize) -> Result<usize, Refused>
        ensures most { IfOk result (λ count. count ≤ most) }
        ensures counted { IfOk result (λ count. work.new ≡ with_more_done work.old count) }
        ensures all { IfOk result (λ count. count < most → work.new.done ≡ length work.new.parts) }
        ensures further { IsFurther most work.old work.new }
        ensures cause { IfErr result (IsRefusedOver refuses (to_part hand work.new)) };

    /// Ends the hand's claim, with all parts done. `Limit` where a batch is full.
    fn finish(&mut self, hand: usize, work: &Work<P>) -> Result<(), Refused>
        ensures free { OnOk result (is_free self.new hand) }
        ensures cause { IfErr result (refuses self.old (to_finish hand work.now)) };

    /// Gives the hand's claim back, if it has one.
    fn release(&mut self, hand: usize)
        ensures { is_free self.new hand };

    /// Seals what changed.
    fn seal(&mut self) -> Result<(), Refused>
        ensures sealed { OnOk result (is_sealed self.new) }
        ensures cause { IfErr result (refuses self.old to_seal) };

    /// Lets other hands work, where each pending key is claimed.
    fn pause(&mut self)
        ensures { (hand : ℕ) → is_free self.old hand → is_free self.new hand };
}

/// How a hand's work ended.
#[derive(Clone, Copy, PartialEq, Eq, Debug)]
pub enum Ended {
    /// No key is pending.
    Quiet,
    /// The gate stopped it.
    Stopped,
}

/// Lets the hand claim and end tasks until no key is pending, or until the gate stops it. Where a batch is
/// full it is sealed. In any case the hand has no claim at the end.
///
/// Refusals: those of the hands' calls, but for `Stale`, where the hand claims again.
#[tactic(auto, using(crate::specs::Refusing::no_claim))]
pub fn hand_loop<R: Wait, P: Problem, H: Hands<P>, G: Gate>(
    rt: &R,
    alloc: Global,
    hands: &mut H,
    hand: usize,
    gate: &G,
) -> Result<Ended, Refused>
    requires { H.is_free hands.old hand }
    ensures quiet { result ≡ Ok Ended.Quiet → H.rests hands.new }
    ensures stopped { result ≡ Ok Ended.Stopped → (point : Point) × G.may_stop gate.now point }
    ensures released { H.is_free hands.new hand }
    ensures refused { IfErr result (IsLoopRefusal H.refuses hand) }
{
    for _ in rt.forever() {
        match hands.claim(hand) {
            Ok(Claimed::Task(task)) => match run_task(rt, alloc, hands, hand, task, gate) {
                Ok(true) => {}
                Ok(false) => return Ok(Ended::Stopped),
                Err(refused) => return Err(refused),
            },
            Ok(Claimed::Idle) => hands.pause(),
            Ok(Claimed::Quiet) => return Ok(Ended::Quiet),
            Err(refused) => return Err(refused),
        }
    }
    unreachable!()
}

/// Does up to so many whole tasks as the hand, and claims the key behind them.
#[tactic(auto, using(crate::specs::Refusing::no_claim))]
pub(crate) fn claim_ahead<R: Wait, P: Problem, H: Hands<P>>(
    rt: &R,
    alloc: Global,
    hands: &mut H,
    hand: usize,
    tasks: usize,
) -> Result<Claimed<P>, Refused>
    ensures quiet { result ≡ Ok Claimed.Quiet → H.rests hands.new }
    ensures idle { result ≡ Ok Claimed.Idle → H.waits hands.new }
    ensures refused { IfErr result (IsLoopRefusal H.refuses hand) }
{
    let open = Open { ahead: 0 };
    for _ in 0..tasks {
        match hands.claim(hand) {
            Ok(Claimed::Task(task)) => match run_task(rt, alloc, hands, hand, task, &open) {
                Ok(_) => {}
                Err(refused) => return Err(refused),
            },
            Ok(none) => return Ok(none),
            Err(refused) => return Err(refused),
        }
    }
    hands.claim(hand)
}

/// Does the task that the hand claimed, and leaves it with no claim: false where the gate stopped it.
#[tactic(auto, using(crate::specs::Refusing::no_task))]
fn run_task<R: Wait, P: Problem, H: Hands<P>, G: Gate>(
    rt: &R,
    alloc: Global,
    hands: &mut H,
    hand: usize,
    task: Task<P>,
    gate: &G,
) -> Result<bool, Refused>
    ensures stopped { result ≡ Ok false → (point : Point) × G.may_stop gate.now point }
    ensures released { H.is_free hands.new hand }
    ensures refused { IfErr result (IsLoopRefusal H.refuses hand) }
{
    match do_task(rt, alloc, hands, hand, task, gate) {
        Ok(true) => Ok(true),
        Ok(false) => {
            hands.release(hand);
            Ok(false)
        }
        Err(refused) => {
            hands.release(hand);
            if is_stale(refused) {
                return Ok(true);
            }
            Err(refused)
        }
    }
}

/// Gives all parts of the work as the hand, and ends its claim, or gives it back where it is stale.
#[tactic(auto, using(crate::specs::Refusing::no_task))]
pub(crate) fn end_work<R: Wait, P: Problem, H: Hands<P>>(
    rt: &R,
    hands: &mut H,
    hand: usize,
    work: &mut Work<P>,
) -> Result<(), Refused>
    ensures released { H.is_free hands.new hand }
    ensures refused { IfErr result (IsLoopRefusal H.refuses hand) }
{
    match give_work(rt, hands, hand, work) {
        Ok(()) => Ok(()),
        Err(refused) => {
            hands.release(hand);
            if is_stale(refused) {
                return Ok(());
            }
            Err(refused)
        }
    }
}

/// Gives all parts of the work as the hand, and ends its claim.
fn give_work<R: Wait, P: Problem, H: Hands<P>>(
    rt: &R,
    hands: &mut H,
    hand: usize,
    work: &mut Work<P>,
) -> Result<(), Refused>
    ensures ended { OnOk result (H.is_free hands.new hand) }
    ensures refused { IfErr result (IsTaskRefusal H.refuses hand) }
{
    match parts_with_room(rt, hands, hand, work, usize::MAX) {
        Ok(_) => finish_with_room(rt, hands, hand, work),
        Err(refused) => Err(refused),
    }
}

/// Whether a batch is full: it is to be sealed first.
pub(crate) fn is_full(refused: Refused) -> bool
    ensures { IsTrue result ↔ (refused ≡ Refused.Limit) }
{
    matches!(refused, Refused::Limit)
}

/// Whether the work is no more what the hand has claimed: it claims again.
fn is_stale(refused: Refused) -> bool
    ensures { IsTrue result ↔ (refused ≡ Refused.Stale) }
{
    matches!(refused, Refused::Stale)
}

/// Does the parts of the task and ends the claim: false where the gate stopped it.
#[tactic(auto, using(crate::specs::Refusing::no_memory))]
fn do_task<R: Wait, P: Problem, H: Hands<P>, G: Gate>(
    rt: &R,
    alloc: Global,
    hands: &mut H,
    hand: usize,
    task: Task<P>,
    gate: &G,
) -> Result<bool, Refused>
    ensures stopped { result ≡ Ok false → (point : Point) × G.may_stop gate.now point }
    ensures ended { result ≡ Ok true → H.is_free hands.new hand }
    ensures refused { IfErr result (IsTaskRefusal H.refuses hand) }
{
    if !gate.pass(Point::Claimed) {
        return Ok(false);
    }
    match Work::of(alloc, task) {
        Ok(work) => do_work(rt, hands, hand, work, gate),
        Err((refused, _)) => Err(refused),
    }
}

/// Does the parts of the work and ends the claim: false where the gate stopped it.
fn do_work<R: Wait, P: Problem, H: Hands<P>, G: Gate>(
    rt: &R,
    hands: &mut H,
    hand: usize,
    mut work: Work<P>,
    gate: &G,
) -> Result<bool, Refused>
    ensures stopped { result ≡ Ok false → (point : Point) × G.may_stop gate.now point }
    ensures ended { result ≡ Ok true → H.is_free hands.new hand }
    ensures refused { IfErr result (IsTaskRefusal H.refuses hand) }
{
    for _ in rt.forever() {
        let most = gate.stride();
        match parts_with_room(rt, hands, hand, &mut work, most) {
            Ok(count) => {
                if count > 0 && !gate.pass(Point::Parted) {
                    return Ok(false);
                }
                if count < most {
                    return match finish_with_room(rt, hands, hand, &work) {
                        Ok(()) => Ok(true),
                        Err(refused) => Err(refused),
                    };
                }
            }
            Err(refused) => return Err(refused),
        }
    }
    unreachable!()
}

/// Does up to so many parts, and answers how many: fewer only where none is left. As often as a batch is full
/// it is sealed.
#[tactic(auto, using(crate::specs::Refusing::no_part, crate::specs::Refusing::no_seal))]
fn parts_with_room<R: Wait, P: Problem, H: Hands<P>>(
    rt: &R,
    hands: &mut H,
    hand: usize,
    work: &mut Work<P>,
    most: usize,
) -> Result<usize, Refused>
    ensures counted { IfOk result (λ count. work.new ≡ with_more_done work.old count) }
    ensures all { IfOk result (λ count. count < most → work.new.done ≡ length work.new.parts) }
    ensures refused { IfErr result (IsTaskRefusal H.refuses hand) }
{
    let before = work.done();
    for _ in rt.forever() {
        let done = work.done() - before;
        match hands.parts(hand, work, most - done) {
            Ok(count) => return Ok(done + count),
            Err(refused) => {
                if !is_full(refused) {
                    return Err(refused);
                }
                if let Err(refused) = hands.seal() {
                    return Err(refused);
                }
            }
        }
    }
    unreachable!()
}

/// Ends the claim. As often as a batch is full it is sealed: another hand may fill it again.
#[tactic(auto, using(crate::specs::Refusing::no_end, crate::specs::Refusing::no_seal))]
fn finish_with_room<R: Wait, P: Problem, H: Hands<P>>(
    rt: &R,
    hands: &mut H,
    hand: usize,
    work: &Work<P>,
) -> Result<(), Refused>
    ensures free { OnOk result (H.is_free hands.new hand) }
    ensures refused { IfErr result (IsTaskRefusal H.refuses hand) }
{
    for _ in rt.forever() {
        match hands.finish(hand, work) {
            Ok(()) => return Ok(()),
            Err(refused) => {
                if !is_full(refused) {
                    return Err(refused);
                }
                if let Err(refused) = hands.seal() {
                    return Err(refused);
                }
            }
        }
    }
    unreachable!()
}
