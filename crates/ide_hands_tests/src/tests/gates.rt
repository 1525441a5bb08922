//! Gates of tests: one that stops a loop after some points, and two that hold one until another came on.
use ide_service::{Gate, Point};
use std::sync::atomic::{AtomicBool, AtomicU64, Ordering};
use std::thread;

/// Lets a loop pass so many points of one kind, and all others.
#[derive(Drop)]
pub(crate) struct Counting {
    at: Point,
    left: AtomicU64,
    ahead: usize,
}

impl Counting {
    /// A gate that lets so many such points pass.
    pub(crate) fn new(at: Point, points: u64) -> Counting {
        Counting::with_ahead(at, points, 0)
    }

    /// The same, which lets a hand do so many whole tasks unasked.
    pub(crate) fn with_ahead(at: Point, points: u64, ahead: usize) -> Counting {
        Counting {
            at,
            left: AtomicU64::new(points),
            ahead,
        }
    }
}

impl Gate for Counting {
    ghost may_stop = { λ _ _. Unit {0} };

    fn pass(&self, point: Point) -> bool {
        if point != self.at {
            return true;
        }
        let left = self.left.load(Ordering::SeqCst);
        self.left.store(left.saturating_sub(1), Ordering::SeqCst);
        left > 0
    }

    fn stride(&self) -> usize {
        1
    }

    fn ahead(&self) -> usize {
        self.ahead
    }
}

/// For how many turns one that is held looks whether the other came on.
const TURNS: usize = 10_000;
/// How often it yields to others in a turn: all turns together last as long as a thread may take to start where other
/// processes have the processors.
const YIELDS: usize = 200;

/// Looks, for as many turns as there are, whether the other came on, and notes it where it did.
fn hold(came: &AtomicBool, seen: &AtomicBool) {
    for _ in 0..TURNS {
        if came.load(Ordering::SeqCst) {
            seen.store(true, Ordering::SeqCst);
            return;
        }
        let_others_work();
    }
}

/// Holds the first that comes, until the other came on.
fn hold_first(first: &AtomicBool, came: &AtomicBool, seen: &AtomicBool) {
    if !first.swap(true, Ordering::SeqCst) {
        hold(came, seen);
    }
}

/// Yields to others for a turn.
fn let_others_work() {
    for _ in 0..YIELDS {
        thread::yield_now();
    }
}

/// Holds the hand that claims first, until another did a part.
#[derive(Drop)]
pub(crate) struct Holding {
    claimed: AtomicBool,
    parted: AtomicBool,
    seen: AtomicBool,
}

impl Holding {
    /// A gate that nobody came to.
    pub(crate) fn new() -> Holding {
        Holding {
            claimed: AtomicBool::new(false),
            parted: AtomicBool::new(false),
            seen: AtomicBool::new(false),
        }
    }

    /// Whether another hand did a part while the first was held.
    pub(crate) fn has_seen(&self) -> bool {
        self.seen.load(Ordering::SeqCst)
    }
}

impl Gate for Holding {
    ghost may_stop = { λ _ _. ⊥ };

    fn pass(&self, point: Point) -> bool {
        match point {
            Point::Claimed => hold_first(&self.claimed, &self.parted, &self.seen),
            Point::Parted => self.parted.store(true, Ordering::SeqCst),
            Point::Drained | Point::BeforeSync | Point::Stored => {}
        }
        true
    }

    fn stride(&self) -> usize {
        1
    }

    fn ahead(&self) -> usize {
        0
    }
}

/// Holds a hand at its first claim until the writer is at its first disk call, and the writer there until the hand
/// did a part.
#[derive(Drop)]
pub(crate) struct Crossing {
    claimed: AtomicBool,
    syncing: AtomicBool,
    parted: AtomicBool,
    hand_saw: AtomicBool,
    writer_saw: AtomicBool,
}

impl Crossing {
    /// A gate that nobody came to.
    pub(crate) fn new() -> Crossing {
        Crossing {
            claimed: AtomicBool::new(false),
            syncing: AtomicBool::new(false),
            parted: AtomicBool::new(false),
            hand_saw: AtomicBool::new(false),
            writer_saw: AtomicBool::new(false),
        }
    }

    /// Whether each came on while the other was held.
    pub(crate) fn have_crossed(&self) -> bool {
        self.hand_saw.load(Ordering::SeqCst) && self.writer_saw.load(Ordering::SeqCst)
    }
}

impl Gate for Crossing {
    ghost may_stop = { λ _ _. ⊥ };

    fn pass(&self, point: Point) -> bool {
        match point {
            Point::Claimed => hold_first(&self.claimed, &self.syncing, &self.hand_saw),
            Point::BeforeSync => hold_first(&self.syncing, &self.parted, &self.writer_saw),
            Point::Parted => self.parted.store(true, Ordering::SeqCst),
            Point::Drained | Point::Stored => {}
        }
        true
    }

    fn stride(&self) -> usize {
        1
    }

    fn ahead(&self) -> usize {
        0
    }
}
