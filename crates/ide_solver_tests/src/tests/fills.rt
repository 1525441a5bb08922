//! A fill by several workers, as its gate is told of them.
use ide_instances::CopyConst;
use ide_steps::{Closed, Core};
use ide_text::{Program, parse};
use ide_values::{FillGate, ValuePhase};
use ide_wire::Refused;
use ide_worked::{EMPTY, TWO_CALLS};
use std::alloc::Global;
use std::process::Abort;
use std::sync::atomic::{AtomicBool, AtomicU64, Ordering};
use std::thread;
use std::thread::Threads;

/// How often the held worker looks whether the other began.
const TURNS: usize = 10_000;

/// Holds worker 0 before its first node until worker 1 began, and counts the workers that began.
#[derive(Drop)]
struct HoldingFirst {
    second: AtomicBool,
    seen: AtomicBool,
    begun: AtomicU64,
}

impl HoldingFirst {
    /// A gate that is told of no worker yet.
    fn new() -> HoldingFirst {
        HoldingFirst {
            second: AtomicBool::new(false),
            seen: AtomicBool::new(false),
            begun: AtomicU64::new(0),
        }
    }

    /// Looks, for as many turns as there are, whether worker 1 began.
    fn hold(&self) {
        for _ in 0..TURNS {
            if self.second.load(Ordering::SeqCst) {
                self.seen.store(true, Ordering::SeqCst);
                return;
            }
            thread::yield_now();
        }
    }
}

impl FillGate for HoldingFirst {
    fn begin(&self, worker: usize) {
        self.begun.fetch_add(1, Ordering::SeqCst);
        if worker == 1 {
            self.second.store(true, Ordering::SeqCst);
        }
        if worker == 0 {
            self.hold();
        }
    }
}

/// The program of a text.
fn program_of(alloc: Global, text: &str) -> Result<Program, Refused> {
    let program = parse(alloc, text.as_bytes())?;
    Ok(program)
}

/// The quiet image of a text's program, with `main` as its root.
fn image_of(alloc: Global, text: &str) -> Result<Closed<CopyConst>, Refused> {
    let mut core: Core<CopyConst> = Core::new(alloc);
    core.load(program_of(alloc, text)?)?;
    core.root(b"main")?;
    core.drain()?;
    match core.close() {
        Ok(closed) => Ok(closed),
        Err((refused, _)) => Err(refused),
    }
}

/// Fills the values of an image by so many workers, and answers how many began.
fn begun_by<R: Threads + Sync>(
    rt: &R,
    alloc: Global,
    image: &Closed<CopyConst>,
    workers: usize,
    gate: &HoldingFirst,
) -> Result<u64, Refused> {
    let _values = image.values_with(rt, alloc, workers, gate)?;
    Ok(gate.begun.load(Ordering::SeqCst))
}

/// Fills the values of a text's program so, and answers how many began.
fn begun_on<R: Threads + Sync>(
    rt: &R,
    alloc: Global,
    text: &str,
    workers: usize,
    gate: &HoldingFirst,
) -> Result<u64, Refused> {
    let image = image_of(alloc, text)?;
    let begun = begun_by(rt, alloc, &image, workers, gate)?;
    Ok(begun)
}

// Worker 0 is held until worker 1 began, so both are at work at once.
#[test]
fn two_workers_fill_at_once(rt: HostRuntime) {
    let gate = HoldingFirst::new();
    assert!(rt; begun_on(&rt, rt.alloc(), TWO_CALLS, 2, &gate) == Ok(2));
    assert!(rt; gate.seen.load(Ordering::SeqCst));
}

// The empty main has two nodes, and each of 64 workers begins.
#[test]
fn workers_without_nodes_begin(rt: HostRuntime) {
    let gate = HoldingFirst::new();
    assert!(rt; begun_on(&rt, rt.alloc(), EMPTY, 64, &gate) == Ok(64));
}

// No worker, or more than 64, are refused, and none begins.
#[test]
fn a_fill_has_a_limit_of_workers(rt: HostRuntime) {
    let gate = HoldingFirst::new();
    assert!(rt; begun_on(&rt, rt.alloc(), EMPTY, 0, &gate) == Err(Refused::Limit));
    assert!(rt; begun_on(&rt, rt.alloc(), EMPTY, 65, &gate) == Err(Refused::Limit));
    assert!(rt; gate.begun.load(Ordering::SeqCst) == 0);
}
