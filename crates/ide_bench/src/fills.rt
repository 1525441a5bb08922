//! How long the steps of a value phase take that several workers share.
ghost use Rattle.std.specs.Prelude.{IfOk};
ghost use Rattle.ide_bench.specs.Phases.{IsDumpLength};

use crate::figures::Figure;
use crate::phases::{Tabulated, drain_core};
use anyhow::Result;
use ide_instances::CopyConst;
use ide_values::{FillGate, ValuePhase, Values};
use std::sync::atomic::{AtomicBool, AtomicU64, Ordering};
use std::thread::Threads;
use std::time::{Clock, Instant};

/// Microseconds of the clock that each step of a value phase took, and how many bytes the dump has.
#[derive(Clone, Copy)]
pub(crate) struct Steps {
    starts: u64,
    fill: u64,
    dump: u64,
    bytes: usize,
}

impl Steps {
    /// Each number by its name.
    pub(crate) fn figures(self) -> [Figure; 4] {
        [
            ("starts", self.starts),
            ("fill", self.fill),
            ("dump", self.dump),
            ("bytes", self.bytes as u64),
        ]
    }
}

/// Notes when a worker of a fill first begins: start values are found until then.
#[derive(Drop)]
struct Stopwatch<'a, R> {
    rt: &'a R,
    since: Instant,
    is_begun: AtomicBool,
    begun: AtomicU64,
}

impl<'a, R: Clock> FillGate for Stopwatch<'a, R> {
    fn begin(&self, _worker: usize) {
        if !self.is_begun.swap(true, Ordering::SeqCst) {
            self.begun.store(self.micros(), Ordering::SeqCst);
        }
    }
}

impl<'a, R: Clock> Stopwatch<'a, R> {
    /// Microseconds since it was started: 0 where the clock cannot be read.
    fn micros(&self) -> u64 {
        match self.since.elapsed(self.rt) {
            Ok(time) => u64::try_from(time.as_micros()).unwrap_or(u64::MAX),
            Err(_) => 0,
        }
    }
}

/// Solves a text, its values by so many workers, makes their dump, and says how long each step took.
pub(crate) fn time_fill<R: Threads + Clock + Sync + AllocGlobal>(
    rt: &R,
    text: &[u8],
    workers: usize,
) -> Result<Steps>
    ensures { IfOk result (λ steps. IsDumpLength text.now steps.bytes) }
{
    let Tabulated { closed, .. } = drain_core(rt.alloc(), text)?;
    let watch = Stopwatch {
        rt,
        since: Instant::now(rt)?,
        is_begun: AtomicBool::new(false),
        begun: AtomicU64::new(0),
    };
    let values: Values<CopyConst> = closed.values_with(rt, rt.alloc(), workers, &watch)?;
    let filled = watch.micros();
    let mut dump = Vec::new(rt.alloc());
    values.dump(&mut dump)?;
    let starts = watch.begun.load(Ordering::SeqCst);
    Ok(Steps {
        starts,
        fill: filled.saturating_sub(starts),
        dump: watch.micros().saturating_sub(filled),
        bytes: dump.len(),
    })
}
