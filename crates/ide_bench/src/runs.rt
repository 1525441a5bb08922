//! How many parts a run of a text does, by each analysis of the program.
use crate::figures::Figure;
use anyhow::{Result, bail};
use ide_instances::{CopyConst, ShiftConst, Uninit};
use ide_problem::Problem;
use ide_steps::{Claimed, Core};
use ide_tasks::Work;
use ide_text::parse;
use ide_wire::Refused;
use std::alloc::Global;

/// How many keys, tasks and parts a run comes to.
#[derive(Clone, Copy)]
pub(crate) struct RunCounts {
    keys: usize,
    tasks: u64,
    parts: u64,
}

impl RunCounts {
    /// Each number by its name.
    pub(crate) fn figures(self) -> [Figure; 3] {
        [
            ("keys", self.keys as u64),
            ("tasks", self.tasks),
            ("parts", self.parts),
        ]
    }
}

/// Runs the program of a text with `main` as the root, by the analysis of that name and by one hand, as a drain
/// does, but that each part is counted.
pub(crate) fn run_by(alloc: Global, analysis: &str, text: &[u8]) -> Result<RunCounts> {
    match analysis {
        "uninit" => run_of::<Uninit>(alloc, text),
        "copy" => run_of::<CopyConst>(alloc, text),
        "shift" => run_of::<ShiftConst>(alloc, text),
        _ => bail!("uninit, copy or shift is wanted"),
    }
}

/// Runs the program of a text by an analysis.
fn run_of<P: Problem>(alloc: Global, text: &[u8]) -> Result<RunCounts> {
    let mut core: Core<P> = Core::new(alloc);
    core.load(parse(alloc, text)?)?;
    core.root(b"main")?;
    run_on(alloc, &mut core)
}

/// Does all tasks of a core.
fn run_on<P: Problem>(alloc: Global, core: &mut Core<P>) -> Result<RunCounts> {
    let mut parts = 0_u64;
    for tasks in 0..u64::MAX {
        match do_task(alloc, core)? {
            Some(count) => parts = parts.saturating_add(count as u64),
            None => {
                return Ok(RunCounts {
                    keys: core.key_count(),
                    tasks,
                    parts,
                });
            }
        }
    }
    bail!("there are more tasks than a number counts")
}

/// Does the task of the key that is next, with all its parts, and answers how many these are: `None` where no
/// key is pending.
fn do_task<P: Problem>(alloc: Global, core: &mut Core<P>) -> Result<Option<usize>, Refused> {
    let Claimed::Task(task) = core.claim(0)? else {
        return Ok(None);
    };
    let mut work = match Work::of(alloc, task) {
        Ok(work) => work,
        Err((refused, _)) => return Err(refused),
    };
    let count = core.parts(0, &mut work, usize::MAX)?;
    core.finish(0, &work)?;
    Ok(Some(count))
}
