//! How far a run has come, told on a terminal while hands work on it.
use ide_desks::Accord;
use ide_disk::Disk;
use ide_problem::Problem;
use ide_service::{Gate, Point, Service};
use ide_store::Kept;
use std::io::{Stderr, Write};
use std::sync::Wait;
use std::time::{Clock, Instant};

/// A gate that lets everybody go on. Each time a record was stored it tells on a terminal, if there is one, how
/// far the run has come: one line, written over the one before.
#[derive(Drop)]
pub(crate) struct Telling<'a, R: Wait + Clock, P: Kept, D: Disk, J: Accord> {
    pub(crate) rt: &'a R,
    pub(crate) service: &'a Service<P, D, J>,
    pub(crate) terminal: Option<Stderr>,
    /// When the work began: none where the clock could not be read.
    pub(crate) since: Option<Instant>,
    /// How many whole tasks a hand does unasked.
    pub(crate) ahead: usize,
}

impl<'a, R: Wait + Clock, P: Problem, D: Disk, J: Accord> Gate for Telling<'a, R, P, D, J> {
    ghost may_stop = { λ _ _. ⊥ };

    fn pass(&self, point: Point) -> bool {
        if point == Point::Stored {
            self.tell();
        }
        true
    }

    fn stride(&self) -> usize {
        usize::MAX
    }

    fn ahead(&self) -> usize {
        self.ahead
    }
}

impl<'a, R: Wait + Clock, P: Problem, D: Disk, J: Accord> Telling<'a, R, P, D, J> {
    /// Tells how far the run has come. What the terminal does not take is left out: the run goes on.
    fn tell(&self) {
        let Some(mut terminal) = self.terminal else {
            return;
        };
        let run = self.service.progress(self.rt);
        let _ = write!(
            terminal,
            "\r{} keys, {} pending, {} records stored, {} s\x1b[K",
            run.keys,
            run.pending,
            run.records,
            self.seconds(),
        );
    }

    /// How many seconds the work has taken: 0 where the clock cannot be read.
    fn seconds(&self) -> u64 {
        match self.since {
            Some(began) => match began.elapsed(self.rt) {
                Ok(time) => time.as_secs(),
                Err(_) => 0,
            },
            None => 0,
        }
    }

    /// Takes the last line away.
    pub(crate) fn end(&self) {
        if let Some(mut terminal) = self.terminal {
            let _ = write!(terminal, "\r\x1b[K");
        }
    }
}
