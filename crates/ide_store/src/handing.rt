//! What the half that works has to do with a half that writes: sealed records go over to it, and it
//! tells when a call of its disk failed.
ghost use Rattle.std.specs.Prelude.{◌≡◌, ◌≤◌, true, IfErr, OnErr, OnOk};
ghost use Rattle.std.specs.List.{All};
ghost use Rattle.ide_journal.specs.Format.{IsEntry};
ghost use Rattle.ide_journal.specs.Lists.{entries_of};
ghost use Rattle.ide_store.specs.Handing.{HandsAll, HandsTo};
ghost use Rattle.ide_store.specs.Table.{IsSameTable};

use crate::table::TableHalf;
use ide_journal::{RawRecord, Version};
use ide_problem::Problem;
use ide_wire::Refused;
use std::collections::VecDeque;
use std::mem;

impl<P: Problem> TableHalf<P> {
    /// Hands the sealed records over to a writer's queue, if none waits there. It takes no memory.
    pub fn hand_over(&mut self, queue: &mut VecDeque<RawRecord>)
        requires { All IsEntry (entries_of queue.old.items) }
        ensures hands { HandsTo self.old self.new queue.old.items queue.new.items }
        ensures proper { All IsEntry (entries_of queue.new.items) }
        ensures few { self.old.sealed ≤ 4294967295 }
    {
        if queue.is_empty() {
            mem::swap(queue, &mut self.outbox.waiting);
        }
    }

    /// Hands all sealed records over to a writer's queue, behind those that wait there.
    ///
    /// Refusal: `NoMemory`, and none is handed over.
    pub fn hand_over_all(&mut self, queue: &mut VecDeque<RawRecord>) -> Result<(), Refused>
        requires { All IsEntry (entries_of queue.old.items) }
        ensures hands { OnOk result (HandsAll self.old self.new queue.old.items queue.new.items) }
        ensures proper { All IsEntry (entries_of queue.new.items) }
        ensures few { self.old.sealed ≤ 4294967295 }
        ensures unchanged { OnErr result (IsSameTable self.old self.new) }
        ensures queue { OnErr result (queue.new.items ≡ queue.old.items) }
        ensures refused { IfErr result (λ e. e ≡ Refused.NoMemory) }
    {
        queue.append(&mut self.outbox.waiting)?;
        Ok(())
    }

    /// Marks that a call of the writer failed: from then on each call is refused with `Failed`.
    pub fn stop(&mut self)
        ensures { self.new ≡ record self.old { failed = true } }
    {
        self.failed = true;
    }

    /// Spells records in that version from now on, as the slot wants them that a checkpoint turns to. Those that
    /// wait stay as they are.
    pub fn spell_in(&mut self, version: Version)
        ensures { self.new ≡ record self.old { version = version } }
    {
        self.version = version;
    }

    /// Whether a call of the writer failed.
    pub fn is_stopped(&self) -> bool
        ensures { result ≡ self.now.failed }
    {
        self.failed
    }
}
