//! Both desks, given up: what lay under two locks is an engine again.
ghost use Rattle.std.specs.Prelude.{◌≡◌, ◌||◌, false};
ghost use Rattle.ide_desks.specs.Opened.{IsRejoined};
ghost use Rattle.ide_steps.specs.Core.{IsUnchanged};

use crate::accord::Accord;
use crate::laws::halves_meet;
use crate::table::TableDesk;
use crate::writer::WriterDesk;
use ide_disk::Disk;
use ide_problem::Problem;
use ide_slot_store::SlotEngine;
use ide_store::{Kept, TableHalf, two_disks_are_a_store};

impl<P: Problem, J: Accord> TableDesk<P, J> {
    /// The engine of which the desks have the halves. What waits with the half that works is handed over to the
    /// half that writes, unless memory is wanting for that. Where a call of a disk failed, and only there, each call of the
    /// engine is refused with `Failed`.
    pub fn into_engine<D: Disk>(self, writer: WriterDesk<P, D, J>) -> SlotEngine<P, D>
        ensures run { J.told → IsRejoined ⟦<P as Kept>⟧.analysis P.TAG result }
        ensures core { IsUnchanged self.half.core result.table.core }
        ensures sealed { result.table.sealed ≡ self.half.sealed }
        ensures failed { result.table.failed ≡ (writer.failed || self.half.failed) }
        ensures journal { result.writer.journal ≡ writer.half.journal }
    {
        halves_meet::<P, D>();
        two_disks_are_a_store::<P>();
        let TableDesk {
            mut half,
            mut seat,
            board,
            mut switch,
            ..
        } = self;
        let WriterDesk {
            half: mut writing,
            seat: mut writing_seat,
            switch: mut writing_switch,
            failed,
            ..
        } = writer;
        board.hand_over(&mut seat, &mut writing_seat);
        switch.agree(&mut writing_switch);
        let _ = writing.take_all_from(&mut half);
        SlotEngine {
            table: stopped_where(failed, half),
            writer: writing,
        }
    }
}

/// The half, which is told of a failure where there was one.
fn stopped_where<P: Problem>(failed: bool, mut half: TableHalf<P>) -> TableHalf<P>
    ensures { result ≡ record half { failed = failed || half.failed } }
{
    if failed {
        half.stop();
    }
    half
}
