//! Where both desks are lent: what was sealed goes over from the one to the other.
ghost use Rattle.std.specs.Prelude.{◌≡◌, ◌↔◌, ◌≤◌, true, false, IsTrue};
ghost use Rattle.std.specs.List.{All};
ghost use Rattle.ide_desks.specs.Desks.{HandsOver, MayTakeOver};
ghost use Rattle.ide_desks.specs.Opened.{AreAgreed};
ghost use Rattle.ide_journal.specs.Format.{IsEntry};
ghost use Rattle.ide_journal.specs.Lists.{entries_of};
ghost use Rattle.ide_slot_store.specs.Half.{TakesFrom};

use crate::accord::Accord;
use crate::table::TableDesk;
use crate::writer::WriterDesk;
use ide_disk::Disk;
use ide_problem::Problem;
use ide_slot_store::SlotWriterHalf;
use ide_store::{Kept, TableHalf, two_disks_are_a_store};

impl<P: Problem, J: Accord> TableDesk<P, J> {
    /// Hands all that is sealed over to the writer's desk, and answers whether it did: it does where no call
    /// of a disk failed and the writer has stored all that it took over before. It takes no memory.
    pub fn hand_over<D: Disk>(&mut self, writer: &mut WriterDesk<P, D, J>) -> bool
        ensures when { IsTrue result ↔ MayTakeOver writer.old.failed writer.old.seat }
        ensures hands { result ≡ true → HandsOver self.old.seat self.new.seat writer.old.seat writer.new.seat }
        ensures none { result ≡ false → (self.new.seat ≡ self.old.seat) × (writer.new.seat ≡ writer.old.seat) }
        ensures table { self.new.half ≡ record self.old.half { waiting = self.new.half.waiting } }
        ensures journal { writer.new.half.journal ≡ writer.old.half.journal }
        ensures failed { writer.new.failed ≡ writer.old.failed }
        ensures agreed { result ≡ true → AreAgreed self.new.switch writer.new.switch }
    {
        two_disks_are_a_store::<P>();
        if writer.failed || writer.seat.stored() < writer.taken {
            return false;
        }
        take_over(&mut self.half, &mut writer.half);
        self.board.hand_over(&mut self.seat, &mut writer.seat);
        self.switch.agree(&mut writer.switch);
        writer.taken = self.half.sealed();
        true
    }
}

/// The half that writes takes over what waits with the half that works, where nothing waits with itself.
fn take_over<P: Problem, D: Disk>(working: &mut TableHalf<P>, writing: &mut SlotWriterHalf<D>)
    ensures hands { TakesFrom working.old working.new writing.old writing.new }
    ensures journal { writing.new.journal ≡ writing.old.journal }
    ensures commands { writing.new.commands.items ≡ writing.old.commands.items }
    ensures proper { All IsEntry (entries_of writing.new.waiting.items) }
    ensures few { working.old.sealed ≤ 4294967295 }
{
    writing.take_from(working);
}
