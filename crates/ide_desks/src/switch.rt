//! Where records go over from one version to the other: what both desks know of it.
ghost use Rattle.std.specs.Prelude.{◌≡◌, length, true};
ghost use Rattle.ide_desks.specs.Switching.{noted_once};

use ide_board::{Board, TableSeat, WriterSeat};

/// What the table's desk knows: a board of its own, on which it is noted, once, that a checkpoint began. From then on
/// records are sealed in the second version. The writer's desk has the other seat, and whatever one of them knows the
/// other does, where both are lent.
#[derive(Drop)]
pub(crate) struct TableSwitch {
    pub(crate) board: Board<()>,
    pub(crate) seat: TableSeat<()>,
    /// Whether it is noted.
    pub(crate) noted: bool,
    ghost named: { seat.board ≡ board },
    ghost once: { seat.sealed ≡ noted_once noted },
    ghost shared: { seat.handed ≡ length seat.sealed },
}

/// What the writer's desk knows.
#[derive(Drop)]
pub(crate) struct WriterSwitch {
    pub(crate) seat: WriterSeat<()>,
}

impl TableSwitch {
    /// Both desks know the same. Nothing changes.
    pub(crate) fn agree(&mut self, writer: &mut WriterSwitch)
        requires { writer.old.seat.board ≡ self.old.board }
        ensures table { self.new ≡ self.old }
        ensures writer { writer.new ≡ writer.old }
        ensures agreed { writer.old.seat.taken ≡ self.old.seat.sealed }
    {
        self.board.hand_over(&mut self.seat, &mut writer.seat);
    }

    /// Notes that a checkpoint began, and both desks know it.
    pub(crate) fn note(&mut self, writer: &mut WriterSwitch)
        requires { writer.old.seat.board ≡ self.old.board }
        ensures board { self.new.board ≡ self.old.board }
        ensures writers_board { writer.new.seat.board ≡ writer.old.seat.board }
        ensures table { self.new.seat.sealed ≡ noted_once true }
        ensures writer { writer.new.seat.taken ≡ noted_once true }
    {
        if !self.noted {
            self.board.seal(&mut self.seat, &(), None);
            self.noted = true;
        }
        self.board.hand_over(&mut self.seat, &mut writer.seat);
    }
}
