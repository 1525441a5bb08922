//! What seats know of the records, and the rule that holds between any two steps.
ghost use Rattle.std.specs.Prelude.{ℕ};

use atomic_table::TableRule;
use std::collections::LinkedList;

/// What a seat knows for itself. No value of it is made: it stands in proofs alone.
pub enum Role<R> {
    /// The first seat, which knows how many records the board begins with. All others come of it.
    Founder(u64),
    /// The sealed records with their marks, how many of them were handed over, and how many before
    /// the last hand over: the same number once that has ended.
    Table(LinkedList<(R, Option<u64>)>, u64, u64),
    /// The records handed over, and those of them that are stored.
    Writer(LinkedList<(R, Option<u64>)>, LinkedList<(R, Option<u64>)>),
    /// The client's number, its own records with their numbers, and the acknowledged number seen.
    Client(u64, LinkedList<(u64, R)>, u64),
    /// Nothing: a seat that was made to carry a note, or is spent.
    Nothing,
}

/// What a seat knows, and a note of what another seat knew. No value of it is made.
pub struct View<R> {
    pub role: Role<R>,
    pub note: Role<R>,
}

/// The rule of a board, which is told the count of records at the start.
pub struct Law;

impl<R> TableRule<(), View<R>, u64> for Law {
    ghost use Rattle.ide_board.specs.Rule.{Kept};
    ghost use Rattle.ide_board.specs.Steps.{founder};

    ghost holds = { Kept };

    ghost first = { founder };
}
