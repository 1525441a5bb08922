//! The name of a board, for the types that have to agree on one.
use std::marker::Brand;

/// Names a board, for the types that have to agree on one: what lies under two locks, each with a seat
/// of the same board, and what shares both. Each call of a program picks the name.
pub trait Naming {
    ghost use Rattle.atomic_table.specs.Seated.{TableId};

    ghost board: { TableId };
}

impl Naming for Brand {
    ghost use Rattle.ide_board.specs.Records.{no_board};

    ghost board = { no_board };
}
