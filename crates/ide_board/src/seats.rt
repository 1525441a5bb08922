//! The seats at a board: of the table, of the writer, and of each client.
ghost use Rattle.std.specs.Prelude.{◌≡◌, length};

use crate::view::View;
use atomic_table::Seat;
use std::marker::Model;

/// The seat of those who seal, to lie under the table's lock. Contracts see the records sealed, each
/// with the client that ordered it, and how many of them were handed over.
#[derive(Drop)]
pub struct TableSeat<R> {
    pub(crate) seat: Seat<(), View<R>>,
}

impl<R> Model for TableSeat<R> {
    ghost use Rattle.ide_board.specs.Records.{TableView};
    ghost use Rattle.ide_board.specs.Roles.{IsTableSeat, table_view};

    ghost Value = { TableView R };

    ghost view = { λ s. table_view s.seat.table_id s.seat.me.0.role };

    ghost invariant = { λ s. IsTableSeat s.seat.me.0.role };
}

/// The seat of the one who stores, to lie under the writer's lock. Contracts see the records handed
/// over to it, and those of them that are stored.
#[derive(Drop)]
pub struct WriterSeat<R> {
    pub(crate) seat: Seat<(), View<R>>,
    /// How many records are stored.
    pub(crate) stored: u64,
}

impl<R> Model for WriterSeat<R> {
    ghost use Rattle.ide_board.specs.Records.{WriterView};
    ghost use Rattle.ide_board.specs.Roles.{IsWriterSeat, writer_view};

    ghost Value = { WriterView R };

    ghost view = { λ s. writer_view s.seat.table_id s.seat.me.0.role };

    ghost invariant = { λ s. IsWriterSeat s.stored s.seat.me.0.role };
}

/// The seat of a client, for the client's own thread. Contracts see the client's number, its own
/// records with their numbers, and the acknowledged number that it has seen.
#[derive(Drop)]
pub struct ClientSeat<R> {
    pub(crate) seat: Seat<(), View<R>>,
    pub(crate) number: u64,
    pub(crate) seen: u64,
}

impl<R> Model for ClientSeat<R> {
    ghost use Rattle.ide_board.specs.Records.{ClientView};
    ghost use Rattle.ide_board.specs.Roles.{IsClientSeat, client_view};

    ghost Value = { ClientView R };

    ghost view = { λ s. client_view s.seat.table_id s.seat.me.0.role };

    ghost invariant = { λ s. IsClientSeat s.number s.seen s.seat.me.0.role };
}

impl<R> WriterSeat<R> {
    /// How many records are stored.
    pub fn stored(&self) -> u64
        ensures { result ≡ length self.now.stored }
    {
        self.stored
    }
}

impl<R> ClientSeat<R> {
    /// The client's number, counted from 0.
    pub fn number(&self) -> u64
        ensures { result ≡ self.now.number }
    {
        self.number
    }

    /// The acknowledged number that the client has seen or learnt last, at first the count of records
    /// at the start.
    pub fn seen(&self) -> u64
        ensures { result ≡ self.now.seen }
    {
        self.seen
    }
}
