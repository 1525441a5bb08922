//! What each step on a board tells, and what a step is told by a ghost member that its call picks.

use crate::view::View;
use atomic_table::{Join, Play, Split};
use std::marker::{Brand, PhantomData};

/// The record that is sealed with its mark, as a list of one.
pub(crate) trait Entry<R> {
    ghost use Rattle.std.specs.Prelude.{List};
    ghost use Rattle.ide_board.specs.Records.{Marked};

    ghost entry: { List (Marked R) };
}

impl<R> Entry<R> for Brand {
    ghost use Rattle.std.specs.Prelude.{[]};

    ghost entry = { [] };
}

/// What a value shows as the record that is sealed, where records are no values of the program's own.
pub trait Shows<T, R> {
    ghost shown: { T → R };
}

/// The number of a client.
pub(crate) trait Numbered {
    ghost use Rattle.std.specs.Prelude.{ℕ};

    ghost number: { ℕ };
}

impl Numbered for Brand {
    ghost number = { 0 };
}

/// The records that a board begins with.
pub trait Base<R> {
    ghost use Rattle.std.specs.Prelude.{List};

    ghost records: { List R };
}

impl<R> Base<R> for Brand {
    ghost use Rattle.std.specs.Prelude.{[]};

    ghost records = { [] };
}

pub(crate) struct Seals<E> {
    entry: PhantomData<E>,
}

impl<R, E: Entry<R>> Play<(), View<R>> for Seals<E> {
    ghost use Rattle.ide_board.specs.Steps.{Sealing};

    ghost then = { Sealing E.entry };
}

pub(crate) struct Publishes;

impl<R> Play<(), View<R>> for Publishes {
    ghost use Rattle.ide_board.specs.Steps.{Publishing};

    ghost then = { Publishing };
}

pub(crate) struct Reads;

impl<R> Play<(), View<R>> for Reads {
    ghost use Rattle.ide_board.specs.Steps.{Reading};

    ghost then = { Reading };
}

pub(crate) struct Learns;

impl<R> Play<(), View<R>> for Learns {
    ghost use Rattle.ide_board.specs.Steps.{Learning};

    ghost then = { Learning };
}

pub(crate) struct Compares;

impl<R> Play<(), View<R>> for Compares {
    ghost use Rattle.ide_board.specs.Steps.{Comparing};

    ghost then = { Comparing };
}

pub(crate) struct Confirms;

impl<R> Play<(), View<R>> for Confirms {
    ghost use Rattle.ide_board.specs.Steps.{Confirming};

    ghost then = { Confirming };
}

pub(crate) struct Adds;

impl<R> Play<(), View<R>> for Adds {
    ghost use Rattle.ide_board.specs.Steps.{Adding};

    ghost then = { Adding };
}

pub(crate) struct Counts;

impl<R> Play<(), View<R>> for Counts {
    ghost use Rattle.ide_board.specs.Steps.{Counting};

    ghost then = { Counting };
}

pub(crate) struct Takes;

impl<R> Play<(), View<R>> for Takes {
    ghost use Rattle.ide_board.specs.Steps.{Taking};

    ghost then = { Taking };
}

pub(crate) struct Ends;

impl<R> Play<(), View<R>> for Ends {
    ghost use Rattle.ide_board.specs.Steps.{Ending};

    ghost then = { Ending };
}

/// The first seat becomes the table's, and gives the writer's.
pub(crate) struct Founds<B> {
    base: PhantomData<B>,
}

impl<R, B: Base<R>> Split<View<R>> for Founds<B> {
    ghost use Rattle.ide_board.specs.Steps.{table_of, writer_of};

    ghost left = { λ v. table_of B.records };

    ghost right = { λ v. writer_of B.records };
}

/// The writer's seat gives a client's.
pub(crate) struct Admits<N> {
    number: PhantomData<N>,
}

impl<R, N: Numbered> Split<View<R>> for Admits<N> {
    ghost use Rattle.ide_board.specs.Steps.{client_of};

    ghost left = { λ v. v };

    ghost right = { client_of N.number };
}

/// A seat gives a note of what it knows, and another takes it in.
pub(crate) struct Notes;

impl<R> Split<View<R>> for Notes {
    ghost use Rattle.ide_board.specs.Steps.{carrier_of};

    ghost left = { λ v. v };

    ghost right = { carrier_of };
}

impl<R> Join<View<R>> for Notes {
    ghost use Rattle.ide_board.specs.declared.view.Role.TheVariants.{Nothing};
    ghost use Rattle.ide_board.specs.Roles.{without_note};
    ghost use Rattle.ide_board.specs.Steps.{with_carried};

    ghost both = { with_carried };

    ghost spent = { without_note Nothing };
}
