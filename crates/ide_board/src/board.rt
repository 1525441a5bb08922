//! The board itself, and each step on it.
ghost use Rattle.std.specs.Prelude.{◌≡◌, Err, ◌+◌, ◌-◌, ◌<◌, ◌≤◌, ◌⊎◌, ◌++◌, [], length, max, IfOk, IsOkUnless};
ghost use mathlib.Core.List.{IsPrefix};
ghost use Rattle.ide_wire.specs.declared.refused.Refused.TheVariants.{NoMemory, Limit};
ghost use Rattle.ide_board.specs.Records.{AreSealed, AreStoredBelow, AscendInNumber, IsLastOf, IsNotNoted, given_clients, last_pair, new_client, new_clients, new_table, new_writer, with_own, with_sealed, with_stored};
ghost use Rattle.ide_board.specs.Roles.{IsSeated};
ghost use Rattle.ide_board.specs.Steps.{told_of};

use crate::plays::{
    Adds, Admits, Base, Compares, Confirms, Counts, Ends, Entry, Founds, Learns, Notes, Numbered,
    Publishes, Reads, Seals, Shows, Takes,
};
use crate::seats::{ClientSeat, TableSeat, WriterSeat};
use crate::view::{Law, View};
use atomic_table::{Seat, Table};
use ide_wire::Refused;
use std::alloc::Global;
use std::marker::{Brand, Model};
use std::sync::atomic::{AtomicBool, Ordering};

/// How many clients a board may have.
const MOST_CLIENTS: u64 = 64;

/// How many records a board may have.
const MOST_RECORDS: u64 = 4_294_967_295;

/// A board of two words: how many records are sealed, and how many are stored; and a flag to stop.
/// Contracts see which board it is. No call but [`Board::new`] takes memory, and none waits.
#[derive(Drop)]
pub struct Board<R> {
    table: Table<(), View<R>, u64, Law, Global>,
    stop: AtomicBool,
}

impl<R> Model for Board<R> {
    ghost use Rattle.std.specs.Prelude.{◌≡◌};
    ghost use Rattle.atomic_table.specs.Seated.{TableId, table_id_coded};

    ghost Value = { TableId };

    ghost coded = { table_id_coded };

    ghost view = { λ b. b.table.shared.table_id };

    ghost invariant = { λ b. b.table.shared.table_id.words ≡ 2 };
}

impl<R: Drop> Board<R> {
    /// A board over `count` records that are all stored, with the table's seat, the writer's, and
    /// those of so many clients, in the order of their numbers from 0. A client's seat has seen the
    /// count. Which records they are the call picks, as the ghost member of `B`.
    ///
    /// Refusals, in this order: `Limit`, where there are more than 64 clients or more than
    /// 4,294,967,295 records; `NoMemory`.
    pub fn new<B: Base<R>>(
        alloc: Global,
        count: u64,
        clients: u64,
    ) -> Result<(Board<R>, TableSeat<R>, WriterSeat<R>, Vec<ClientSeat<R>>), Refused>
        requires { length B.records ≡ count }
        ensures limit { (64 < clients) ⊎ (4294967295 < count) → result ≡ Err Limit }
        ensures memory { clients ≤ 64 → count ≤ 4294967295 → IsOkUnless result NoMemory }
        ensures table { IfOk result (λ b. b.1 ≡ new_table b.0 B.records) }
        ensures writer { IfOk result (λ b. b.2 ≡ new_writer b.0 B.records) }
        ensures clients { IfOk result (λ b. b.3.items ≡ new_clients b.0 count clients) }
    {
        if clients > MOST_CLIENTS || count > MOST_RECORDS {
            return Err(Refused::Limit);
        }
        let (board, table, mut writer) = Board::open::<B>(alloc, count)?;
        let seats = board.admit_all(alloc, &mut writer, clients)?;
        Ok((board, table, writer, seats))
    }

    /// Adds the record to the sealed ones, with the number of the client that ordered it, or none.
    pub fn seal(&self, table: &mut TableSeat<R>, item: &R, by: Option<u64>)
        requires board { table.old.board ≡ self.now }
        requires room { length table.old.sealed < 4294967295 }
        ensures { table.new ≡ with_sealed table.old (item.now, by) }
    {
        self.add::<Brand, R>(table, item, by);
    }

    /// The same of the record that a value shows: it need be no value of the program's own.
    pub fn seal_shown<S: Shows<T, R>, T>(&self, table: &mut TableSeat<R>, from: &T, by: Option<u64>)
        requires board { table.old.board ≡ self.now }
        requires room { length table.old.sealed < 4294967295 }
        ensures { table.new ≡ with_sealed table.old (S.shown from.now, by) }
    {
        self.add::<Brand, T>(table, from, by);
    }

    /// Hands all sealed records over to the writer. Before and afterwards the writer has exactly as
    /// many as were handed over.
    pub fn hand_over(&self, table: &mut TableSeat<R>, writer: &mut WriterSeat<R>)
        requires boards { (table.old.board ≡ self.now) × (writer.old.board ≡ self.now) }
        ensures table { table.new ≡ record table.old { handed = length table.old.sealed } }
        ensures writer { writer.new ≡ record writer.old { taken = table.old.sealed } }
        ensures begins { IsPrefix writer.old.taken table.old.sealed }
        ensures all { length writer.old.taken ≡ table.old.handed }
    {
        self.tell(&mut writer.seat, &mut table.seat);
        self.table.shared.load::<Counts>(&mut table.seat, 0);
        self.tell(&mut table.seat, &mut writer.seat);
        self.table.shared.load::<Takes>(&mut writer.seat, 0);
        self.tell(&mut writer.seat, &mut table.seat);
        self.table.shared.load::<Ends>(&mut table.seat, 0);
    }

    /// Notes in the client's seat the last sealed record with its number. It is the client's own, not
    /// handed over, and not noted yet.
    pub fn note(&self, table: &mut TableSeat<R>, client: &mut ClientSeat<R>)
        requires boards { (table.old.board ≡ self.now) × (client.old.board ≡ self.now) }
        requires last { IsLastOf client.old.number table.old.sealed }
        requires waits { table.old.handed < length table.old.sealed }
        requires new { IsNotNoted (length table.old.sealed - 1) client.old.own }
        ensures table { table.new ≡ table.old }
        ensures client { client.new ≡ with_own client.old (last_pair table.old.sealed) }
        ensures seen { client.old.seen < length table.old.sealed }
    {
        self.compare(table, client);
        self.tell(&mut table.seat, &mut client.seat);
        self.table.shared.load::<Adds>(&mut client.seat, 0);
    }

    /// Compares what a client knows with the sealed records, and changes nothing. So a caller that
    /// seals a record for the client afterwards knows that its number is not noted.
    pub fn compare(&self, table: &mut TableSeat<R>, client: &mut ClientSeat<R>)
        requires boards { (table.old.board ≡ self.now) × (client.old.board ≡ self.now) }
        ensures table { table.new ≡ table.old }
        ensures client { client.new ≡ client.old }
        ensures own { AreSealed table.old.sealed client.old.number client.old.own }
        ensures ascends { AscendInNumber client.old.own }
        ensures seen { client.old.seen ≤ table.old.handed }
    {
        self.tell(&mut client.seat, &mut table.seat);
        self.table.shared.load::<Compares>(&mut table.seat, 0);
    }

    /// Raises the acknowledged number by one: one more of the records handed over is stored.
    pub fn publish(&self, writer: &mut WriterSeat<R>)
        requires board { writer.old.board ≡ self.now }
        requires waits { length writer.old.stored < length writer.old.taken }
        ensures { writer.new ≡ with_stored writer.old (length writer.old.stored + 1) }
    {
        let next = writer.stored + 1;
        self.table
            .shared
            .fetch_max::<Publishes>(&mut writer.seat, 1, next);
        writer.stored = next;
    }

    /// Compares what a client has seen with the stored records, and changes nothing: each of the
    /// client's own records below that number is stored, at its number.
    pub fn confirm(&self, writer: &mut WriterSeat<R>, client: &mut ClientSeat<R>)
        requires boards { (writer.old.board ≡ self.now) × (client.old.board ≡ self.now) }
        ensures writer { writer.new ≡ writer.old }
        ensures client { client.new ≡ client.old }
        ensures own { let c = client.old in AreStoredBelow c.seen writer.old.stored c.number c.own }
        ensures seen { client.old.seen ≤ length writer.old.stored }
    {
        self.tell(&mut client.seat, &mut writer.seat);
        self.table.shared.load::<Confirms>(&mut writer.seat, 0);
    }

    /// The acknowledged number: how many records are stored. It needs no lock, and is not below what
    /// the client has seen or learnt.
    pub fn acked(&self, client: &mut ClientSeat<R>) -> u64
        requires { client.old.board ≡ self.now }
        ensures seen { client.old.seen ≤ result }
        ensures client { client.new ≡ record client.old { seen = result } }
    {
        let found = self.table.shared.load::<Reads>(&mut client.seat, 1);
        client.seen = found;
        found
    }

    /// Lets a client see what another has seen.
    pub fn learn(&self, client: &mut ClientSeat<R>, from: &mut ClientSeat<R>)
        requires boards { (client.old.board ≡ self.now) × (from.old.board ≡ self.now) }
        ensures client { client.new ≡ record client.old { seen = max client.old.seen from.old.seen } }
        ensures from { from.new ≡ from.old }
    {
        self.tell(&mut from.seat, &mut client.seat);
        self.table.shared.load::<Learns>(&mut client.seat, 0);
        client.seen = client.seen.max(from.seen);
    }

    /// Raises the flag to stop. Nothing is claimed of it.
    pub fn raise_stop(&self) {
        self.stop.store(true, Ordering::SeqCst);
    }

    /// Whether the flag to stop was raised.
    pub fn stopped(&self) -> bool {
        self.stop.load(Ordering::SeqCst)
    }

    /// How many records are stored, for who looks on and has no seat. Nothing is claimed of it.
    pub fn stored(&self) -> u64 {
        self.table.shared.peek(1)
    }

    // The board with the two seats that change its words.
    fn open<B: Base<R>>(
        alloc: Global,
        count: u64,
    ) -> Result<(Board<R>, TableSeat<R>, WriterSeat<R>), Refused>
        requires records { length B.records ≡ count }
        requires few { count ≤ 4294967295 }
        ensures refused { IsOkUnless result NoMemory }
        ensures table { IfOk result (λ b. b.1 ≡ new_table b.0 B.records) }
        ensures writer { IfOk result (λ b. b.2 ≡ new_writer b.0 B.records) }
    {
        let (table, mut first) = Table::of_words(alloc, &[count, count], &count)?;
        let second = table.shared.split_seat::<Founds<B>>(&mut first);
        let board = Board {
            table,
            stop: AtomicBool::new(false),
        };
        let writer = WriterSeat {
            seat: second,
            stored: count,
        };
        Ok((board, TableSeat { seat: first }, writer))
    }

    // Seats for so many clients.
    fn admit_all(
        &self,
        alloc: Global,
        writer: &mut WriterSeat<R>,
        clients: u64,
    ) -> Result<Vec<ClientSeat<R>>, Refused>
        requires { writer.old.board ≡ self.now }
        ensures refused { IsOkUnless result NoMemory }
        ensures writer { writer.new ≡ writer.old }
        ensures clients { IfOk result (λ v. v.items ≡ given_clients writer.old clients) }
    {
        let mut seats = Vec::new(alloc);
        for number in 0..clients {
            seats.push(self.admit::<Brand>(writer, number))?;
        }
        Ok(seats)
    }

    // The seat of one client, which has seen what is stored.
    fn admit<N: Numbered>(&self, writer: &mut WriterSeat<R>, number: u64) -> ClientSeat<R>
        requires board { writer.old.board ≡ self.now }
        requires number { N.number ≡ number }
        ensures writer { writer.new ≡ writer.old }
        ensures client { result ≡ new_client self.now (length writer.old.stored) number }
    {
        let seat = self.table.shared.split_seat::<Admits<N>>(&mut writer.seat);
        ClientSeat {
            seat,
            number,
            seen: writer.stored,
        }
    }

    // Adds one record with its mark. Its call picks both, from what shows the record and from the client's
    // number, which are lent for that alone.
    fn add<E: Entry<R>, T>(&self, table: &mut TableSeat<R>, _from: &T, _by: Option<u64>)
        requires board { table.old.board ≡ self.now }
        requires room { length table.old.sealed < 4294967295 }
        requires one { length E.entry ≡ 1 }
        ensures { table.new ≡ record table.old { sealed = table.old.sealed ++ E.entry } }
    {
        self.table
            .shared
            .fetch_add::<Seals<E>>(&mut table.seat, 0, 1);
    }

    // Tells one seat what another knows, which stays as it is.
    fn tell(&self, from: &mut Seat<(), View<R>>, to: &mut Seat<(), View<R>>)
        requires from { from.old.table_id ≡ self.now }
        requires to { to.old.table_id ≡ self.now }
        requires seated { IsSeated from.old.me.0.role }
        ensures from { from.new.table_id ≡ from.old.table_id }
        ensures from_me { from.new.me ≡ from.old.me }
        ensures to { to.new.table_id ≡ to.old.table_id }
        ensures to_me { to.new.me.0 ≡ told_of to.old.me.0 from.old.me.0 }
    {
        let note = self.table.shared.split_seat::<Notes>(from);
        self.table.shared.join_seat::<Notes>(to, note);
    }
}
