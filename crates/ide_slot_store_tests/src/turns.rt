//! Work and disk calls in turns: an opening behind a crash gives the image behind the last record that is left.
use crate::engine::{create_on, given, open_after_crash};
use ide_disk::{Leave, MemDisk};
use ide_engines::{Hand, items_of, load, root, seal};
use ide_instances::{ConstFn, ShiftConst};
use ide_lattice::EdgeFn;
use ide_problem::Problem;
use ide_slot_store::SlotEngine;
use ide_store::TableHalf;
use ide_wire::{Key, Refused};
use ide_worked::RECURSION;
use std::alloc::AllocGlobal;
use std::process::Abort;

type Engine = SlotEngine<ShiftConst, MemDisk>;

/// The turn at which the second root is made: something changed then that is not sealed.
const ROOTED: usize = 3;

/// The items that stood behind each sealed record.
#[derive(Drop)]
struct Images<F: EdgeFn> {
    list: Vec<Vec<(Key, F, bool)>>,
}

impl<F: EdgeFn> Images<F> {
    /// Adds the items behind the next record.
    fn add(&mut self, items: Vec<(Key, F, bool)>) -> Result<(), Refused> {
        self.list.push(items)?;
        Ok(())
    }

    /// Notes the items behind the record of that number, which is the next one.
    fn note(&mut self, rt: &impl Abort, items: Vec<(Key, F, bool)>, number: u64) {
        assert!(rt; self.list.len() as u64 == number, "record {number}");
        given(rt, self.add(items));
    }

    /// Asserts that these are the items behind so many records.
    fn expect(&self, rt: &impl Abort, items: &[(Key, F, bool)], count: u64) {
        match self.list.get(count.saturating_sub(1) as usize) {
            Some(image) => assert!(rt; image.as_slice() == items, "behind {count} records"),
            None => assert!(rt; false, "{count} records were not sealed"),
        }
    }
}

/// A new store, on a disk with room for many records.
fn create_roomy(rt: &(impl Abort + AllocGlobal)) -> Engine {
    match MemDisk::new(rt.alloc(), 200_000, 400_000) {
        Ok(a) => create_on(rt, a),
        Err(_) => panic!(rt; "no memory"),
    }
}

/// Loads the program, with `main` as its root.
fn begin_run<P: Problem>(
    rt: &(impl Abort + AllocGlobal),
    table: &mut TableHalf<P>,
    images: &mut Images<P::F>,
) {
    let number = given(rt, load(rt.alloc(), table, RECURSION));
    images.note(rt, given(rt, items_of(table)), number);
    let number = given(rt, root(table, "main"));
    images.note(rt, given(rt, items_of(table)), number);
}

/// Makes the second root, behind a batch of what changed.
fn make_second_root<P: Problem>(
    rt: &impl Abort,
    table: &mut TableHalf<P>,
    images: &mut Images<P::F>,
) {
    let before = given(rt, items_of(table));
    let number = given(rt, root(table, "rec"));
    images.note(rt, before, number.saturating_sub(1));
    images.note(rt, given(rt, items_of(table)), number);
}

/// Seals what changed.
fn seal_changes<P: Problem>(rt: &impl Abort, table: &mut TableHalf<P>, images: &mut Images<P::F>) {
    if let Some(number) = given(rt, seal(table)) {
        images.note(rt, given(rt, items_of(table)), number);
    }
}

/// One turn: the hand's next step, at each other turn a batch, and one disk call.
fn take_turn<P: Problem>(
    rt: &(impl Abort + AllocGlobal),
    engine: &mut SlotEngine<P, MemDisk>,
    hand: &mut Hand<P>,
    images: &mut Images<P::F>,
    turn: usize,
) {
    if turn == ROOTED {
        make_second_root(rt, &mut engine.table, images);
    }
    given(rt, hand.step(rt.alloc(), &mut engine.table));
    if turn % 2 == 1 {
        seal_changes(rt, &mut engine.table, images);
    }
    given(rt, engine.disk_step());
}

/// So many turns from the load on, and the images behind the records that they sealed.
fn take_turns<P: Problem>(
    rt: &(impl Abort + AllocGlobal),
    engine: &mut SlotEngine<P, MemDisk>,
    turns: usize,
) -> Images<P::F> {
    let mut images = Images {
        list: Vec::new(rt.alloc()),
    };
    begin_run(rt, &mut engine.table, &mut images);
    let mut hand = Hand::new(0);
    for turn in 0..turns {
        take_turn(rt, engine, &mut hand, &mut images, turn);
    }
    images
}

/// Makes the procedure of that name a root, if it is none.
fn root_once<P: Problem>(rt: &impl Abort, table: &mut TableHalf<P>, name: &str) {
    match root(table, name) {
        Ok(_) | Err(Refused::Already) => {}
        Err(refused) => panic!(rt; "{refused}"),
    }
}

/// Loads the program and makes both roots, as far as that is not done, and does all tasks: the items then.
fn finish_run<P: Problem>(
    rt: &(impl Abort + AllocGlobal),
    table: &mut TableHalf<P>,
) -> Vec<(Key, P::F, bool)> {
    if table.core().program().is_none() {
        given(rt, load(rt.alloc(), table, RECURSION));
    }
    root_once(rt, table, "main");
    root_once(rt, table, "rec");
    given(rt, Hand::new(0).drain(rt.alloc(), table));
    given(rt, items_of(table))
}

/// What a store had when it crashed: how many records were acknowledged, and the images behind all that were
/// sealed.
#[derive(Drop)]
struct Turned<F: EdgeFn> {
    acked: u64,
    images: Images<F>,
}

/// Asserts that a store behind a crash has all that was acknowledged and at most one record more, with the image
/// behind the last of them, and that the run goes on to these items.
fn expect_image<P: Problem>(
    rt: &(impl Abort + AllocGlobal),
    engine: &mut SlotEngine<P, MemDisk>,
    turned: &Turned<P::F>,
    last: &[(Key, P::F, bool)],
) {
    let count = engine.acked();
    assert!(rt;
        count == turned.acked || count == turned.acked.saturating_add(1),
        "{count} records"
    );
    let items = given(rt, items_of(&engine.table));
    turned.images.expect(rt, items.as_slice(), count);
    let items = finish_run(rt, &mut engine.table);
    assert!(rt; items.as_slice() == last, "behind {count} records");
}

/// What so many turns leave to be expected.
fn turned_by<P: Problem>(
    rt: &(impl Abort + AllocGlobal),
    engine: &mut SlotEngine<P, MemDisk>,
    turns: usize,
) -> Turned<P::F> {
    let images = take_turns(rt, engine, turns);
    Turned {
        acked: engine.acked(),
        images,
    }
}

/// Asserts what a crash of that kind leaves of the store.
fn expect_crash_left(
    rt: &(impl Abort + AllocGlobal),
    engine: Engine,
    leave: Leave,
    turned: &Turned<ConstFn>,
    last: &[(Key, ConstFn, bool)],
) {
    let mut again = open_after_crash(rt, engine, leave);
    expect_image(rt, &mut again, turned, last);
}

/// Asserts it behind so many turns.
fn expect_crash(
    rt: &(impl Abort + AllocGlobal),
    turns: usize,
    leave: Leave,
    last: &[(Key, ConstFn, bool)],
) {
    let mut engine = create_roomy(rt);
    let turned = turned_by(rt, &mut engine, turns);
    expect_crash_left(rt, engine, leave, &turned, last);
}

/// Asserts it for three kinds of crash.
fn expect_crashes(rt: &(impl Abort + AllocGlobal), turns: usize, last: &[(Key, ConstFn, bool)]) {
    expect_crash(rt, turns, Leave::Old, last);
    expect_crash(rt, turns, Leave::New, last);
    expect_crash(rt, turns, Leave::Half, last);
}

/// The items at the end of a whole run.
fn last_items(rt: &(impl Abort + AllocGlobal)) -> Vec<(Key, ConstFn, bool)> {
    let mut whole = create_roomy(rt);
    finish_run(rt, &mut whole.table)
}

// Records are sealed while others are under way, and a crash comes behind each turn: what is left is the image
// behind some record, and the run goes on from it to the same end.
#[test]
fn a_crash_behind_each_turn_leaves_an_image(rt: HostRuntime) {
    let last = last_items(&rt);
    for turns in 0..40 {
        expect_crashes(&rt, turns, last.as_slice());
    }
}
