//! A run with a checkpoint that ends at each of its calls, over both disks, is opened again, and goes on.
use crate::engine::{crashed, disk, given, open};
use crate::versions::create_of;
use ide_disk::{Leave, MemDisk};
use ide_engines::{Hand, load, root, seal, seal_empty_main};
use ide_instances::Uninit;
use ide_journal::Version;
use ide_problem::Problem;
use ide_slot_store::SlotEngine;
use ide_store::TableHalf;
use ide_wire::Refused;
use ide_worked::EMPTY;
use std::alloc::{AllocGlobal, Global};
use std::process::Abort;

type Engine = SlotEngine<Uninit, MemDisk>;

/// The disk calls of the run: of three records, of the checkpoint, and of one record more.
const CALLS: usize = 26;

/// Which of them, where the first is 0, write the gates of the four records.
const RECORD_GATES: [usize; 4] = [2, 6, 10, 24];

/// Which of them writes that of the checkpoint.
const CHECKPOINT_GATE: usize = 20;

/// Where there is no disk call to make, asks for a checkpoint of the three records first, and then seals
/// one record more.
fn order<P: Problem>(alloc: Global, engine: &mut SlotEngine<P, MemDisk>) -> Result<(), Refused> {
    if engine.generation() == 0 {
        engine.checkpoint(alloc)?;
    } else if engine.table.sealed() == 3 {
        load(alloc, &mut engine.table, EMPTY)?;
    }
    Ok(())
}

/// Makes the next disk call of the run, and answers whether it was answered.
fn goes_on<P: Problem>(
    rt: &(impl Abort + AllocGlobal),
    engine: &mut SlotEngine<P, MemDisk>,
) -> bool {
    match engine.disk_step() {
        Ok(false) => {
            given(rt, order(rt.alloc(), engine));
            engine.disk_step() == Ok(true)
        }
        called => called == Ok(true),
    }
}

/// Makes so many disk calls of the run, or as many as are answered.
fn run<P: Problem>(
    rt: &(impl Abort + AllocGlobal),
    engine: &mut SlotEngine<P, MemDisk>,
    calls: usize,
) {
    given(rt, seal_empty_main(rt.alloc(), &mut engine.table));
    for _ in 0..calls {
        if !goes_on(rt, engine) {
            return;
        }
    }
}

/// How a run ends: between two calls of the disks; or in a call of a disk, where none is answered from it on,
/// or it alone fails.
#[derive(Clone, Copy, PartialEq, Eq)]
enum End {
    Between,
    Stop,
    Fault,
}

/// A run that ends: how, behind how many calls, and what the crash then leaves.
#[derive(Clone, Copy)]
struct Ended {
    end: End,
    calls: usize,
    leave: Leave,
}

/// A disk that ends the run so in the call behind so many.
fn ending(rt: &(impl Abort + AllocGlobal), end: End, calls: u64) -> MemDisk {
    let mut disk = disk(rt);
    match end {
        End::Between => {}
        End::Stop => disk.stop_at(calls.saturating_add(1)),
        End::Fault => disk.fail_at(calls.saturating_add(1)),
    }
    disk
}

/// How many calls either disk has answered after so many of the run.
fn counts_after(rt: &(impl Abort + AllocGlobal), version: Version, calls: usize) -> (u64, u64) {
    let mut engine: Engine = create_of(rt, version, disk(rt), disk(rt));
    run(rt, &mut engine, calls);
    let (a, b) = engine.into_disks();
    (a.calls(), b.calls())
}

/// Makes the disk calls of the run up to its end, and asserts how many records are acknowledged then, and
/// that the store is stopped where a call failed.
fn run_to_end<P: Problem>(
    rt: &(impl Abort + AllocGlobal),
    engine: &mut SlotEngine<P, MemDisk>,
    ended: Ended,
) {
    let between = ended.end == End::Between;
    run(rt, engine, if between { ended.calls } else { CALLS });
    assert!(rt;
        engine.acked() == (ended.calls as u64 / 4).min(3),
        "behind {}",
        ended.calls
    );
    assert!(rt;
        engine.table.is_stopped() == !between,
        "behind {}",
        ended.calls
    );
}

/// The disks of such a run in a store of that version.
fn end_run(rt: &(impl Abort + AllocGlobal), version: Version, ended: Ended) -> (MemDisk, MemDisk) {
    let (first, second) = counts_after(rt, version, ended.calls);
    let (a, b) = (ending(rt, ended.end, first), ending(rt, ended.end, second));
    let mut engine: Engine = create_of(rt, version, a, b);
    run_to_end(rt, &mut engine, ended);
    crashed(engine, ended.leave)
}

/// Whether a crash of that kind leaves a gate open that was written and not synced.
pub(crate) fn leaves_gate(leave: Leave) -> bool {
    match leave {
        Leave::New => true,
        Leave::Fill(byte) => byte != 0,
        _ => false,
    }
}

/// Whether the gate that is written by the call of that number, where the first is 0, is open behind the end:
/// where the next call, which syncs it, went well; or where the crash leaves it, and it was written, be it by a
/// call that failed.
fn is_open(ended: Ended, gate: usize) -> bool {
    if ended.calls > gate.saturating_add(1) {
        return true;
    }
    let written = if ended.end == End::Between {
        ended.calls > gate
    } else {
        ended.calls >= gate
    };
    written && leaves_gate(ended.leave)
}

/// How many records are there then.
fn records_left(ended: Ended) -> u64 {
    let mut records: u64 = 0;
    for gate in RECORD_GATES {
        records = records.saturating_add(u64::from(is_open(ended, gate)));
    }
    records
}

/// Asserts that the store has what the end leaves, and with three records the whole image.
fn expect_left<P: Problem>(rt: &impl Abort, engine: &SlotEngine<P, MemDisk>, ended: Ended) {
    assert!(rt;
        engine.acked() == records_left(ended),
        "behind {}",
        ended.calls
    );
    assert!(rt;
        engine.generation() == u32::from(is_open(ended, CHECKPOINT_GATE)),
        "behind {}",
        ended.calls
    );
    assert!(rt;
        engine.acked() != 3 || engine.table.core().is_quiet(),
        "behind {}",
        ended.calls
    );
}

/// Loads the empty main and makes it a root, as far as that is not done, does all tasks, and seals what they
/// changed.
pub(crate) fn go_on<P: Problem>(rt: &(impl Abort + AllocGlobal), table: &mut TableHalf<P>) {
    if table.core().program().is_none() {
        given(rt, load(rt.alloc(), table, EMPTY));
    }
    if table.core().roots().is_empty() {
        given(rt, root(table, "main"));
    }
    given(rt, Hand::new(0).drain(rt.alloc(), table));
    given(rt, seal(table));
}

/// Asserts that the run goes on to the same three keys, wherever it was stopped, and to the same three records;
/// behind a second load, which is record 3, there are a root and a batch more.
fn expect_goes_on<P: Problem>(
    rt: &(impl Abort + AllocGlobal),
    engine: &mut SlotEngine<P, MemDisk>,
) {
    let records = if engine.acked() > 3 { 6 } else { 3 };
    go_on(rt, &mut engine.table);
    given(rt, engine.store_all());
    assert!(rt; engine.acked() == records);
    assert!(rt; engine.table.core().key_count() == 3);
    assert!(rt; engine.table.core().is_quiet());
}

/// Asserts that the disks hold what the end leaves, and that the run goes on from it.
fn expect_found(rt: &(impl Abort + AllocGlobal), disks: (MemDisk, MemDisk), ended: Ended) {
    let (a, b) = disks;
    let mut engine: Engine = open(rt, a, b);
    expect_left(rt, &engine, ended);
    expect_goes_on(rt, &mut engine);
}

/// Asserts what each end of that kind leaves, with that kind of crash.
fn expect_ends(rt: &(impl Abort + AllocGlobal), version: Version, end: End, leave: Leave) {
    for calls in 0..CALLS {
        let ended = Ended { end, calls, leave };
        expect_found(rt, end_run(rt, version, ended), ended);
    }
}

/// The kinds of crash.
const LEAVES: [Leave; 5] = [
    Leave::Old,
    Leave::New,
    Leave::Half,
    Leave::Fill(0),
    Leave::Fill(0x37),
];

/// Asserts what each end of that kind leaves, with each kind of crash.
fn expect_all_ends(rt: &(impl Abort + AllocGlobal), version: Version, end: End) {
    for leave in LEAVES {
        expect_ends(rt, version, end, leave);
    }
}

#[test]
fn each_end_leaves_stored_records(rt: HostRuntime) {
    for end in [End::Between, End::Stop, End::Fault] {
        expect_all_ends(&rt, Version::Two, end);
    }
}

// The checkpoint of a store of the first version is of the second: what a call that fails leaves is the same.
#[test]
fn failed_calls_leave_stored_records_of_the_first_version(rt: HostRuntime) {
    for end in [End::Stop, End::Fault] {
        expect_all_ends(&rt, Version::One, end);
    }
}

/// Opens disks of which either stops in the call behind so many more, and crashes them. The opening
/// answers, or is refused for the disk that stopped.
fn open_and_stop(
    rt: &impl AllocGlobal,
    disks: (MemDisk, MemDisk),
    more: u64,
    leave: Leave,
) -> (MemDisk, MemDisk) {
    let (mut a, mut b) = disks;
    a.stop_at(a.calls().saturating_add(more));
    b.stop_at(b.calls().saturating_add(more));
    let opened: Result<Engine, (Refused, MemDisk, MemDisk)> = SlotEngine::open(rt.alloc(), a, b);
    match opened {
        Ok(engine) => crashed(engine, leave),
        Err((_, mut a, mut b)) => {
            a.crash(leave);
            b.crash(leave);
            (a, b)
        }
    }
}

/// Asserts that an opening that stops in any of its calls leaves what the end leaves.
fn expect_openings(rt: &(impl Abort + AllocGlobal), ended: Ended) {
    for more in 1..8 {
        let disks = end_run(rt, Version::Two, ended);
        let disks = open_and_stop(rt, disks, more, Leave::Fill(9));
        expect_found(rt, disks, ended);
    }
}

// An opening that stops leaves what one that does not finds.
#[test]
fn openings_that_stop_leave_stored_records(rt: HostRuntime) {
    for calls in 0..CALLS {
        let ended = Ended {
            end: End::Stop,
            calls,
            leave: Leave::Half,
        };
        expect_openings(&rt, ended);
    }
}
