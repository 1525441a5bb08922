//! Each public call of what an image has at each key, at a task that is a number.
use super::cores::given;
use ide_image::{Change, KeyedImage, Tables};
use ide_instances::ConstFn;
use ide_lattice::EdgeFn;
use ide_wire::Key;
use std::process::Abort;

const FIRST: Key = Key::Jump(1, 0, 2);

const SECOND: Key = Key::Summary(1, 0, 2);

type Image = KeyedImage<ConstFn, u8>;

/// Lowers a key, and answers whether that changed it.
fn lower(rt: &impl Abort, image: &mut Image, key: Key, function: ConstFn) -> bool {
    let change = given(rt, image.lower(key, function));
    change == Change::Lowered
}

/// Lowers both keys to the identity, the second last.
fn lower_both(rt: &impl Abort, image: &mut Image) {
    assert!(rt; lower(rt, image, FIRST, ConstFn::id()));
    assert!(rt; lower(rt, image, SECOND, ConstFn::id()));
    assert!(rt; !lower(rt, image, FIRST, ConstFn::id()));
}

/// Claims the next key, which is to be this one, for a hand that has no claim, with a task.
fn take_next(rt: &impl Abort, image: &mut Image, hand: usize, task: u8, want: Key) {
    assert!(rt; image.unclaimed() == Some(want));
    assert!(rt; hand < 64 && image.claim(hand).is_none());
    given(rt, image.take(hand, want, task));
}

/// Asserts that a key is kept once, however often it is lowered.
fn expect_kept_once(rt: &impl Abort, image: &mut Image) {
    assert!(rt; image.is_quiet());
    assert!(rt; image.unclaimed().is_none());
    lower_both(rt, image);
    assert!(rt; !image.is_quiet());
    assert!(rt; image.pending_count() == 2);
    assert!(rt; image.key_count() == 2);
    assert!(rt; image.is_pending(FIRST));
    assert!(rt; !image.is_pending(Key::Jump(1, 2, 0)));
    assert!(rt; image.get(SECOND) == Some(ConstFn::id()));
}

#[test]
fn keeps_a_key_once(rt: HostRuntime) {
    let mut image = KeyedImage::new(rt.alloc());
    expect_kept_once(&rt, &mut image);
}

/// Asserts the task of a hand's claim, how many of its parts are done, and whether its key fell.
fn expect_task(rt: &impl Abort, image: &Image, hand: usize, task: u8, done: usize) {
    match image.claim(hand) {
        Some(claim) => {
            assert!(rt; claim.task == task);
            assert!(rt; claim.done == done);
            assert!(rt; !claim.lowered);
        }
        None => assert!(rt; false, "no claim"),
    }
}

/// Ends a hand's claim, and answers whether its key fell since it was claimed, if there was one.
fn finish(rt: &impl Abort, image: &mut Image, hand: usize) -> Option<bool> {
    match given(rt, image.finish(hand)) {
        Some(claim) => Some(claim.lowered),
        None => None,
    }
}

/// Asserts that a key that falls while it is claimed is kept after the claim, and that the key that
/// fell last is claimed first.
fn expect_kept_after_fall(rt: &impl Abort, image: &mut Image) {
    lower_both(rt, image);
    take_next(rt, image, 3, 7, SECOND);
    assert!(rt; image.unclaimed() == Some(FIRST));
    image.set_done(3, 2);
    expect_task(rt, image, 3, 7, 2);
    assert!(rt; lower(rt, image, SECOND, ConstFn::Bottom));
    assert!(rt; finish(rt, image, 3) == Some(true));
    assert!(rt; image.is_pending(SECOND));
    assert!(rt; finish(rt, image, 3).is_none());
}

#[test]
fn keeps_a_key_that_fell_while_claimed(rt: HostRuntime) {
    let mut image = KeyedImage::new(rt.alloc());
    expect_kept_after_fall(&rt, &mut image);
}

/// Whether a hand had a claim, which it has no more.
fn release(image: &mut Image, hand: usize) -> bool {
    image.release(hand).is_some()
}

/// Asserts that claims end, and that a key whose claim is released is claimed again.
fn expect_ends_and_releases(rt: &impl Abort, image: &mut Image) {
    lower_both(rt, image);
    take_next(rt, image, 0, 1, SECOND);
    take_next(rt, image, 63, 2, FIRST);
    assert!(rt; image.unclaimed().is_none());
    assert!(rt; finish(rt, image, 0) == Some(false));
    assert!(rt; !image.is_pending(SECOND));
    assert!(rt; image.claimed_elsewhere(0));
    assert!(rt; !image.claimed_elsewhere(63));
    assert!(rt; release(image, 63));
    assert!(rt; image.unclaimed() == Some(FIRST));
}

#[test]
fn ends_and_releases_claims(rt: HostRuntime) {
    let mut image = KeyedImage::new(rt.alloc());
    expect_ends_and_releases(&rt, &mut image);
    image.clear(rt.alloc());
    assert!(rt; image.is_quiet());
    assert!(rt; image.key_count() == 0);
}

/// Sets the second key to the identity, where no hand has claimed it.
fn set_second(rt: &impl Abort, image: &mut Image, pending: bool) {
    assert!(rt; image.unclaimed() == Some(SECOND));
    given(rt, image.set(SECOND, ConstFn::id(), pending));
}

/// Asserts that a key is pending no more where it was said so.
fn expect_set(rt: &impl Abort, image: &mut Image) {
    lower_both(rt, image);
    set_second(rt, image, false);
    assert!(rt; !image.is_pending(SECOND));
    assert!(rt; image.is_pending(FIRST));
    assert!(rt; image.key_count() == 2);
}

#[test]
fn sets_what_is_pending(rt: HostRuntime) {
    let mut image = KeyedImage::new(rt.alloc());
    expect_set(&rt, &mut image);
}

/// Asserts that the tables have both keys, each on a page of its own, and no third one.
fn expect_tables(rt: &impl Abort, image: Image) {
    let tables = image.into_tables();
    assert!(rt; tables.key_count() == 2);
    assert!(rt; tables.cell_count() == 128);
    assert!(rt; tables.entry_in(0).is_none());
    assert!(rt; tables.entry_in(1) == Some((FIRST, ConstFn::id())));
    assert!(rt; tables.entry_in(66) == Some((SECOND, ConstFn::id())));
    assert!(rt; tables.entry_in(129).is_none());
    assert!(rt; tables.get(SECOND) == Some(ConstFn::id()));
    expect_pages(rt, &tables);
}

/// Asserts of these tables that the page of the jump begins at node 0, and that of the summary with fact 0; which page is the
/// next one with jumps at some nodes; and which cells have functions.
fn expect_pages(rt: &impl Abort, tables: &Tables<ConstFn>) {
    assert!(rt; tables.first_key(0) == Some(Key::Jump(0, 0, 2)));
    assert!(rt; tables.first_key(1) == Some(Key::Summary(1, 0, 0)));
    assert!(rt; tables.first_key(2).is_none());
    // A page of summaries is passed over, and one of jumps at other nodes.
    assert!(rt; tables.next_page(0, 0, 1) == 0);
    assert!(rt; tables.next_page(1, 0, 1) == 2);
    assert!(rt; tables.next_page(0, 1, 2) == 2);
    assert!(rt; tables.function_in(0).is_none());
    assert!(rt; tables.function_in(1) == Some(ConstFn::id()));
    assert!(rt; tables.function_in(129).is_none());
}

#[test]
fn leaves_its_tables(rt: HostRuntime) {
    let mut image = KeyedImage::new(rt.alloc());
    lower_both(&rt, &mut image);
    expect_tables(&rt, image);
}

/// More functions than a number of two bytes tells apart.
const MANY: u32 = 70_000;

/// The jump that gets the constant of its node.
fn jump_at(node: u32) -> Key {
    Key::Jump(node, 0, 2)
}

/// Lowers the jump at each node to a function that no other one has.
fn lower_many(rt: &impl Abort, image: &mut Image) {
    for node in 0..MANY {
        let function = ConstFn::Const(u64::from(node));
        assert!(rt; lower(rt, image, jump_at(node), function));
    }
}

/// Asserts that each jump has its own function.
fn expect_many(rt: &impl Abort, image: &Image) {
    assert!(rt; image.key_count() == MANY as usize);
    for node in 0..MANY {
        let function = ConstFn::Const(u64::from(node));
        assert!(rt; image.get(jump_at(node)) == Some(function));
    }
}

#[test]
fn keeps_many_functions(rt: HostRuntime) {
    let mut image = KeyedImage::new(rt.alloc());
    lower_many(&rt, &mut image);
    expect_many(&rt, &image);
}
