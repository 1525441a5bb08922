//! Notes, and what has the entries of their keys as they stand.
//!
//! What is left of them is told in `ordered`, by clauses that name this struct: a file that declares one
//! with a ghost field may not have such.
ghost use Rattle.ide_image.specs.ChangeLog.{is_noted_in};
ghost use Rattle.ide_image.specs.Indexed.{place_of_key};
ghost use Rattle.ide_image.specs.Ranks.{AreAmong, AreSlots};

use crate::changes::Changes;
use crate::indexed::Indexed;
use crate::noted_marks::NotedMarks;
use crate::queue::Queue;
use ide_lattice::EdgeFn;

/// Notes, each with the slot of its key, the marks of slots whose keys are noted, and what has the entries of these keys
/// as they stand.
#[derive(Drop)]
pub(crate) struct NotedSlots<'a, F: EdgeFn> {
    pub(crate) indexed: &'a Indexed<F>,
    pub(crate) queue: &'a Queue,
    pub(crate) notes: &'a Changes<F>,
    pub(crate) slots: &'a [u32],
    pub(crate) marks: NotedMarks<'a>,
    ghost stand: { AreSlots (place_of_key indexed.now) notes.now.items slots.now },
    ghost marked: { AreAmong (is_noted_in marks) slots.now },
}
