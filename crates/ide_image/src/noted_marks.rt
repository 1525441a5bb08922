//! Which slots' keys are noted, as loops read it.
ghost use Rattle.std.specs.Prelude.{◌≡◌};
ghost use Rattle.ide_image.specs.ChangeLog.{is_noted_in};

use crate::change_log::stamp_in;

/// The marks of a log of changes. They are passed by value, so that a loop has no log to read them from.
#[derive(Clone, Copy)]
pub(crate) struct NotedMarks<'a> {
    /// For each slot the number of the list that its key was last noted in.
    pub(crate) stamps: &'a [u8],
    /// The number of the list.
    pub(crate) epoch: u8,
}

impl<'a> NotedMarks<'a> {
    /// Whether the slot's key is noted.
    #[inline(always)]
    pub(crate) fn is_noted(self, slot: usize) -> bool
        ensures { result ≡ is_noted_in self.entry slot }
    {
        stamp_in(self.stamps, slot) == self.epoch
    }
}
