//! The calls of a disk in memory, as it records them.
ghost use Rattle.std.specs.Prelude.{◌≡◌};

/// A recorded call.
#[derive(Clone, Copy)]
pub(crate) enum Call {
    /// Nothing was changed.
    Look,
    /// So many bytes were written at this place.
    Write(usize, usize),
    /// The bytes from this length on were dropped.
    Shorten(usize),
    /// All changes were made lasting.
    Sync,
}

impl Call {
    ghost use Rattle.ide_disk.specs.Record.{taken, end_of};
    ghost use Rattle.ide_disk.specs.Leaving.{is_sync};

    /// How many of the recorded bytes are the call's.
    pub(crate) fn taken(self) -> usize
        ensures { result ≡ taken self }
    {
        match self {
            Call::Write(_, count) => count,
            Call::Look | Call::Shorten(_) | Call::Sync => 0,
        }
    }

    pub(crate) fn is_sync(self) -> bool
        ensures { result ≡ is_sync self }
    {
        matches!(self, Call::Sync)
    }
}
