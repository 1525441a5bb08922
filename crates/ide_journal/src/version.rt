//! The versions of a store.
ghost use Rattle.std.specs.Prelude.{◌≡◌};

/// How a store spells its batches, as the first page of it says.
#[derive(Clone, Copy, PartialEq, Eq, Debug)]
pub enum Version {
    One,
    Two,
}

impl Version {
    ghost use Rattle.ide_journal.specs.Format.{letters};

    /// The letters that a store of this version begins with.
    pub fn letters(self) -> [u8; 8]
        ensures { result ≡ letters self }
    {
        match self {
            Version::One => *b"IDEJRNL1",
            Version::Two => *b"IDEJRNL2",
        }
    }
}
