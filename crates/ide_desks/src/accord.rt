//! What the two desks of a service agree on.
use std::marker::Brand;

/// What the two desks of a service agree on: the board of both seats; the board on which they note that a checkpoint
/// began; what has to be told for what they keep besides; and, where that is told, which records the board began with,
/// and in which version records were sealed then. Each call of a program picks them: what is told may be that the
/// engine is on a run (`MayBeTold` of `specs/Opened`, with its `records_told` and `version_told`), so that all is said
/// of each engine that is on one; or nothing, which is `⊥`.
pub trait Accord {
    ghost use Rattle.std.specs.Prelude.{List};
    ghost use Rattle.atomic_table.specs.Seated.{TableId};
    ghost use Rattle.ide_journal.specs.declared.version.Version.{Version};
    ghost use Rattle.ide_store.specs.Versioned.{VersionedEntry};

    ghost board: { TableId };

    ghost switches: { TableId };

    ghost told: { Type 0 };

    ghost first: { told → List VersionedEntry };

    ghost version: { told → Version };
}

impl Accord for Brand {
    ghost use Rattle.std.specs.Prelude.{[]};
    ghost use Rattle.ide_board.specs.Records.{no_board};

    ghost board = { no_board };

    ghost switches = { no_board };

    ghost told = { ⊥ };

    ghost first = { λ _. [] };

    ghost version = { λ no. absurd no };
}
