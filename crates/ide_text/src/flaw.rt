//! What keeps a line from being taken.
ghost use Rattle.std.specs.Prelude.{◌≡◌};
ghost use Rattle.ide_text.specs.declared.flaw.Flaw.TheVariants.{NoMemory, Faulty};
ghost use Rattle.ide_text.specs.Refusal.{IsTextRefusal, refusal_on};

use ide_wire::{Fault, Refused};
use std::alloc::{AllocError, AllocFailed};

/// What keeps a line from being taken, before its number is known.
#[derive(Clone, Copy)]
pub(crate) enum Flaw {
    /// An allocation was refused.
    NoMemory,
    /// The line has that fault.
    Faulty(Fault),
}

impl Flaw {
    /// The refusal of the text for this flaw on that line.
    pub(crate) fn on_line(self, line: u32) -> Refused
        ensures range { IsTextRefusal line line result }
        ensures exact { result ≡ refusal_on line self }
    {
        match self {
            Flaw::NoMemory => Refused::NoMemory,
            Flaw::Faulty(fault) => Refused::Text { line, fault },
        }
    }
}

impl From<Fault> for Flaw {
    ghost from_gives = { λ fault e. e ≡ Faulty fault };

    fn from(fault: Fault) -> Flaw {
        Flaw::Faulty(fault)
    }
}

impl From<AllocError> for Flaw {
    ghost from_gives = { λ _ e. e ≡ NoMemory };

    fn from(_error: AllocError) -> Flaw {
        Flaw::NoMemory
    }
}

impl<T: Drop> From<AllocFailed<T>> for Flaw {
    ghost from_gives = { λ _ e. e ≡ NoMemory };

    fn from(_error: AllocFailed<T>) -> Flaw {
        Flaw::NoMemory
    }
}
