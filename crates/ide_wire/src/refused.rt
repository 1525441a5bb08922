//! The refusals of the solver's calls, and the faults of a program text.
//!
//! A refusal is printed as users see it, `E7 line 3 fault F5`; its number never changes.
ghost use Rattle.std.specs.Prelude.{◌≡◌};
ghost use Rattle.ide_wire.specs.declared.refused.Refused.TheVariants.{NoMemory};

use std::alloc::{AllocError, AllocFailed};
use std::fmt;
use thiserror::Error;

/// What is wrong with a line of a program text.
#[derive(Clone, Copy, PartialEq, Eq, PartialOrd, Ord, Debug)]
pub enum Fault {
    /// F1: the text has more than 1,048,576 bytes.
    TextTooLong,
    /// F2: the line is none of the grammar's.
    NoSuchLine,
    /// F3: a line of that kind may not stand there, or the text ends too soon.
    OutOfPlace,
    /// F4: with this line there are too many procedures, parameters, nodes or facts.
    TooMany,
    /// F5: a name is declared twice.
    DeclaredTwice,
    /// F6: a variable is not declared.
    NoSuchVariable,
    /// F7: a label is not declared in the procedure.
    NoSuchLabel,
    /// F8: a procedure is not declared.
    NoSuchProcedure,
    /// F9: the count of arguments is not that of the parameters.
    WrongArguments,
    /// F10: a call has more than eight callees, or names one twice.
    WrongCallees,
}

impl fmt::Display for Fault {
    fn fmt<W: fmt::Write>(&self, f: &mut fmt::Formatter<W>) -> fmt::Result {
        let name = match *self {
            Fault::TextTooLong => "F1",
            Fault::NoSuchLine => "F2",
            Fault::OutOfPlace => "F3",
            Fault::TooMany => "F4",
            Fault::DeclaredTwice => "F5",
            Fault::NoSuchVariable => "F6",
            Fault::NoSuchLabel => "F7",
            Fault::NoSuchProcedure => "F8",
            Fault::WrongArguments => "F9",
            Fault::WrongCallees => "F10",
        };
        write!(f, "{name}")
    }
}

/// Why a call was refused. Each is answered only where its cause holds.
#[derive(Clone, Copy, PartialEq, Eq, Debug, Error)]
pub enum Refused {
    /// An allocation was refused in the call.
    #[error("E1 no memory")]
    NoMemory,
    /// The device's count of failures rose in the call.
    #[error("E2 disk")]
    Disk,
    /// An earlier call of this engine answered [`Refused::Disk`].
    #[error("E3 failed")]
    Failed,
    /// The file is too short for a store, or begins with no header of one.
    #[error("E4 not a store")]
    NotAStore,
    /// The store was made for another analysis.
    #[error("E5 wrong instance")]
    WrongInstance,
    /// The record of that number is open and not whole, or does not apply.
    #[error("E6 damaged record {0}")]
    Damaged(u64),
    /// The program text has that fault on that line.
    #[error("E7 line {line} fault {fault}")]
    Text { line: u32, fault: Fault },
    /// No program was loaded.
    #[error("E8 no program")]
    NoProgram,
    /// No procedure has that name.
    #[error("E9 no procedure")]
    NoProcedure,
    /// A root may have no parameters.
    #[error("E10 has parameters")]
    HasParameters,
    /// The procedure is a root already.
    #[error("E11 already")]
    Already,
    /// Some key is pending.
    #[error("E12 unfinished")]
    Unfinished,
    /// The work is not the hand's claim as it stands.
    #[error("E13 stale")]
    Stale,
    /// The hand has a claim.
    #[error("E14 busy")]
    Busy,
    /// A hand, a count of workers or a count of records is past its limit.
    #[error("E15 limit")]
    Limit,
    /// The node, position or fact is not there.
    #[error("E16 out of range")]
    OutOfRange,
}

impl From<AllocError> for Refused {
    ghost from_gives = { λ _ e. e ≡ NoMemory };

    fn from(_error: AllocError) -> Refused {
        Refused::NoMemory
    }
}

impl<T: Drop> From<AllocFailed<T>> for Refused {
    ghost from_gives = { λ _ e. e ≡ NoMemory };

    fn from(_error: AllocFailed<T>) -> Refused {
        Refused::NoMemory
    }
}
