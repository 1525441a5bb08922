//! Programs that are kept as their texts.
ghost use Rattle.std.specs.Prelude.{◌≡◌, IfOk, IsOkUnless};
ghost use Rattle.ide_steps.specs.SaidOnce.{SaysOnce-prop};
ghost use Rattle.ide_steps.specs.Said.{SaysOnce};
ghost use Rattle.ide_text.specs.Program.{text_of, value_of};
ghost use Rattle.ide_wire.specs.declared.refused.Refused.TheVariants.{NoMemory};

use ide_text::{Program, parse, parsing_and_printing_undo_each_other};
use ide_wire::Refused;
use std::alloc::Global;

/// A program that is kept as its text, by who has no use of its statements: these take about ten
/// times as much memory. Contracts see what the program says.
#[derive(Drop)]
pub struct ProgramText {
    text: Vec<u8>,
    ghost spelled: { SaysOnce text.items } by { SaysOnce-prop text.items },
}

impl ProgramText {
    ghost use Rattle.ide_steps.specs.ProgramText.{said_by};

    /// The text of this program.
    pub(crate) fn of(text: Vec<u8>, _program: &Program) -> ProgramText
        requires { text_of _program.now ≡ text.items }
        ensures { said_by result ≡ value_of _program.now }
    {
        ProgramText { text }
    }

    /// The program again, by a parse of its text.
    ///
    /// Refusal: `NoMemory`.
    pub fn program(&self, alloc: Global) -> Result<Program, Refused>
        ensures says { IfOk result (λ program. value_of program ≡ said_by self.now) }
        ensures refused { IsOkUnless result NoMemory }
    {
        parsing_and_printing_undo_each_other();
        parse(alloc, self.text.as_slice())
    }
}
