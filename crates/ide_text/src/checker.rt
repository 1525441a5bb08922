//! The check: that each name of a draft is declared once, and each use has its declaration.
//!
//! The lines of a draft are walked in the order of its text, so that the first fault that is
//! found stands on the least line.
ghost use Rattle.std.specs.Prelude.{◌≡◌, ◌+◌, ◌<◌, ◌^◌, ℕ, [], vec_len, length, IfErr, IfOk, OnOk};
ghost use Rattle.ide_text.specs.First.{Checked, TellsFirst};
ghost use Rattle.ide_text.specs.NameFault.{NameFault, ProcedureFault, StatementsFault};
ghost use Rattle.ide_text.specs.Names.{IsRepeated};
ghost use Rattle.ide_text.specs.Draft.{draft_globals, draft_procedures, draft_line_count, lines_of_procedure};
ghost use Rattle.ide_text.specs.Refusal.{IsTextRefusal};
ghost use Rattle.ide_text.specs.Scope.{variables_of_scope};

use crate::names::Names;
use crate::program::{Draft, Procedure};
use crate::scope::Scope;
use crate::tables::Table;
use ide_wire::{Fault, Refused};
use std::alloc::Global;

/// Checks the names of a draft. Refused is the first of the faults F5 to F10 that stands on the
/// least line.
pub(crate) fn check(alloc: Global, draft: &Draft) -> Result<(), Refused>
    requires { draft_line_count draft.now + 1 < 2 ^ 32 }
    ensures names { Checked (NameFault draft.now) result }
    ensures lines { IfErr result (IsTextRefusal 1 (draft_line_count draft.now)) }
{
    // before the globals no name is taken
    let none = Names::new(alloc);
    let mut globals = Names::new(alloc);
    check_lines(alloc, &none, &mut globals, draft)
}

/// Checks the names of a draft, whose globals are to be declared beside those, both none.
fn check_lines<'p>(
    alloc: Global,
    none: &Names<'_>,
    globals: &mut Names<'p>,
    draft: &'p Draft,
) -> Result<(), Refused>
    requires taken { none.now ≡ [] }
    requires declared { globals.old ≡ [] }
    requires few { draft_line_count draft.now + 1 < 2 ^ 32 }
    ensures { Checked (NameFault draft.now) result }
{
    if let Some(place) = globals.declare(none, draft.globals())? {
        return Err(Refused::Text {
            line: place as u32 + 1,
            fault: Fault::DeclaredTwice,
        });
    }
    let procedures = Table::of(alloc, draft.procedures())?;
    check_procedures(alloc, globals, &procedures, draft)
}

/// Checks the names of a draft, whose globals and procedures those are, beside the globals.
fn check_procedures(
    alloc: Global,
    globals: &Names<'_>,
    procedures: &Table<'_, Procedure>,
    draft: &Draft,
) -> Result<(), Refused>
    requires globals { globals.now ≡ draft_globals draft.now }
    requires procedures { procedures.now ≡ draft_procedures draft.now }
    requires distinct { (k : ℕ) → ¬ IsRepeated [] (draft_globals draft.now) k }
    requires few { draft_line_count draft.now + 1 < 2 ^ 32 }
    ensures { Checked (NameFault draft.now) result }
{
    let mut line = draft.globals().len() as u32 + 1;
    for (place, procedure) in draft.procedures().iter().enumerate() {
        if procedures.has_before(&procedure.name, place) {
            return Err(Refused::Text {
                line,
                fault: Fault::DeclaredTwice,
            });
        }
        check_procedure(alloc, globals, procedures, procedure, line)?;
        line += 2 + procedure.locals.len() as u32 + procedure.statements.len() as u32;
    }
    Ok(())
}

/// Checks the names of a procedure but its own. Its `proc` line has that number.
fn check_procedure(
    alloc: Global,
    globals: &Names<'_>,
    procedures: &Table<'_, Procedure>,
    procedure: &Procedure,
    line: u32,
) -> Result<(), Refused>
    requires { line + lines_of_procedure procedure.now < 2 ^ 32 }
    ensures { Checked (ProcedureFault globals.now procedures.now procedure.now line) result }
{
    let mut scope = Scope::new(alloc, globals, procedures, &procedure.statements)?;
    check_in_scope(&mut scope, procedure, line)
}

/// Checks the names of a procedure but its own, in the scope of its statements.
fn check_in_scope<'p>(
    scope: &mut Scope<'_, 'p>,
    procedure: &'p Procedure,
    line: u32,
) -> Result<(), Refused>
    requires none { scope.old.variables ≡ [] }
    requires labels { scope.old.labels ≡ procedure.now.statements.items }
    requires few { line + lines_of_procedure procedure.now < 2 ^ 32 }
    ensures { Checked (ProcedureFault scope.old.globals.now scope.old.procedures.now procedure.now line) result }
{
    if scope.declare(&procedure.parameters)?.is_some() {
        return Err(Refused::Text {
            line,
            fault: Fault::DeclaredTwice,
        });
    }
    if let Some(place) = scope.declare(&procedure.locals)? {
        return Err(Refused::Text {
            line: line + 1 + place as u32,
            fault: Fault::DeclaredTwice,
        });
    }
    check_statements(scope, line + 1 + procedure.locals.len() as u32)
}

/// Checks the statements of a procedure, the first of them on that line.
fn check_statements(scope: &Scope<'_, '_>, line: u32) -> Result<(), Refused>
    requires { line + length scope.now.labels < 2 ^ 32 }
    ensures { Checked (StatementsFault (variables_of_scope scope.now) scope.now.procedures.now scope.now.labels line) result }
{
    for (place, statement) in scope.statements().iter().enumerate() {
        if let Err(fault) = scope.check(place, statement) {
            return Err(Refused::Text {
                line: line + place as u32,
                fault,
            });
        }
    }
    Ok(())
}
