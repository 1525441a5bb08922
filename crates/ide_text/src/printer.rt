//! The printer: the one text of a program.
ghost use Rattle.std.specs.Prelude.{◌≡◌, ◌++◌, OnOk, OnErr, decimal, IsOkUnless};
ghost use Rattle.ide_text.specs.Text.{Extends, bars_text, call_text, callees_text, names_text, expression_text, statement_text, locals_text, statements_text, procedure_text, globals_text};
ghost use Rattle.ide_text.specs.Program.{text_of};

use crate::name::Name;
use crate::program::{Expression, Procedure, Program, Statement};
use ide_wire::Refused;
use itoa::Buffer;
use std::alloc::AllocError;

/// Appends the text of a program.
///
/// After a refusal, [`Refused::NoMemory`] alone, the vector has what it had. The time grows with
/// the length of the text.
pub fn print(program: &Program, out: &mut Vec<u8>) -> Result<(), Refused>
    ensures text { OnOk result (out.new.items ≡ out.old.items ++ text_of program.now) }
    ensures unchanged { OnErr result (out.new.items ≡ out.old.items) }
    ensures no_memory { IsOkUnless result Refused.NoMemory }
{
    let length = out.len();
    if append_program(program, out).is_err() {
        out.truncate(length);
        return Err(Refused::NoMemory);
    }
    Ok(())
}

/// Appends the lines of a program.
fn append_program(program: &Program, out: &mut Vec<u8>) -> Result<(), AllocError>
    ensures text { OnOk result (out.new.items ≡ out.old.items ++ text_of program.now) }
    ensures extends { OnErr result (Extends out.old.items out.new.items) }
{
    append_globals(program.globals(), out)?;
    for procedure in program.procedures() {
        append_procedure(procedure, out)?;
    }
    Ok(())
}

/// Appends the lines of the globals.
fn append_globals(globals: &[Name], out: &mut Vec<u8>) -> Result<(), AllocError>
    ensures text { OnOk result (out.new.items ≡ out.old.items ++ globals_text globals.now) }
    ensures extends { OnErr result (Extends out.old.items out.new.items) }
{
    for name in globals {
        append(b"global ", name.as_bytes(), b"\n", out)?;
    }
    Ok(())
}

/// Appends the lines of a procedure.
fn append_procedure(procedure: &Procedure, out: &mut Vec<u8>) -> Result<(), AllocError>
    ensures text { OnOk result (out.new.items ≡ out.old.items ++ procedure_text procedure.now) }
    ensures extends { OnErr result (Extends out.old.items out.new.items) }
{
    append(b"proc ", procedure.name.as_bytes(), b"", out)?;
    append_names(&procedure.parameters, out)?;
    out.extend_from_slice(b"\n")?;
    append_locals(&procedure.locals, out)?;
    append_statements(&procedure.statements, out)?;
    out.extend_from_slice(b"end\n")
}

/// Appends the lines of the locals.
fn append_locals(locals: &[Name], out: &mut Vec<u8>) -> Result<(), AllocError>
    ensures text { OnOk result (out.new.items ≡ out.old.items ++ locals_text locals.now) }
    ensures extends { OnErr result (Extends out.old.items out.new.items) }
{
    for name in locals {
        append(b"var ", name.as_bytes(), b"\n", out)?;
    }
    Ok(())
}

/// Appends the lines of the statements.
fn append_statements(statements: &[Statement], out: &mut Vec<u8>) -> Result<(), AllocError>
    ensures text { OnOk result (out.new.items ≡ out.old.items ++ statements_text statements.now) }
    ensures extends { OnErr result (Extends out.old.items out.new.items) }
{
    for statement in statements {
        append_statement(statement, out)?;
        out.extend_from_slice(b"\n")?;
    }
    Ok(())
}

/// Appends a statement, without the LF of its line.
fn append_statement(statement: &Statement, out: &mut Vec<u8>) -> Result<(), AllocError>
    ensures text { OnOk result (out.new.items ≡ out.old.items ++ statement_text statement.now) }
    ensures extends { OnErr result (Extends out.old.items out.new.items) }
{
    match statement {
        Statement::Assign(target, expression) => {
            append(b"", target.as_bytes(), b" = ", out)?;
            append_expression(expression, out)
        }
        Statement::Skip => out.extend_from_slice(b"skip"),
        Statement::At(label) => append(b"at ", label.as_bytes(), b"", out),
        Statement::Goto(label) => append(b"goto ", label.as_bytes(), b"", out),
        Statement::Branch(label) => append(b"branch ", label.as_bytes(), b"", out),
        Statement::Call {
            target,
            callees,
            arguments,
        } => append_call(target, callees, arguments, out),
        Statement::Return(None) => out.extend_from_slice(b"return"),
        Statement::Return(Some(value)) => append(b"return ", value.as_bytes(), b"", out),
    }
}

/// Appends a call.
fn append_call(
    target: &Option<Name>,
    callees: &[Name],
    arguments: &[Name],
    out: &mut Vec<u8>,
) -> Result<(), AllocError>
    ensures text { OnOk result (out.new.items ≡ out.old.items ++ call_text target.now callees.now arguments.now) }
    ensures extends { OnErr result (Extends out.old.items out.new.items) }
{
    if let Some(target) = target {
        append(b"", target.as_bytes(), b" = ", out)?;
    }
    out.extend_from_slice(b"call")?;
    append_callees(callees, out)?;
    append_names(arguments, out)
}

/// Appends the callees of a call, parted by `|`.
fn append_callees(callees: &[Name], out: &mut Vec<u8>) -> Result<(), AllocError>
    ensures text { OnOk result (out.new.items ≡ out.old.items ++ callees_text callees.now) }
    ensures extends { OnErr result (Extends out.old.items out.new.items) }
{
    let Some((first, others)) = callees.split_first() else {
        return Ok(());
    };
    append(b" ", first.as_bytes(), b"", out)?;
    append_bars(others, out)
}

/// Appends callees behind the first, each after a `|`.
fn append_bars(callees: &[Name], out: &mut Vec<u8>) -> Result<(), AllocError>
    ensures text { OnOk result (out.new.items ≡ out.old.items ++ bars_text callees.now) }
    ensures extends { OnErr result (Extends out.old.items out.new.items) }
{
    for name in callees {
        append(b" | ", name.as_bytes(), b"", out)?;
    }
    Ok(())
}

/// Appends what an assignment gives.
fn append_expression(expression: &Expression, out: &mut Vec<u8>) -> Result<(), AllocError>
    ensures text { OnOk result (out.new.items ≡ out.old.items ++ expression_text expression.now) }
    ensures extends { OnErr result (Extends out.old.items out.new.items) }
{
    match expression {
        Expression::Number(number) => append_number(*number, out),
        Expression::Copy(name) => out.extend_from_slice(name.as_bytes()),
        Expression::Sum(name, number) => {
            append(b"", name.as_bytes(), b" + ", out)?;
            append_number(*number, out)
        }
        Expression::Difference(name, number) => {
            append(b"", name.as_bytes(), b" - ", out)?;
            append_number(*number, out)
        }
        Expression::Unknown => out.extend_from_slice(b"?"),
        Expression::Mix(first, second) => {
            append(b"mix ", first.as_bytes(), b" ", out)?;
            out.extend_from_slice(second.as_bytes())
        }
    }
}

/// Appends the names, each after a space.
fn append_names(names: &[Name], out: &mut Vec<u8>) -> Result<(), AllocError>
    ensures text { OnOk result (out.new.items ≡ out.old.items ++ names_text names.now) }
    ensures extends { OnErr result (Extends out.old.items out.new.items) }
{
    for name in names {
        append(b" ", name.as_bytes(), b"", out)?;
    }
    Ok(())
}

/// Appends a number in decimal.
fn append_number(number: u64, out: &mut Vec<u8>) -> Result<(), AllocError>
    ensures text { OnOk result (out.new.items ≡ out.old.items ++ decimal number) }
    ensures extends { OnErr result (Extends out.old.items out.new.items) }
{
    let mut buffer = Buffer::new();
    out.extend_from_slice(buffer.format(number).as_bytes())
}

/// Appends three runs of bytes.
fn append(first: &[u8], second: &[u8], third: &[u8], out: &mut Vec<u8>) -> Result<(), AllocError>
    ensures text { OnOk result (out.new.items ≡ out.old.items ++ first.now ++ second.now ++ third.now) }
    ensures extends { OnErr result (Extends out.old.items out.new.items) }
{
    out.extend_from_slice(first)?;
    out.extend_from_slice(second)?;
    out.extend_from_slice(third)
}
