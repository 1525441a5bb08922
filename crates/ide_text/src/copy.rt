//! Copies of programs.
ghost use Rattle.std.specs.Prelude.{◌≡◌, map, IfOk, IsOkUnless};

use crate::name::Name;
use crate::program::{Draft, Expression, Procedure, Program, Statement};
use ide_wire::Refused;
use std::alloc::{AllocError, Global};

impl Program {
    ghost use Rattle.ide_text.specs.Program.{value_of};

    /// The same program again, or [`Refused::NoMemory`].
    pub fn copy(&self, alloc: Global) -> Result<Program, Refused>
        ensures value { IfOk result (λ copy. value_of copy ≡ value_of self.now) }
        ensures no_memory { IsOkUnless result Refused.NoMemory }
    {
        let globals = copy_names(alloc, self.globals())?;
        let procedures = copy_each(alloc, self.procedures())?;
        Ok(Program::of(Draft {
            globals,
            procedures,
        }))
    }
}

/// What is copied with all that it owns. Contracts compare values, in which no room of vectors stands.
trait Copied: Sized {
    ghost Value: { Type 0 };

    ghost value: { Self → Value };

    /// A copy.
    fn copied(&self, alloc: Global) -> Result<Self, AllocError>
        ensures { IfOk result (λ copy. value copy ≡ value self.now) };
}

/// Copies of these.
fn copy_each<T: Copied + Drop>(alloc: Global, items: &[T]) -> Result<Vec<T>, AllocError>
    ensures { IfOk result (λ copies. map T.value copies.items ≡ map T.value items.now) }
{
    let mut copies = Vec::with_capacity(alloc, items.len())?;
    for item in items {
        copies.push(item.copied(alloc)?)?;
    }
    Ok(copies)
}

impl Copied for Procedure {
    ghost use Rattle.ide_text.specs.Value.{ProcedureValue, value_of_procedure};

    ghost Value = { ProcedureValue };

    ghost value = { value_of_procedure };

    fn copied(&self, alloc: Global) -> Result<Procedure, AllocError> {
        Ok(Procedure {
            name: self.name.copy(),
            parameters: copy_names(alloc, &self.parameters)?,
            locals: copy_names(alloc, &self.locals)?,
            statements: copy_each(alloc, &self.statements)?,
        })
    }
}

impl Copied for Statement {
    ghost use Rattle.ide_text.specs.Value.{StatementValue, value_of_statement};

    ghost Value = { StatementValue };

    ghost value = { value_of_statement };

    fn copied(&self, alloc: Global) -> Result<Statement, AllocError> {
        match self {
            Statement::Assign(target, expression) => Ok(Statement::Assign(
                target.copy(),
                copy_expression(expression),
            )),
            Statement::Skip => Ok(Statement::Skip),
            Statement::At(label) => Ok(Statement::At(label.copy())),
            Statement::Goto(label) => Ok(Statement::Goto(label.copy())),
            Statement::Branch(label) => Ok(Statement::Branch(label.copy())),
            Statement::Call {
                target,
                callees,
                arguments,
            } => Ok(Statement::Call {
                target: copy_option(target),
                callees: copy_names(alloc, callees)?,
                arguments: copy_names(alloc, arguments)?,
            }),
            Statement::Return(value) => Ok(Statement::Return(copy_option(value))),
        }
    }
}

/// A copy of this expression.
fn copy_expression(expression: &Expression) -> Expression
    ensures { result ≡ expression.now }
{
    match expression {
        Expression::Number(number) => Expression::Number(*number),
        Expression::Copy(name) => Expression::Copy(name.copy()),
        Expression::Sum(name, number) => Expression::Sum(name.copy(), *number),
        Expression::Difference(name, number) => Expression::Difference(name.copy(), *number),
        Expression::Unknown => Expression::Unknown,
        Expression::Mix(first, second) => Expression::Mix(first.copy(), second.copy()),
    }
}

/// A copy of this name, where there is one.
fn copy_option(name: &Option<Name>) -> Option<Name>
    ensures { result ≡ name.now }
{
    match name {
        Some(name) => Some(name.copy()),
        None => None,
    }
}

/// Copies of these names.
fn copy_names(alloc: Global, names: &[Name]) -> Result<Vec<Name>, AllocError>
    ensures { IfOk result (λ copies. copies.items ≡ names.now) }
{
    let mut copies = Vec::with_capacity(alloc, names.len())?;
    for name in names {
        copies.push(name.copy())?;
    }
    Ok(copies)
}
