//! Scopes: what the statements of one procedure may name.
ghost use Rattle.std.specs.Prelude.{◌≡◌, ◌++◌, ◌↔◌, List, ℕ, [], take, IsTrue, IfOk, IfNone};
ghost use Rattle.std.specs.List.{list_all};
ghost use Rattle.ide_text.specs.declared.program.Statement.TheVariants.{At};
ghost use Rattle.ide_text.specs.Names.{is_among, is_label, is_procedure, takes, IsFirstRepeated, IsRepeated};
ghost use Rattle.ide_text.specs.First.{LineChecked};
ghost use Rattle.ide_text.specs.NameFault.{AreWrongCallees, variables_of, variables_used, labels_used, callees_of, arguments_passed};
ghost use Rattle.ide_text.specs.Scope.{FaultAt, variables_of_scope};

use crate::name::Name;
use crate::names::Names;
use crate::program::{Expression, Procedure, Statement};
use crate::tables::Table;
use ide_wire::Fault;
use std::alloc::{AllocError, Global};

/// The most callees of a call.
const MAX_CALLEES: usize = 8;

/// What the statements of one procedure may name.
#[derive(Drop)]
pub(crate) struct Scope<'t, 'p> {
    globals: &'t Names<'p>,
    procedures: &'t Table<'p, Procedure>,
    /// The parameters and locals that were declared so far.
    variables: Names<'p>,
    labels: Table<'p, Statement>,
}

impl<'t, 'p> Scope<'t, 'p> {
    /// The scope of a procedure with these statements, before its parameters and locals.
    pub(crate) fn new(
        alloc: Global,
        globals: &'t Names<'p>,
        procedures: &'t Table<'p, Procedure>,
        statements: &'p [Statement],
    ) -> Result<Scope<'t, 'p>, AllocError>
        ensures globals { IfOk result (λ scope. scope.globals.now ≡ globals.now) }
        ensures procedures { IfOk result (λ scope. scope.procedures.now ≡ procedures.now) }
        ensures variables { IfOk result (λ scope. scope.variables ≡ []) }
        ensures labels { IfOk result (λ scope. scope.labels ≡ statements.now) }
    {
        Ok(Scope {
            globals,
            procedures,
            variables: Names::new(alloc),
            labels: Table::of(alloc, statements)?,
        })
    }

    /// Declares parameters or locals, up to the first that is declared already; answers its place.
    pub(crate) fn declare(&mut self, names: &'p [Name]) -> Result<Option<usize>, AllocError>
        ensures first { IfOk result (IsFirstRepeated (variables_of_scope self.old) names.now) }
        ensures added { IfOk result (λ first. IfNone first (self.new.variables ≡ self.old.variables ++ names.now)) }
        ensures globals { self.new.globals.now ≡ self.old.globals.now }
        ensures procedures { self.new.procedures.now ≡ self.old.procedures.now }
        ensures labels { self.new.labels ≡ self.old.labels }
    {
        self.variables.declare(self.globals, names)
    }

    /// The statements of the procedure.
    pub(crate) fn statements(&self) -> &'p [Statement]
        ensures { result.now ≡ self.now.labels }
    {
        self.labels.list()
    }

    /// Checks the names of the statement at that place: the first of the faults of its line.
    pub(crate) fn check(&self, place: usize, statement: &Statement) -> Result<(), Fault>
        ensures { LineChecked (FaultAt self.now place statement.now) result }
    {
        if self.repeats_label(place, statement) {
            return Err(Fault::DeclaredTwice);
        }
        if !self.knows_variables(statement) {
            return Err(Fault::NoSuchVariable);
        }
        if !self.knows_labels(statement) {
            return Err(Fault::NoSuchLabel);
        }
        if !self.knows_callees(statement) {
            return Err(Fault::NoSuchProcedure);
        }
        if !self.counts_arguments(statement) {
            return Err(Fault::WrongArguments);
        }
        if lists_wrong_callees(statement) {
            return Err(Fault::WrongCallees);
        }
        Ok(())
    }

    /// Whether the statement at that place declares a label that one before it declares.
    fn repeats_label(&self, place: usize, statement: &Statement) -> bool
        ensures { IsTrue result ↔ (l : List ℕ) × (statement.now ≡ At l) × IsTrue (is_label (take place self.now.labels) l) }
    {
        match statement {
            Statement::At(label) => self.labels.has_before(label, place),
            _ => false,
        }
    }

    /// Whether each variable that the statement uses is declared.
    fn knows_variables(&self, statement: &Statement) -> bool
        ensures { result ≡ list_all (is_among (variables_of_scope self.now)) (variables_used statement.now) }
    {
        match statement {
            Statement::Assign(target, expression) => {
                self.is_variable(target) && self.knows_expression(expression)
            }
            Statement::Skip => true,
            Statement::At(_) => true,
            Statement::Goto(_) => true,
            Statement::Branch(_) => true,
            Statement::Call {
                target: None,
                arguments,
                ..
            } => self.are_variables(arguments),
            Statement::Call {
                target: Some(target),
                arguments,
                ..
            } => self.is_variable(target) && self.are_variables(arguments),
            Statement::Return(None) => true,
            Statement::Return(Some(value)) => self.is_variable(value),
        }
    }

    /// Whether each variable of the expression is declared.
    fn knows_expression(&self, expression: &Expression) -> bool
        ensures { result ≡ list_all (is_among (variables_of_scope self.now)) (variables_of expression.now) }
    {
        match expression {
            Expression::Number(_) => true,
            Expression::Copy(name) => self.is_variable(name),
            Expression::Sum(name, _) => self.is_variable(name),
            Expression::Difference(name, _) => self.is_variable(name),
            Expression::Unknown => true,
            Expression::Mix(first, second) => self.is_variable(first) && self.is_variable(second),
        }
    }

    /// Whether each of the names is a variable.
    fn are_variables(&self, names: &[Name]) -> bool
        ensures { result ≡ list_all (is_among (variables_of_scope self.now)) names.now }
    {
        for name in names {
            if !self.is_variable(name) {
                return false;
            }
        }
        true
    }

    /// Whether the name is a variable: a global, a parameter or a local.
    fn is_variable(&self, name: &Name) -> bool
        ensures { result ≡ is_among (variables_of_scope self.now) name.now }
    {
        self.globals.has(name) || self.variables.has(name)
    }

    /// Whether each label that the statement goes to is declared.
    fn knows_labels(&self, statement: &Statement) -> bool
        ensures { result ≡ list_all (is_label self.now.labels) (labels_used statement.now) }
    {
        match statement {
            Statement::Goto(label) => self.labels.has(label),
            Statement::Branch(label) => self.labels.has(label),
            _ => true,
        }
    }

    /// Whether each procedure that the statement calls is declared.
    fn knows_callees(&self, statement: &Statement) -> bool
        ensures { result ≡ list_all (is_procedure self.now.procedures.now) (callees_of statement.now) }
    {
        match statement {
            Statement::Call { callees, .. } => self.are_procedures(callees),
            _ => true,
        }
    }

    /// Whether each of the names is a procedure.
    fn are_procedures(&self, names: &[Name]) -> bool
        ensures { result ≡ list_all (is_procedure self.now.procedures.now) names.now }
    {
        for name in names {
            if self.procedures.first(name).is_none() {
                return false;
            }
        }
        true
    }

    /// Whether each procedure that the statement calls has as many parameters as are passed, where
    /// it is declared.
    fn counts_arguments(&self, statement: &Statement) -> bool
        ensures { result ≡ list_all (takes self.now.procedures.now (arguments_passed statement.now)) (callees_of statement.now) }
    {
        match statement {
            Statement::Call {
                callees,
                arguments,
                ..
            } => self.take_arguments(callees, arguments.len()),
            _ => true,
        }
    }

    /// Whether each of the names that is a procedure has so many parameters.
    fn take_arguments(&self, names: &[Name], count: usize) -> bool
        ensures { result ≡ list_all (takes self.now.procedures.now count) names.now }
    {
        for name in names {
            if !self.takes(name, count) {
                return false;
            }
        }
        true
    }

    /// Whether the procedure of the name, if there is one, has so many parameters.
    fn takes(&self, name: &Name, count: usize) -> bool
        ensures { result ≡ takes self.now.procedures.now count name.now }
    {
        match self.procedures.first(name) {
            Some(procedure) => procedure.parameters.len() == count,
            None => true,
        }
    }
}

/// Whether the statement calls more than eight procedures, or one twice.
fn lists_wrong_callees(statement: &Statement) -> bool
    ensures { IsTrue result ↔ AreWrongCallees (callees_of statement.now) }
{
    match statement {
        Statement::Call { callees, .. } => callees.len() > MAX_CALLEES || repeats_name(callees),
        _ => false,
    }
}

/// Whether one of the names stands among those before it. Only for few names: it compares each pair.
fn repeats_name(names: &[Name]) -> bool
    ensures { IsTrue result ↔ (k : ℕ) × IsRepeated [] names.now k }
{
    for (place, name) in names.iter().enumerate() {
        if has_name(&names[..place], name) {
            return true;
        }
    }
    false
}

/// Whether the name is one of these.
fn has_name(names: &[Name], name: &Name) -> bool
    ensures { result ≡ is_among names.now name.now }
{
    names
        .iter()
        .any(|other| name.as_bytes() == other.as_bytes())
}
