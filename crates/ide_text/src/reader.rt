//! The reader: takes lines in order, and keeps the place of each and the limits.
ghost use Rattle.std.specs.Prelude.{◌≡◌, ◌+◌, ◌≤◌, ◌↔◌, ◌∷◌, [], IsTrue, OnOk, IfOk, IfErr, vec_len};
ghost use Rattle.ide_text.specs.declared.reader.TheConstants.{MAX_FACTS, MAX_NODES};
ghost use Rattle.ide_text.specs.FirstFault.{KeepsOut, MayEnd, MayFollow};
ghost use Rattle.ide_text.specs.Flaw.{IfFaulty};

use crate::flaw::Flaw;
use crate::line::Line;
use crate::name::Name;
use crate::program::{Draft, Procedure, Statement};
use ide_wire::Fault;
use std::alloc::Global;

/// The most procedures of a program.
const MAX_PROCEDURES: usize = 1_000;

/// The most parameters of a procedure.
const MAX_PARAMETERS: usize = 16;

/// The most nodes of a program.
const MAX_NODES: usize = 65_536;

/// The most facts of a program.
const MAX_FACTS: usize = 4_096;

/// The lines of a program that were taken so far, each within the limits and in its place.
#[derive(Drop)]
pub(crate) struct Reader {
    alloc: Global,
    globals: Vec<Name>,
    /// The procedures whose `end` was taken.
    procedures: Vec<Procedure>,
    /// The procedure whose `end` is still to come.
    open: Option<Procedure>,
    nodes: usize,
    /// The greatest count of parameters and locals of a procedure so far.
    most_variables: usize,
    ghost nodes_fit: { nodes ≤ MAX_NODES },
    ghost facts_fit: { 2 + vec_len globals + most_variables ≤ MAX_FACTS },
}

impl Reader {
    ghost use Rattle.ide_text.specs.Lines.{draft_lines};
    ghost use Rattle.ide_text.specs.Reader.{IsCounted, taken_lines};

    /// The reader at the head of a text.
    pub(crate) fn new(alloc: Global) -> Reader
        ensures taken { taken_lines result ≡ [] }
        ensures counted { IsCounted result }
    {
        Reader {
            alloc,
            globals: Vec::new(alloc),
            procedures: Vec::new(alloc),
            open: None,
            nodes: 0,
            most_variables: 0,
        }
    }

    /// Takes the next line. After a flaw the reader is of no more use.
    pub(crate) fn take(&mut self, line: Line) -> Result<(), Flaw>
        requires { IsCounted self.old }
        ensures taken { OnOk result (taken_lines self.new ≡ line ∷ taken_lines self.old) }
        ensures counted { OnOk result (IsCounted self.new) }
        ensures place { OnOk result (MayFollow (taken_lines self.old) line) }
        ensures fault { IfErr result (λ flaw. IfFaulty flaw (KeepsOut (taken_lines self.old) line)) }
    {
        match line {
            Line::Global(name) => self.take_global(name),
            Line::Procedure { name, parameters } => self.take_procedure(name, parameters),
            Line::Local(name) => self.take_local(name),
            Line::Statement(statement) => self.take_statement(statement),
            Line::End => self.take_end(),
        }
    }

    /// The draft of all the lines, where a text may end after them.
    pub(crate) fn finish(self) -> Result<Draft, Fault>
        ensures lines { IfOk result (λ draft. draft_lines draft ≡ taken_lines self) }
        ensures place { OnOk result (MayEnd (taken_lines self)) }
        ensures fault { IfErr result (λ fault. (fault ≡ Fault.OutOfPlace) × ¬ (MayEnd (taken_lines self))) }
    {
        if self.open.is_some() || self.procedures.is_empty() {
            return Err(Fault::OutOfPlace);
        }
        Ok(Draft {
            globals: self.globals,
            procedures: self.procedures,
        })
    }

    /// Takes a `global` line, which stands before the first procedure.
    fn take_global(&mut self, name: Name) -> Result<(), Flaw>
        requires { IsCounted self.old }
        ensures taken { OnOk result (taken_lines self.new ≡ (Line.Global name) ∷ taken_lines self.old) }
        ensures counted { OnOk result (IsCounted self.new) }
        ensures place { OnOk result (MayFollow (taken_lines self.old) (Line.Global name)) }
        ensures fault { IfErr result (λ flaw. IfFaulty flaw (KeepsOut (taken_lines self.old) (Line.Global name))) }
    {
        if self.open.is_some() || !self.procedures.is_empty() {
            return Err(Flaw::Faulty(Fault::OutOfPlace));
        }
        if !facts_fit(self.globals.len() + 1, self.most_variables) {
            return Err(Flaw::Faulty(Fault::TooMany));
        }
        self.globals.push(name)?;
        Ok(())
    }

    /// Takes a `proc` line, which stands outside every procedure.
    fn take_procedure(&mut self, name: Name, parameters: Vec<Name>) -> Result<(), Flaw>
        requires { IsCounted self.old }
        ensures taken { OnOk result (taken_lines self.new ≡ (Line.Procedure name parameters) ∷ taken_lines self.old) }
        ensures counted { OnOk result (IsCounted self.new) }
        ensures place { OnOk result (MayFollow (taken_lines self.old) (Line.Procedure name parameters)) }
        ensures fault { IfErr result (λ flaw. IfFaulty flaw (KeepsOut (taken_lines self.old) (Line.Procedure name parameters))) }
    {
        if self.open.is_some() {
            return Err(Flaw::Faulty(Fault::OutOfPlace));
        }
        let nodes = self.nodes + 2;
        let most_variables = self.most_variables.max(parameters.len());
        if self.procedures.len() >= MAX_PROCEDURES
            || parameters.len() > MAX_PARAMETERS
            || nodes > MAX_NODES
            || !facts_fit(self.globals.len(), most_variables)
        {
            return Err(Flaw::Faulty(Fault::TooMany));
        }
        self.nodes = nodes;
        self.most_variables = most_variables;
        self.open = Some(Procedure {
            name,
            parameters,
            locals: Vec::new(self.alloc),
            statements: Vec::new(self.alloc),
        });
        Ok(())
    }

    /// Takes a `var` line, which stands before the statements of a procedure.
    fn take_local(&mut self, name: Name) -> Result<(), Flaw>
        requires { IsCounted self.old }
        ensures taken { OnOk result (taken_lines self.new ≡ (Line.Local name) ∷ taken_lines self.old) }
        ensures counted { OnOk result (IsCounted self.new) }
        ensures place { OnOk result (MayFollow (taken_lines self.old) (Line.Local name)) }
        ensures fault { IfErr result (λ flaw. IfFaulty flaw (KeepsOut (taken_lines self.old) (Line.Local name))) }
    {
        let Some(mut procedure) = self.open.take() else {
            return Err(Flaw::Faulty(Fault::OutOfPlace));
        };
        if !procedure.statements.is_empty() {
            return Err(Flaw::Faulty(Fault::OutOfPlace));
        }
        let variables = procedure.parameters.len() + procedure.locals.len() + 1;
        let most_variables = self.most_variables.max(variables);
        if !facts_fit(self.globals.len(), most_variables) {
            return Err(Flaw::Faulty(Fault::TooMany));
        }
        procedure.locals.push(name)?;
        self.most_variables = most_variables;
        self.open = Some(procedure);
        Ok(())
    }

    /// Takes the line of a statement, which stands in a procedure.
    fn take_statement(&mut self, statement: Statement) -> Result<(), Flaw>
        requires { IsCounted self.old }
        ensures taken { OnOk result (taken_lines self.new ≡ (Line.Statement statement) ∷ taken_lines self.old) }
        ensures counted { OnOk result (IsCounted self.new) }
        ensures place { OnOk result (MayFollow (taken_lines self.old) (Line.Statement statement)) }
        ensures fault { IfErr result (λ flaw. IfFaulty flaw (KeepsOut (taken_lines self.old) (Line.Statement statement))) }
    {
        let Some(mut procedure) = self.open.take() else {
            return Err(Flaw::Faulty(Fault::OutOfPlace));
        };
        let nodes = self.nodes + statement.nodes();
        if nodes > MAX_NODES {
            return Err(Flaw::Faulty(Fault::TooMany));
        }
        procedure.statements.push(statement)?;
        self.nodes = nodes;
        self.open = Some(procedure);
        Ok(())
    }

    /// Takes an `end` line, which stands in a procedure.
    fn take_end(&mut self) -> Result<(), Flaw>
        requires { IsCounted self.old }
        ensures taken { OnOk result (taken_lines self.new ≡ Line.End ∷ taken_lines self.old) }
        ensures counted { OnOk result (IsCounted self.new) }
        ensures place { OnOk result (MayFollow (taken_lines self.old) Line.End) }
        ensures fault { IfErr result (λ flaw. IfFaulty flaw (KeepsOut (taken_lines self.old) Line.End)) }
    {
        let Some(mut procedure) = self.open.take() else {
            return Err(Flaw::Faulty(Fault::OutOfPlace));
        };
        // The list grew by doubling, and grows no more.
        procedure.statements.shrink_to_fit();
        self.procedures.push(procedure)?;
        Ok(())
    }
}

/// Whether a program of so many globals, and of procedures with so many variables at most, has few
/// enough facts: theirs, the zero fact and the fact of returned values.
fn facts_fit(globals: usize, most_variables: usize) -> bool
    ensures { IsTrue result ↔ (2 + globals + most_variables ≤ MAX_FACTS) }
{
    globals <= MAX_FACTS - 2 && most_variables <= MAX_FACTS - 2 - globals
}
