//! Programs: globals, procedures and their statements, as a text spells them.
ghost use Rattle.std.specs.Prelude.{◌≡◌, ◌≤◌, length};
ghost use Rattle.ide_text.specs.declared.line.Line.TheVariants as line;
ghost use Rattle.ide_text.specs.FirstFault.{nodes_on};
ghost use Rattle.ide_text.specs.Lines.{IsWithinLimits};
ghost use Rattle.ide_text.specs.LimitsProp.{IsWithinLimits-prop};
ghost use Rattle.ide_text.specs.NameFault.{IsWellNamed};
ghost use Rattle.ide_text.specs.Text.{draft_text};

use crate::name::Name;

/// A program: a list of globals and a list of procedures, in the order of the text.
///
/// Names stand in it as the text has them. Each name is declared once, each use has its
/// declaration, and the limits hold, that of the bytes of its text too.
#[derive(Drop)]
pub struct Program {
    draft: Draft,
    pub ghost named: { IsWellNamed draft },
    pub ghost limits: { IsWithinLimits draft } by { IsWithinLimits-prop draft },
    pub ghost short: { length (draft_text draft) ≤ 1048576 },
}

/// What is to be a program once its names are checked: the globals and the procedures, in the
/// order of the text.
#[derive(Drop)]
pub(crate) struct Draft {
    pub globals: Vec<Name>,
    pub procedures: Vec<Procedure>,
}

/// A procedure: its name, its parameters, its locals and its statements, each in the text's order.
#[derive(Drop)]
pub struct Procedure {
    pub name: Name,
    pub parameters: Vec<Name>,
    pub locals: Vec<Name>,
    pub statements: Vec<Statement>,
}

/// A statement: one line between the locals of a procedure and its `end`.
#[derive(Drop)]
pub enum Statement {
    /// `x = ..`
    Assign(Name, Expression),
    /// `skip`
    Skip,
    /// `at L`
    At(Name),
    /// `goto L`
    Goto(Name),
    /// `branch L`
    Branch(Name),
    /// `call p a b`, or with a target `x = call p a b`. It has one to eight callees, each named once
    /// and parted by `|`: `call p | q a b` calls either of them.
    Call {
        target: Option<Name>,
        callees: Vec<Name>,
        arguments: Vec<Name>,
    },
    /// `return`, or `return y`
    Return(Option<Name>),
}

/// What an assignment but a call gives its variable.
#[derive(Drop)]
pub enum Expression {
    /// `5`
    Number(u64),
    /// `y`
    Copy(Name),
    /// `y + 5`, modulo 2^64
    Sum(Name, u64),
    /// `y - 5`, modulo 2^64
    Difference(Name, u64),
    /// `?`, an unknown input
    Unknown,
    /// `mix y z`, an unknown function of both
    Mix(Name, Name),
}

impl Program {
    ghost use Rattle.ide_text.specs.Program.{globals_of, procedures_of};

    /// The program of this draft.
    pub(crate) fn of(draft: Draft) -> Program
        requires named { IsWellNamed draft }
        requires limits { IsWithinLimits draft }
        requires short { length (draft_text draft) ≤ 1048576 }
        ensures { result.draft ≡ draft }
    {
        Program { draft }
    }

    /// The globals, in the order of their declarations.
    pub fn globals(&self) -> &[Name]
        ensures { result.now ≡ globals_of self.now }
    {
        self.draft.globals()
    }

    /// The procedures, in the order of the text.
    pub fn procedures(&self) -> &[Procedure]
        ensures { result.now ≡ procedures_of self.now }
    {
        self.draft.procedures()
    }
}

impl Draft {
    ghost use Rattle.ide_text.specs.Draft.{draft_globals, draft_procedures};

    /// The globals, in the order of their declarations.
    pub fn globals(&self) -> &[Name]
        ensures { result.now ≡ draft_globals self.now }
    {
        self.globals.as_slice()
    }

    /// The procedures, in the order of the text.
    pub fn procedures(&self) -> &[Procedure]
        ensures { result.now ≡ draft_procedures self.now }
    {
        self.procedures.as_slice()
    }
}

impl Statement {
    /// How many nodes the statement has: a call two, any other one.
    pub(crate) fn nodes(&self) -> usize
        ensures few { result ≤ 2 }
        ensures counted { result ≡ nodes_on (line.Statement self.now) }
    {
        match self {
            Statement::Call { .. } => 2,
            _ => 1,
        }
    }
}
