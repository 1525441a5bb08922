//! The first pass over a program: its nodes in order, with the procedures' places and labels.
ghost use Rattle.std.specs.Prelude.{◌≡◌, ◌+◌, ◌<◌, ◌≤◌, ◌^◌, [], ◌∷◌, ◌++◌, length, vec_len, IfOk, OnOk, IsOkUnless};
ghost use Rattle.std.specs.List.{flat_map};
ghost use Rattle.ide_wire.specs.declared.refused.Refused.TheVariants.{NoMemory};
ghost use Rattle.ide_graph.specs.Found.{AreFirstOf};
ghost use Rattle.ide_graph.specs.Numbered.{BelongTo, IsNumbered};
ghost use Rattle.ide_graph.specs.Numbering.{nodes_at, nodes_in, spot_value, CountsNext, IsNumberingOf};
ghost use Rattle.ide_graph.specs.Numbers.{nodes_of, spots_of, spots_on};

use crate::layout::Layout;
use ide_text::{Places, Procedure, Statement};
use ide_wire::{Node, Refused};
use std::alloc::Global;

/// What stands at a node of the program.
#[derive(Clone, Copy)]
pub(crate) enum Place<'a> {
    Start,
    /// A statement: of a call its call node.
    Statement(&'a Statement),
    ReturnSite,
    Exit,
}

/// A node of the program: the index of its procedure, and what stands there.
#[derive(Clone, Copy)]
pub(crate) struct Spot<'a> {
    pub procedure: u32,
    pub place: Place<'a>,
}

/// The nodes of a program in order, and for each procedure its layout and its labels.
#[derive(Drop)]
pub(crate) struct Numbering<'a> {
    pub spots: Vec<Spot<'a>>,
    pub layouts: Vec<Layout>,
    pub labels: Vec<Places<'a, Node>>,
}

impl<'a> Numbering<'a> {
    /// The nodes of these procedures. Time grows with their size.
    pub fn of(alloc: Global, procedures: &'a [Procedure]) -> Result<Numbering<'a>, Refused>
        requires { length (nodes_of procedures.now) < 2 ^ 32 }
        ensures numbering { IfOk result (IsNumberingOf procedures.now) }
        ensures numbered { IfOk result IsNumbered }
        ensures whole { IfOk result (λ made. length made.layouts.items ≡ length procedures.now) }
        ensures refused { IsOkUnless result NoMemory }
    {
        let mut numbering = Numbering {
            spots: Vec::new(alloc),
            layouts: Vec::new(alloc),
            labels: Vec::new(alloc),
        };
        for procedure in procedures {
            numbering.add_procedure(alloc, procedure)?;
        }
        Ok(numbering)
    }

    /// Adds the nodes of the next procedure. A refusal may leave some of them.
    fn add_procedure(&mut self, alloc: Global, procedure: &'a Procedure) -> Result<(), Refused>
        requires numbered { IsNumbered self.old }
        requires few { length self.old.spots.items + length (spots_of procedure.now) < 2 ^ 32 }
        ensures numbering { OnOk result (CountsNext procedure.now self.old self.new) }
        ensures numbered { OnOk result (IsNumbered self.new) }
        ensures added { OnOk result (vec_len self.new.layouts ≡ vec_len self.old.layouts + 1) }
        ensures refused { IsOkUnless result NoMemory }
    {
        let index = self.layouts.len() as u32;
        let start = add_spot(&mut self.spots, index, Place::Start)?;
        let labels = add_statements(alloc, &mut self.spots, index, &procedure.statements)?;
        let exit = add_spot(&mut self.spots, index, Place::Exit)?;
        self.labels.push(labels)?;
        self.layouts
            .push(Layout::of(alloc, start, exit, procedure)?)?;
        Ok(())
    }
}

/// Adds the nodes of a procedure's statements, and answers its labels, each with the node of its first `at`.
fn add_statements<'a>(
    alloc: Global,
    spots: &mut Vec<Spot<'a>>,
    procedure: u32,
    statements: &'a [Statement],
) -> Result<Places<'a, Node>, Refused>
    requires few { length spots.old.items + length (flat_map spots_on statements.now) < 2 ^ 32 }
    requires owned { BelongTo (procedure + 1) spots.old.items }
    ensures added { OnOk result (nodes_in spots.new.items ≡ nodes_in spots.old.items ++ nodes_at procedure (flat_map spots_on statements.now)) }
    ensures labels { IfOk result (AreFirstOf statements.now (length spots.old.items)) }
    ensures few { OnOk result (length spots.new.items < 2 ^ 32) }
    ensures owned { OnOk result (BelongTo (procedure + 1) spots.new.items) }
    ensures longer { OnOk result (length spots.old.items ≤ length spots.new.items) }
    ensures refused { IsOkUnless result NoMemory }
{
    let mut labels = Places::new(alloc);
    for statement in statements {
        let node = add_spot(spots, procedure, Place::Statement(statement))?;
        match statement {
            Statement::At(label) => {
                labels.add(label, node)?;
            }
            Statement::Call { .. } => {
                add_spot(spots, procedure, Place::ReturnSite)?;
            }
            _ => {}
        }
    }
    Ok(labels)
}

/// Adds a node, and answers its number.
fn add_spot<'a>(
    spots: &mut Vec<Spot<'a>>,
    procedure: u32,
    place: Place<'a>,
) -> Result<Node, Refused>
    requires few { length spots.old.items + 1 < 2 ^ 32 }
    requires owned { BelongTo (procedure + 1) spots.old.items }
    ensures number { IfOk result (λ node. node ≡ length spots.old.items) }
    ensures added { OnOk result (nodes_in spots.new.items ≡ nodes_in spots.old.items ++ (procedure, spot_value place.entry) ∷ []) }
    ensures longer { OnOk result (length spots.new.items ≡ length spots.old.items + 1) }
    ensures few { OnOk result (length spots.new.items < 2 ^ 32) }
    ensures owned { OnOk result (BelongTo (procedure + 1) spots.new.items) }
    ensures refused { IsOkUnless result NoMemory }
{
    let node = spots.len() as Node;
    spots.push(Spot { procedure, place })?;
    Ok(node)
}
