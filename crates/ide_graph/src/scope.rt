//! The names that a procedure's statements speak of.
ghost use Rattle.std.specs.Prelude.{◌≡◌, ◌∷◌};
ghost use Rattle.std.specs.Option.{option_to_list};
ghost use Rattle.ide_text.specs.NameFault.{variables_of};
ghost use Rattle.ide_graph.specs.Building.{AllHaveFacts};
ghost use Rattle.ide_graph.specs.Exact.{ForFact, ForLabel, ForScope};
ghost use Rattle.ide_graph.specs.Numbers.{result_of};
ghost use Rattle.ide_graph.specs.ProgramEdges.{Assigns, IsTargetFact, entering};
ghost use Rattle.ide_graph.specs.declared.edge.Effect.TheVariants.{Copy};

use crate::edge::Effect;
use crate::globals::Globals;
use crate::layout::Layout;
use ide_text::{Expression, Name, Places};
use ide_wire::{Fact, Node};

/// A procedure whose statements are read: what its names stand for.
///
/// A parsed program declares each name that it uses, so that none falls back.
#[derive(Clone, Copy)]
pub(crate) struct Scope<'a, 'p> {
    pub globals: &'a Globals,
    pub layout: &'a Layout,
    pub labels: &'a Places<'p, Node>,
}

impl<'a, 'p> Scope<'a, 'p> {
    /// The fact of a variable: fact 0 where none is declared.
    pub fn fact(self, name: &Name) -> Fact
        ensures { ForFact self.entry name.now (λ p fact. result ≡ fact) }
    {
        self.globals
            .fact_named(&self.layout.own, name.as_bytes())
            .unwrap_or(0)
    }

    /// The node of a label: the exit where none is declared.
    pub fn label(self, name: &Name) -> Node
        ensures { ForLabel self.entry name.now (λ node. result ≡ node) }
    {
        self.labels.find(name).unwrap_or(self.layout.exit)
    }

    /// The fact that a call assigns, where it has a target.
    pub fn assigned(self, target: &Option<Name>) -> Option<Fact>
        ensures { ForScope self.entry (λ p q. AllHaveFacts p q (option_to_list target.now) → IsTargetFact p q target.now result) }
    {
        let name = target.as_ref()?;
        Some(self.fact(name))
    }

    /// What entering the procedure does.
    pub fn enter(self) -> Effect
        ensures { ForScope self.entry (λ p q. result ≡ entering p q) }
    {
        Effect::Enter {
            first: self.globals.own_fact(self.layout.parameter_count),
            end: self.globals.own_fact(self.layout.own.len()),
        }
    }

    /// What an assignment does.
    pub fn assign(self, target: &Name, expression: &Expression) -> Effect
        ensures { ForScope self.entry (λ p q. AllHaveFacts p q (target.now ∷ variables_of expression.now) → Assigns p q target.now expression.now result) }
    {
        let target = self.fact(target);
        match expression {
            Expression::Number(number) => Effect::Number {
                target,
                number: *number,
            },
            Expression::Copy(source) => Effect::Copy {
                target,
                source: self.fact(source),
            },
            Expression::Sum(source, number) => Effect::Sum {
                target,
                source: self.fact(source),
                number: *number,
            },
            Expression::Difference(source, number) => Effect::Difference {
                target,
                source: self.fact(source),
                number: *number,
            },
            Expression::Unknown => Effect::Unknown { target },
            Expression::Mix(first, second) => Effect::Mix {
                target,
                first: self.fact(first),
                second: self.fact(second),
            },
        }
    }

    /// What returning a variable's value does.
    pub fn give_back(self, value: &Name) -> Effect
        ensures { ForFact self.entry value.now (λ p source. result ≡ Copy (result_of p) source) }
    {
        Effect::Copy {
            target: self.globals.result_fact(),
            source: self.fact(value),
        }
    }
}
