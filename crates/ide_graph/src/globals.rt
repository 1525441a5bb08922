//! The numbers of facts: `@zero`, the globals, `@result`, and after them a procedure's own.
ghost use Rattle.std.specs.Prelude.{◌≡◌, ◌+◌, ◌<◌, ◌≤◌, [], min, length, slice_get, IfOk, IfSome, IsOkUnless};
ghost use Rattle.std.specs.Option.{option_copied};
ghost use Rattle.ide_graph.specs.Named.{fact_of_name, names_of_facts, shared_fact_of_name};
ghost use Rattle.ide_graph.specs.Naming.{AreNew};
ghost use Rattle.ide_wire.specs.declared.refused.Refused.TheVariants.{NoMemory};

use crate::names::Names;
use ide_text::Name;
use ide_wire::{Fact, Refused};
use std::alloc::Global;

/// The globals of a program.
///
/// Fact 0 is `@zero`, the globals are 1 and on, in order, then comes `@result`, and then the
/// parameters and locals of a procedure, its own facts.
#[derive(Drop)]
pub(crate) struct Globals {
    pub names: Names,
}

/// What the zero fact is called.
const ZERO: &[u8] = b"@zero";

/// What the fact that carries a procedure's result is called.
const RESULT: &[u8] = b"@result";

impl Globals {
    /// The globals of these names.
    pub fn of(alloc: Global, globals: &[Name]) -> Result<Globals, Refused>
        ensures named { IfOk result (λ made. AreNew [] globals.now → made.names ≡ globals.now) }
        ensures few { IfOk result (λ made. length made.names ≤ length globals.now) }
        ensures refused { IsOkUnless result NoMemory }
    {
        let mut names = Names::new(alloc);
        names.add_all(alloc, globals)?;
        Ok(Globals { names })
    }

    /// How many globals there are.
    pub fn count(&self) -> Fact
        ensures { result ≡ min (length self.now.names) 65535 }
    {
        fact_number(self.names.len())
    }

    /// The fact `@result`, which stands past the globals.
    pub fn result_fact(&self) -> Fact
        ensures { result ≡ min (length self.now.names + 1) 65535 }
    {
        self.count().saturating_add(1)
    }

    /// The fact of the parameter or local at an index of a procedure's own.
    pub fn own_fact(&self, index: usize) -> Fact
        ensures { result ≡ min (length self.now.names + 2 + index) 65535 }
    {
        fact_number(self.names.len().saturating_add(2).saturating_add(index))
    }

    /// How many facts there are, where a procedure has at most so many of its own. They are at
    /// most as many as a `Fact` counts.
    pub fn fact_count(&self, own: usize) -> usize
        ensures { result ≡ min (length self.now.names + 2 + own) 65536 }
    {
        let count = self.names.len().saturating_add(2).saturating_add(own);
        count.min(usize::from(Fact::MAX) + 1)
    }

    /// The fact of a name, where a procedure's own facts have these names.
    pub fn fact_named(&self, own: &Names, name: &[u8]) -> Option<Fact>
        ensures value { result ≡ fact_of_name self.now.names own.now name.now }
        ensures within { IfSome result (λ fact. fact < min (length self.now.names + 2 + length own.now) 65536) }
    {
        match own.index_of(name) {
            Some(index) => Some(self.own_fact(index)),
            None => self.shared_fact_named(name),
        }
    }

    /// The fact of a name that every procedure has: `@zero`, a global or `@result`.
    fn shared_fact_named(&self, name: &[u8]) -> Option<Fact>
        ensures value { result ≡ shared_fact_of_name self.now.names name.now }
        ensures shared { IfSome result (λ fact. fact ≤ min (length self.now.names + 1) 65535) }
    {
        if name == ZERO {
            Some(0)
        } else if name == RESULT {
            Some(self.result_fact())
        } else {
            let index = self.names.index_of(name)?;
            Some(fact_number(index.saturating_add(1)))
        }
    }

    /// The name of a fact, where a procedure's own facts have these names.
    pub fn name_of<'a>(&'a self, own: &'a Names, fact: Fact) -> Option<&'a [u8]>
        ensures { option_copied result ≡ slice_get (names_of_facts self.now.names own.now) fact }
    {
        let fact = usize::from(fact);
        let globals = self.names.len();
        if fact == 0 {
            Some(ZERO)
        } else if fact <= globals {
            self.names.get(fact - 1)
        } else if fact == globals + 1 {
            Some(RESULT)
        } else {
            own.get(fact - globals - 2)
        }
    }
}

/// The fact of that number. A parsed program has at most 4,096 facts, so that none is past the
/// greatest number.
fn fact_number(number: usize) -> Fact
    ensures { result ≡ min number 65535 }
{
    Fact::try_from(number).unwrap_or(Fact::MAX)
}
