//! Lists that are searched by name: the procedures of a program, and the statements of a procedure by
//! the labels that they declare.
ghost use Rattle.std.specs.Prelude.{◌≡◌, ℕ, Bool, List, false, IfNone, IfOk, IfSome, take};
ghost use Rattle.std.specs.List.{find, list_any};
ghost use Rattle.std.specs.Option.{option_copied};
ghost use Rattle.std.specs.Str.{bytes_eq};
ghost use Rattle.ide_text.specs.Names.{declares, is_named};

use crate::name::Name;
use crate::places::Places;
use crate::program::{Procedure, Statement};
use std::alloc::{AllocError, Global};
use std::marker::Model;

/// What may have a name.
pub(crate) trait Named {
    ghost has_name: { List ℕ → Self → Bool };

    /// The name, where it has one.
    fn name(&self) -> Option<&Name>
        ensures named { IfSome result (λ name. (x : List ℕ) → has_name x self.now ≡ bytes_eq x name.now) }
        ensures none { IfNone result ((x : List ℕ) → has_name x self.now ≡ false) };
}

impl Named for Procedure {
    ghost has_name = { is_named };

    fn name(&self) -> Option<&Name> {
        Some(&self.name)
    }
}

impl Named for Statement {
    ghost has_name = { declares };

    fn name(&self) -> Option<&Name> {
        match self {
            Statement::At(label) => Some(label),
            _ => None,
        }
    }
}

/// A list, of which each element is found by its name in constant time. Contracts see the list.
#[derive(Drop)]
pub(crate) struct Table<'p, T: Named> {
    list: &'p [T],
    places: Places<'p, usize>,
}

impl<'p, T: Named> Model for Table<'p, T> {
    ghost use Rattle.std.specs.Prelude.{List};
    ghost use Rattle.ide_text.specs.Places.{ArePlaces};

    ghost Value = { List T };

    ghost view = { λ t. t.list.now };

    ghost invariant = { λ t. ArePlaces T.has_name t.list.now t.places };
}

impl<'p, T: Named> Table<'p, T> {
    /// The table of that list.
    pub(crate) fn of(alloc: Global, list: &'p [T]) -> Result<Table<'p, T>, AllocError>
        ensures { IfOk result (λ table. table ≡ list.now) }
    {
        let mut places = Places::new(alloc);
        for (place, element) in list.iter().enumerate() {
            if let Some(name) = element.name() {
                places.add(name, place)?;
            }
        }
        Ok(Table { list, places })
    }

    /// The list.
    pub(crate) fn list(&self) -> &'p [T]
        ensures { result.now ≡ self.now }
    {
        self.list
    }

    /// The first element of that name.
    pub(crate) fn first(&self, name: &Name) -> Option<&T>
        ensures { option_copied result ≡ find (T.has_name name.now) self.now }
    {
        match self.places.find(name) {
            Some(first) => self.list.get(first),
            None => None,
        }
    }

    /// Whether an element has the name.
    pub(crate) fn has(&self, name: &Name) -> bool
        ensures { result ≡ list_any (T.has_name name.now) self.now }
    {
        self.places.find(name).is_some()
    }

    /// Whether an element before that place has the name.
    pub(crate) fn has_before(&self, name: &Name, place: usize) -> bool
        ensures { result ≡ list_any (T.has_name name.now) (take place self.now) }
    {
        match self.places.find(name) {
            Some(first) => first < place,
            None => false,
        }
    }
}
