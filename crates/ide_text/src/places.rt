//! The places of names, each found in constant time.
ghost use Rattle.std.specs.Prelude.{◌≡◌, ◌++◌, ◌∷◌, [], OnErr, OnOk};
ghost use Rattle.ide_text.specs.Places.{place_of, with_place};

use crate::name::Name;
use indexmap::IndexMap;
use std::alloc::{AllocError, Global};
use std::marker::Model;

/// Names with their places, of what kind ever: an index in a list, say, or a node. Each name has the
/// first place that it was given, and is found in constant time. Contracts see the list of the names'
/// bytes with the places, in the order in which they came.
#[derive(Drop)]
pub struct Places<'p, P: Copy> {
    firsts: IndexMap<&'p [u8], P>,
}

impl<'p, P: Copy> Model for Places<'p, P> {
    ghost use Rattle.std.specs.Prelude.{List, ℕ, map};

    ghost Value = { List (List ℕ × P) };

    ghost view = { λ p. map (λ e. (e.0.now, e.1)) p.firsts.entries };
}

impl<'p, P: Copy> Places<'p, P> {
    /// No places.
    pub fn new(alloc: Global) -> Places<'p, P>
        ensures { result ≡ [] }
    {
        Places {
            firsts: IndexMap::new(alloc),
        }
    }

    /// The first place of the name.
    pub fn find(&self, name: &Name) -> Option<P>
        ensures { result ≡ place_of self.now name.now }
    {
        self.firsts.get(name.as_bytes()).copied()
    }

    /// Gives the name that place, unless it has one. A refusal changes nothing.
    pub fn add(&mut self, name: &'p Name, place: P) -> Result<(), AllocError>
        ensures added { OnOk result (self.new ≡ with_place self.old name.now place) }
        ensures unchanged { OnErr result (self.new ≡ self.old) }
    {
        let name = name.as_bytes();
        if !self.firsts.contains_key(name) {
            self.firsts.insert(name, place)?;
        }
        Ok(())
    }
}
