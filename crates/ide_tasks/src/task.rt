//! A claimed key with all that its parts depend on.
ghost use Rattle.std.specs.Prelude.{◌≡◌, ◌↔◌, IfOk, IsTrue};

use crate::partners::Partners;
use ide_graph::{SharedSite, Site};
use ide_lattice::EdgeFn;
use ide_problem::Problem;
use ide_wire::Key;
use std::alloc::{AllocError, Global};
use std::marker::Model;

/// A claimed key, its function when it was claimed, the site of its node, and its partners.
#[derive(Drop)]
pub struct Task<P: Problem> {
    pub key: Key,
    pub function: P::F,
    pub site: SharedSite,
    pub partners: Partners<P::F>,
}

impl<P: Problem> Model for Task<P> {
    ghost use Rattle.ide_tasks.specs.Task.{TaskData};

    ghost Value = { TaskData P.F };

    ghost view = { λ t. record { key = t.key; function = t.function; site = t.site; partners = t.partners } };
}

impl<P: Problem> Task<P> {
    /// The same task again. It copies the partners and shares the site.
    pub fn copy(&self, alloc: Global) -> Result<Task<P>, AllocError>
        ensures { IfOk result (λ t. t ≡ self.now) }
    {
        let partners = self.partners.copy(alloc)?;
        let site = self.site.share()?;
        Ok(Task {
            key: self.key,
            function: self.function,
            site,
            partners,
        })
    }

    /// Whether the tasks are the same: key, function, site and partners. It takes time in
    /// proportion to site and partners.
    pub fn is_same(&self, other: &Task<P>) -> bool
        ensures { IsTrue result ↔ (self.now ≡ other.now) }
    {
        self.key == other.key
            && self.function == other.function
            && is_same_partners(&self.partners, &other.partners)
            && is_same_site(self.site.site(), other.site.site())
    }
}

/// Whether two partners are the same.
fn is_same_partners<F: EdgeFn>(one: &Partners<F>, other: &Partners<F>) -> bool
    ensures { IsTrue result ↔ (one.now ≡ other.now) }
{
    *one == *other
}

/// Whether two sites are the same.
fn is_same_site(one: &Site, other: &Site) -> bool
    ensures { IsTrue result ↔ (one.now ≡ other.now) }
{
    *one == *other
}
