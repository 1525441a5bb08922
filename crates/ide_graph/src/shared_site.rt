//! Sites that are carried away.
ghost use Rattle.std.specs.Prelude.{◌≡◌, ◌<◌, length, IfOk};
ghost use Rattle.std.specs.Arc.{arc_value};
ghost use Rattle.ide_graph.specs.SharedSite.{site_at};

use crate::site::Site;
use std::alloc::AllocError;
use std::marker::Model;
use std::sync::Arc;

/// What stands at a node, held with the sites of all nodes. It takes no memory, and another holder of it none either.
#[derive(Drop)]
pub struct SharedSite {
    sites: Arc<Vec<Site>>,
    node: usize,
}

impl Model for SharedSite {
    ghost use Rattle.std.specs.Arc.{arc_value};
    ghost use Rattle.std.specs.Prelude.{◌<◌, length};
    ghost use Rattle.ide_graph.specs.SharedSite.{site_at};
    ghost use Rattle.ide_graph.specs.declared.site.Site.{Site};

    ghost Value = { Site };

    ghost view = { λ s. site_at (arc_value s.sites).items s.node };

    ghost invariant = { λ s. s.node < length (arc_value s.sites).items };
}

impl SharedSite {
    /// The site of a node. It is refused where the sites have as many holders as can be counted.
    pub(crate) fn of(sites: &Arc<Vec<Site>>, node: usize) -> Result<SharedSite, AllocError>
        requires { node < length (arc_value sites.now).items }
        ensures { IfOk result (λ site. site ≡ site_at (arc_value sites.now).items node) }
    {
        let sites = Arc::try_clone(sites)?;
        Ok(SharedSite { sites, node })
    }

    /// What stands at the node.
    pub fn site(&self) -> &Site
        ensures { result.now ≡ self.now }
    {
        &self.sites[self.node]
    }

    /// The same site for another holder.
    ///
    /// It is refused where the sites have as many holders as can be counted.
    pub fn share(&self) -> Result<SharedSite, AllocError>
        ensures { IfOk result (λ site. site ≡ self.now) }
    {
        SharedSite::of(&self.sites, self.node)
    }
}
