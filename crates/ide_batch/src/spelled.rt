//! Edge functions as the contracts of batches see them.
use ide_lattice::EdgeFn;

/// An edge function whose coded forms stand in batches: each is. It has no calls, and contracts alone
/// speak of it.
pub trait Spelled: EdgeFn {
    ghost use Rattle.ide_batch.specs.Items.{Functions};

    ghost forms: { Functions Self };
}

impl<F: EdgeFn> Spelled for F {
    ghost use Rattle.ide_batch.specs.Items.{functions_by};

    ghost forms = { functions_by F.proper F.form F.eq F.edge.all_top };
}
