//! Members of a group: the two facts of an item, its function, and whether it is pending.
ghost use Rattle.std.specs.Prelude.{◌≡◌, ◌++◌, ◌≤◌, length, OnOk};
ghost use Rattle.std.specs.Int.{w16, to_le_bytes};
ghost use Rattle.ide_batch.specs.Items.{functions_by};

use crate::coded::{Coded, front_of};
use ide_lattice::EdgeFn;
use ide_wire::{Fact, Wire};
use std::alloc::AllocError;

impl<F: EdgeFn> Coded for (Fact, Fact, F, bool) {
    ghost use Rattle.ide_batch.specs.FormLaws.{member_free};
    ghost use Rattle.ide_batch.specs.Groups.{is_proper_member, member_form};

    ghost proper = { is_proper_member (functions_by F.proper F.form F.eq F.edge.all_top) };

    ghost form = { member_form (functions_by F.proper F.form F.eq F.edge.all_top) };

    fn front(bytes: &[u8]) -> Option<((Fact, Fact, F, bool), &[u8])> {
        let (first, behind) = front_of::<Fact>(bytes)?;
        let (second, rest) = front_of::<Fact>(behind)?;
        let Some(((function, pending), rest)) = <(F, bool)>::front(rest) else {
            return None;
        };
        Some(((first, second, function, pending), rest))
    }

    #[inline(always)]
    fn put(&self, out: &mut Vec<u8>) -> Result<(), AllocError> {
        let (first, second, function, pending) = *self;
        put_facts(first, second, out)?;
        (function, pending).put(out)
    }

    ghost prefix_free = { member_free (functions_by F.proper F.form F.eq F.edge.all_top) F.prefix_free };
}

/// Appends the forms of two facts, in one go.
#[inline(always)]
fn put_facts(first: Fact, second: Fact, out: &mut Vec<u8>) -> Result<(), AllocError>
    ensures ok { OnOk result (out.new.items ≡ out.old.items ++ (to_le_bytes w16 first ++ to_le_bytes w16 second)) }
    ensures kept { length out.old.items ≤ length out.new.items }
{
    let [a, b] = first.to_le_bytes();
    let [c, d] = second.to_le_bytes();
    out.extend_from_slice(&[a, b, c, d])
}
