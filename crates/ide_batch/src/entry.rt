//! What a key has: its function, and whether it is pending.
ghost use Rattle.ide_batch.specs.Items.{functions_by};

use crate::coded::{Coded, front_of};
use ide_lattice::EdgeFn;
use ide_wire::{Key, Wire};
use std::alloc::AllocError;

/// No key has the always-top function.
impl<F: EdgeFn> Coded for (F, bool) {
    ghost use Rattle.ide_batch.specs.FormLaws.{entry_free};
    ghost use Rattle.ide_batch.specs.Items.{entry_form, is_proper_entry};

    ghost proper = { is_proper_entry (functions_by F.proper F.form F.eq F.edge.all_top) };

    ghost form = { entry_form (functions_by F.proper F.form F.eq F.edge.all_top) };

    fn front(bytes: &[u8]) -> Option<((F, bool), &[u8])> {
        let (function, rest) = front_of::<F>(bytes)?;
        let Some((&mark, rest)) = rest.split_first() else {
            return None;
        };
        if function == F::all_top() {
            return None;
        }
        match mark {
            0 => Some(((function, false), rest)),
            1 => Some(((function, true), rest)),
            _ => None,
        }
    }

    #[inline(always)]
    fn put(&self, out: &mut Vec<u8>) -> Result<(), AllocError> {
        let (function, pending) = *self;
        function.put(out)?;
        out.push(u8::from(pending))?;
        Ok(())
    }

    ghost prefix_free = { entry_free (functions_by F.proper F.form F.eq F.edge.all_top) F.prefix_free };
}

/// An item of a batch.
impl<F: EdgeFn> Coded for (Key, F, bool) {
    ghost use Rattle.ide_batch.specs.FormLaws.{item_free};
    ghost use Rattle.ide_batch.specs.Items.{is_proper_item, item_form};

    ghost proper = { is_proper_item (functions_by F.proper F.form F.eq F.edge.all_top) };

    ghost form = { item_form (functions_by F.proper F.form F.eq F.edge.all_top) };

    fn front(bytes: &[u8]) -> Option<((Key, F, bool), &[u8])> {
        let (key, rest) = front_of::<Key>(bytes)?;
        let Some(((function, pending), rest)) = <(F, bool)>::front(rest) else {
            return None;
        };
        Some(((key, function, pending), rest))
    }

    #[inline(always)]
    fn put(&self, out: &mut Vec<u8>) -> Result<(), AllocError> {
        let (key, function, pending) = *self;
        key.put(out)?;
        (function, pending).put(out)
    }

    ghost prefix_free = { item_free (functions_by F.proper F.form F.eq F.edge.all_top) F.prefix_free };
}
