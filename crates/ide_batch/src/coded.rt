//! Things that bodies list: their forms follow each other with nothing between.
ghost use Rattle.std.specs.Prelude.{◌≡◌, ℕ, ◌<◌, ◌^◌, ◌++◌, ◌≤◌, Bool, List, length, IsTrue, IfOk, IfSome, IfNone, OnOk};
ghost use Rattle.std.specs.List.{flat_map};
ghost use Rattle.ide_batch.specs.Forms.{all_proper};
ghost use Rattle.ide_wire.specs.Form.{NoFormInFront, IsPrefixFree};

use ide_wire::Wire;
use std::alloc::{AllocError, Global};

/// What can be read from the front of bytes, and written.
pub(crate) trait Coded: Copy {
    ghost proper: { Self → Bool };

    ghost form: { Self → List ℕ };

    /// What stands in front of the bytes, and the bytes after it.
    fn front(bytes: &[u8]) -> Option<(Self, &[u8])>
        ensures proper { IfSome result (λ front. IsTrue (proper front.0)) }
        ensures found { IfSome result (λ front. bytes.now ≡ form front.0 ++ front.1.now) }
        ensures none { IfNone result (NoFormInFront proper form bytes.now) };

    /// Appends the form. At a refusal the vector may have a part of it.
    fn put(&self, out: &mut Vec<u8>) -> Result<(), AllocError>
        ensures ok { OnOk result (out.new.items ≡ out.old.items ++ form self.now) }
        ensures kept { length out.old.items ≤ length out.new.items };

    ghost prefix_free: { IsPrefixFree proper form };
}

/// The value in front of the bytes, and the bytes after it.
pub(crate) fn front_of<T: Wire>(bytes: &[u8]) -> Option<(T, &[u8])>
    ensures proper { IfSome result (λ front. IsTrue (T.proper front.0)) }
    ensures found { IfSome result (λ front. bytes.now ≡ T.form front.0 ++ front.1.now) }
    ensures none { IfNone result (NoFormInFront T.proper T.form bytes.now) }
{
    let (value, count) = T::take(bytes)?;
    Some((value, &bytes[count..]))
}
