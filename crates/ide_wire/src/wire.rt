//! Coded forms: values as bytes that tell where they end.
ghost use Rattle.std.specs.Prelude.{◌≡◌, ◌++◌, ◌≤◌, ◌^◌, ℕ, Bool, List, [], ◌∷◌, length, IsTrue, OnOk, OnErr, IfSome, IfNone, nat_lt};
ghost use Rattle.std.specs.Int.{w16, w32, w64, to_le_bytes};
ghost use Rattle.std.proofs.Common.{lit≤};
ghost use Rattle.ide_wire.specs.Form.{StandsInFront, NoFormInFront, IsPrefixFree};

use byteorder::{ByteOrder, LittleEndian};
use std::alloc::AllocError;

/// Values with a coded form: 1 to `MAX` bytes, of which none begins another, so that forms may
/// follow each other with nothing between.
pub trait Wire: Sized {
    /// The most bytes of a form.
    const MAX: usize;

    ghost MAX: { ℕ };

    ghost proper: { Self → Bool };

    ghost form: { Self → List ℕ };

    /// Appends the form. At a refusal the vector is as it was.
    fn put(&self, out: &mut Vec<u8>) -> Result<(), AllocError>
        ensures ok { OnOk result (out.new.items ≡ out.old.items ++ form self.now) }
        ensures err { OnErr result (out.new.items ≡ out.old.items) };

    /// The value whose form stands in front of the bytes, and the length of the form; `None` only
    /// where no form stands there.
    fn take(bytes: &[u8]) -> Option<(Self, usize)>
        ensures proper { IfSome result (λ taken. IsTrue (proper taken.0)) }
        ensures found { IfSome result (λ taken. StandsInFront (form taken.0) bytes.now taken.1) }
        ensures none { IfNone result (NoFormInFront proper form bytes.now) };

    ghost not_empty: { (x : Self) → 1 ≤ length (form x) };

    ghost at_most_max: { (x : Self) → length (form x) ≤ MAX };

    ghost prefix_free: { IsPrefixFree proper form };
}

impl Wire for u8 {
    ghost use Rattle.ide_wire.specs.Numbers.{fits, one_prefix_free};

    const MAX: usize = 1;

    ghost MAX = { 1 };

    ghost proper = { fits 8 };

    ghost form = { λ n. n ∷ [] };

    fn put(&self, out: &mut Vec<u8>) -> Result<(), AllocError> {
        out.push(*self)?;
        Ok(())
    }

    fn take(bytes: &[u8]) -> Option<(u8, usize)> {
        match bytes {
            [a, ..] => Some((*a, 1)),
            _ => None,
        }
    }

    ghost not_empty = { λ x. lit≤ tt };

    ghost at_most_max = { λ x. lit≤ tt };

    ghost prefix_free = { one_prefix_free };
}

impl Wire for u16 {
    ghost use Rattle.ide_wire.specs.Numbers.{fits, two_prefix_free};

    const MAX: usize = 2;

    ghost MAX = { 2 };

    ghost proper = { fits 16 };

    ghost form = { to_le_bytes w16 };

    fn put(&self, out: &mut Vec<u8>) -> Result<(), AllocError> {
        let mut form = [0; 2];
        LittleEndian::write_u16(&mut form, *self);
        out.extend_from_slice(&form)
    }

    fn take(bytes: &[u8]) -> Option<(u16, usize)> {
        if bytes.len() < 2 {
            return None;
        }
        Some((LittleEndian::read_u16(bytes), 2))
    }

    ghost not_empty = { λ x. lit≤ tt };

    ghost at_most_max = { λ x. lit≤ tt };

    ghost prefix_free = { two_prefix_free };
}

impl Wire for u32 {
    ghost use Rattle.ide_wire.specs.Numbers.{fits, four_prefix_free};

    const MAX: usize = 4;

    ghost MAX = { 4 };

    ghost proper = { fits 32 };

    ghost form = { to_le_bytes w32 };

    fn put(&self, out: &mut Vec<u8>) -> Result<(), AllocError> {
        let mut form = [0; 4];
        LittleEndian::write_u32(&mut form, *self);
        out.extend_from_slice(&form)
    }

    fn take(bytes: &[u8]) -> Option<(u32, usize)> {
        if bytes.len() < 4 {
            return None;
        }
        Some((LittleEndian::read_u32(bytes), 4))
    }

    ghost not_empty = { λ x. lit≤ tt };

    ghost at_most_max = { λ x. lit≤ tt };

    ghost prefix_free = { four_prefix_free };
}

impl Wire for u64 {
    ghost use Rattle.ide_wire.specs.Numbers.{fits, eight_prefix_free};

    const MAX: usize = 8;

    ghost MAX = { 8 };

    ghost proper = { fits 64 };

    ghost form = { to_le_bytes w64 };

    fn put(&self, out: &mut Vec<u8>) -> Result<(), AllocError> {
        let mut form = [0; 8];
        LittleEndian::write_u64(&mut form, *self);
        out.extend_from_slice(&form)
    }

    fn take(bytes: &[u8]) -> Option<(u64, usize)> {
        if bytes.len() < 8 {
            return None;
        }
        Some((LittleEndian::read_u64(bytes), 8))
    }

    ghost not_empty = { λ x. lit≤ tt };

    ghost at_most_max = { λ x. lit≤ tt };

    ghost prefix_free = { eight_prefix_free };
}
