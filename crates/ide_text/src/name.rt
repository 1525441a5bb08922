//! Names of globals, procedures, variables and labels.
ghost use Rattle.std.specs.Prelude.{◌≡◌, ◌≤◌, length};

use std::marker::Model;

/// A name: 1 to 31 bytes, kept in place, so that a program's names take no allocation of their
/// own. Their count is a byte too, so that a name takes 32 bytes and no padding. Contracts see it
/// as the list of its bytes.
#[derive(Drop)]
pub struct Name {
    bytes: [u8; Name::MAX],
    length: u8,
}

impl Model for Name {
    ghost use Rattle.std.specs.Prelude.{List, ℕ, take, ◌≤◌};

    ghost Value = { List ℕ };

    ghost view = { λ n. take n.length n.bytes };

    ghost invariant = { λ n. n.length ≤ 31 };
}

impl Name {
    /// The most bytes that a name has.
    pub const MAX: usize = 31;

    /// The name of these bytes.
    pub fn of(bytes: &[u8]) -> Name
        requires { length bytes.now ≤ 31 }
        ensures { result ≡ bytes.now }
    {
        let mut kept = [0; Name::MAX];
        kept[..bytes.len()].copy_from_slice(bytes);
        Name {
            bytes: kept,
            length: bytes.len() as u8,
        }
    }

    /// The bytes of the name.
    pub fn as_bytes(&self) -> &[u8]
        ensures value { result.now ≡ self.now }
        ensures short { length result.now ≤ 31 }
    {
        &self.bytes[..usize::from(self.length)]
    }

    /// The same name again. It takes no memory.
    pub fn copy(&self) -> Name
        ensures { result ≡ self.now }
    {
        Name {
            bytes: self.bytes,
            length: self.length,
        }
    }
}
