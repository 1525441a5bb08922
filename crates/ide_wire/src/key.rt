//! Nodes, facts and keys.
ghost use Rattle.std.specs.Prelude.{◌≡◌};
ghost use Rattle.std.proofs.Common.{refl};
ghost use Rattle.std.specs.Ordering.{as_partial_cmp};

use crate::wire::Wire;
use std::alloc::AllocError;
use std::cmp::Ordering;

/// A node of the supergraph, numbered from 0, procedure by procedure.
pub type Node = u32;

/// A dataflow fact, numbered from 0. Fact 0 is the zero fact, printed `@zero`.
pub type Fact = u16;

/// What an entry of the tables is about: a jump function or a summary. Each jump stands before each
/// summary; then keys go by node, then by the first fact, then by the second.
#[derive(Clone, Copy, PartialEq, Eq, Hash, Debug)]
pub enum Key {
    /// `Jump(n, d1, d2)`: the function from fact `d1` at the start of `n`'s procedure to `d2` at
    /// node `n`.
    Jump(Node, Fact, Fact),
    /// `Summary(c, d, e)`: the function from fact `d` at call node `c` to `e` at its return site.
    Summary(Node, Fact, Fact),
}

impl Key {
    ghost use Rattle.ide_wire.specs.Key.{node_of};
    ghost use Rattle.ide_wire.specs.KeyNumber.{HasFacts, key_kind, key_number};

    /// The node that the key stands at: of a summary its call node.
    pub fn node(self) -> Node
        ensures { result ≡ node_of self }
    {
        match self {
            Key::Jump(node, _, _) => node,
            Key::Summary(call, _, _) => call,
        }
    }

    /// 0 of a jump, 1 of a summary.
    fn kind(self) -> u8
        ensures { result ≡ key_kind self }
    {
        match self {
            Key::Jump(_, _, _) => 0,
            Key::Summary(_, _, _) => 1,
        }
    }

    /// The node and the facts in one number, the node's bits the highest: keys of one kind compare as
    /// these do, by one comparison, where field by field takes up to three, each a branch.
    fn number(self) -> u64
        ensures number { result ≡ key_number self }
        ensures facts { HasFacts self }
    {
        let (node, first, second) = match self {
            Key::Jump(node, first, second) => (node, first, second),
            Key::Summary(call, first, second) => (call, first, second),
        };
        u64::from(node) * 0x1_0000_0000 + u64::from(first) * 0x1_0000 + u64::from(second)
    }
}

impl Ord for Key {
    ghost use Rattle.ide_wire.specs.KeyOrder.{key_cmp, key_cmp_total, key_cmp_equal};

    ghost cmp = { key_cmp };

    fn cmp(&self, other: &Key) -> Ordering {
        let numbers = self.number().cmp(&other.number());
        self.kind().cmp(&other.kind()).then(numbers)
    }

    ghost total = { key_cmp_total };

    ghost matches_partial_cmp = { λ x y. refl };

    ghost matches_eq = { key_cmp_equal };
}

impl PartialOrd for Key {
    ghost use Rattle.ide_wire.specs.KeyOrder.{key_cmp, key_cmp_partial};

    ghost partial_cmp = { as_partial_cmp key_cmp };

    fn partial_cmp(&self, other: &Key) -> Option<Ordering> {
        Some(self.cmp(other))
    }

    ghost laws = { key_cmp_partial };
}

impl Wire for Key {
    ghost use Rattle.ide_wire.specs.Key.{key_form, is_proper_key, key_not_empty, key_at_most, key_prefix_free};

    const MAX: usize = 9;

    ghost MAX = { 9 };

    ghost proper = { is_proper_key };

    ghost form = { key_form };

    fn put(&self, out: &mut Vec<u8>) -> Result<(), AllocError> {
        let (kind, node, first, second) = match *self {
            Key::Jump(node, first, second) => (0, node, first, second),
            Key::Summary(call, first, second) => (1, call, first, second),
        };
        let [a, b, c, d] = node.to_le_bytes();
        let [e, f] = first.to_le_bytes();
        let [g, h] = second.to_le_bytes();
        out.extend_from_slice(&[kind, a, b, c, d, e, f, g, h])
    }

    fn take(bytes: &[u8]) -> Option<(Key, usize)> {
        let (kind, numbers) = bytes.split_first()?;
        let (node, _) = Node::take(numbers)?;
        let (first, _) = Fact::take(&numbers[4..])?;
        let (second, _) = Fact::take(&numbers[6..])?;
        match *kind {
            0 => Some((Key::Jump(node, first, second), 9)),
            1 => Some((Key::Summary(node, first, second), 9)),
            _ => None,
        }
    }

    ghost not_empty = { key_not_empty };

    ghost at_most_max = { key_at_most };

    ghost prefix_free = { key_prefix_free };
}
