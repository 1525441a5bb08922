//! Batches, spelled item by item.
ghost use Rattle.std.specs.Prelude.{◌≡◌, ◌+◌, ◌<◌, ◌≤◌, ◌↔◌, [], Ok, false, length, true, IfErr, IfOk, IsTrue, OnOk};
ghost use Rattle.ide_batch.specs.Writing.{Holds, IsSpelledBatch, MayFollow, PutsItem, StopsAtItem, appended, ended, finished, is_in_last, with_group, with_member, written_over};

use crate::coded::Coded;
use crate::items::MOST;
use crate::place::{kind_of, member_of};
use crate::spelled::Spelled;
use ide_journal::{RawRecord, Version};
use ide_lattice::EdgeFn;
use ide_wire::{Key, Node, Refused, Wire};
use std::alloc::{AllocError, Global};
use std::marker::Model;

/// The kind that the journal notes of a batch.
const BATCH: u8 = 3;

/// What stands for the kind of the last group where none was begun: no key has it.
const NO_KIND: u8 = 2;

/// How many bytes an item takes, mostly. A body is made with room for that.
const USUAL: usize = 12;

/// The body of a batch, as its items are put. Each is looked at once, and its form appended. A
/// count stands before what it counts: so there are four bytes for it, which are written over where
/// the count is known. That of the members of a group is known when another group begins.
#[derive(Drop)]
pub(crate) struct BatchWriter {
    version: Version,
    body: Vec<u8>,
    /// How many items were put.
    items: usize,
    /// The kind and the node of the last group. An item that goes into it changes neither.
    kind: u8,
    node: Node,
    /// How many groups were begun, how many members the last one has, and where their count stands.
    groups: usize,
    members: usize,
    place: usize,
}

impl Model for BatchWriter {
    ghost use Rattle.std.specs.Prelude.{length};
    ghost use Rattle.ide_batch.specs.Writing.{HasRoom, WriterData};

    ghost Value = { WriterData };

    ghost view = { λ w. record { version = w.version; body = w.body.items; items = w.items; kind = w.kind; node = w.node; groups = w.groups; members = w.members; place = w.place } };

    ghost invariant = { λ w. HasRoom (length w.body.items) w.items w.groups w.members w.place };
}

impl BatchWriter {
    /// A batch of no item, in a store's version, with room for so many items of usual length.
    pub(crate) fn new<F: EdgeFn>(
        alloc: Global,
        version: Version,
        expected: usize,
    ) -> Result<BatchWriter, AllocError>
        ensures none { IfOk result (Holds ⟦<F as Spelled>⟧.forms version []) }
    {
        let mut body = Vec::with_capacity(alloc, 4 + expected.min(MOST) * USUAL)?;
        0u32.put(&mut body)?;
        Ok(BatchWriter {
            version,
            body,
            items: 0,
            kind: NO_KIND,
            node: 0,
            groups: 0,
            members: 0,
            place: 0,
        })
    }

    /// Puts an item behind those that were put, and says whether a batch may have it: a record spells
    /// its function, and there are 65,536 items at most. Its key has to be above theirs: that is not
    /// looked at. The version has to be the batch's: a loop that knows which has no other's code.
    ///
    /// Refusal: `NoMemory`, after which nothing is known of the batch.
    #[inline(always)]
    pub(crate) fn put<F: EdgeFn>(
        &mut self,
        version: Version,
        item: (Key, F, bool),
    ) -> Result<bool, Refused>
        ensures puts { result ≡ Ok true → PutsItem ⟦<F as Spelled>⟧.forms version item self.old self.new }
        ensures stops { result ≡ Ok false → StopsAtItem ⟦<F as Spelled>⟧.forms item self.old }
        ensures refused { IfErr result (λ e. e ≡ Refused.NoMemory) }
    {
        if !self.may_follow(item) {
            return Ok(false);
        }
        self.items += 1;
        self.append(version, item)?;
        Ok(true)
    }

    /// The batch as the journal takes it, if an item was put.
    pub(crate) fn finish<F: EdgeFn>(mut self) -> Option<RawRecord>
        ensures batch { IsSpelledBatch ⟦<F as Spelled>⟧.forms self result }
    {
        if self.items == 0 {
            return None;
        }
        self.write_counts();
        Some(RawRecord {
            kind: BATCH,
            body: self.body,
        })
    }

    /// Whether a batch may have the item behind those that were put.
    #[inline(always)]
    fn may_follow<F: EdgeFn>(&self, item: (Key, F, bool)) -> bool
        ensures { IsTrue result ↔ MayFollow ⟦<F as Spelled>⟧.forms item self.now }
    {
        let (_, function, _) = item;
        self.items < MOST && function.proper() && function != F::all_top()
    }

    /// Appends the item's form: in the second version to its group.
    #[inline(always)]
    fn append<F: EdgeFn>(
        &mut self,
        version: Version,
        item: (Key, F, bool),
    ) -> Result<(), AllocError>
        requires groups { self.old.groups < self.old.items }
        requires members { self.old.members < self.old.items }
        ensures { OnOk result (self.new ≡ appended ⟦<F as Spelled>⟧.forms version item self.old) }
    {
        match version {
            Version::One => item.put(&mut self.body),
            Version::Two => self.put_member(item),
        }
    }

    /// Appends the item to the last group, if it is of its kind and node, or else to one that
    /// begins with it.
    #[inline(always)]
    fn put_member<F: EdgeFn>(&mut self, item: (Key, F, bool)) -> Result<(), AllocError>
        requires groups { self.old.groups < self.old.items }
        requires members { self.old.members < self.old.items }
        ensures { OnOk result (self.new ≡ with_member ⟦<F as Spelled>⟧.forms item self.old) }
    {
        if !self.is_in_group(item.0) {
            self.begin_group(kind_of(item.0), item.0.node())?;
        }
        self.members += 1;
        member_of(item).put(&mut self.body)
    }

    /// Whether the last group is of the key's kind and node.
    #[inline(always)]
    fn is_in_group(&self, key: Key) -> bool
        ensures { result ≡ is_in_last self.now key }
    {
        self.kind == kind_of(key) && self.node == key.node()
    }

    /// Begins a group of the kind and the node. Few items need one, so it stands apart from their loop,
    /// and asks for no more of the key: what it does not take need not be kept for it.
    #[inline(never)]
    fn begin_group(&mut self, kind: u8, node: Node) -> Result<(), AllocError>
        requires { self.old.groups < self.old.items }
        ensures { OnOk result (self.new ≡ with_group kind node self.old) }
    {
        self.end_group();
        self.body.push(kind)?;
        node.put(&mut self.body)?;
        let place = self.body.len();
        0u32.put(&mut self.body)?;
        self.kind = kind;
        self.node = node;
        self.place = place;
        self.groups += 1;
        self.members = 0;
        Ok(())
    }

    /// Writes the counts that were not known: of the items, or of the groups and of the last one's
    /// members.
    fn write_counts(&mut self)
        ensures { self.new.body ≡ finished self.old.version self.old }
    {
        match self.version {
            Version::One => write_over(&mut self.body, 0, self.items as u32),
            Version::Two => {
                self.end_group();
                write_over(&mut self.body, 0, self.groups as u32);
            }
        }
    }

    /// Writes how many members the last group has, if there is one.
    fn end_group(&mut self)
        ensures { self.new ≡ record self.old { body = ended self.old } }
    {
        if self.groups > 0 {
            write_over(&mut self.body, self.place, self.members as u32);
        }
    }
}

/// Writes the four bytes of a number over those from a place on.
fn write_over(bytes: &mut Vec<u8>, place: usize, number: u32)
    requires { place + 4 ≤ length bytes.old.items }
    ensures { bytes.new.items ≡ written_over place number bytes.old.items }
{
    bytes[place..place + 4].copy_from_slice(&number.to_le_bytes());
}
