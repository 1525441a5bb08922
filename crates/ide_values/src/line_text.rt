//! The lines of a node, made from those of another one: they differ in the node's number, and where values do.
ghost use Rattle.std.specs.Prelude.{◌≡◌, ◌+◌, ◌<◌, ◌≤◌, ◌^◌, IfOk, IfSome, OnOk, length, slice_index_or, slice_set};
ghost use Rattle.ide_values.specs.Dump.{Appends};
ghost use Rattle.ide_values.specs.Lines.{AreSomeLines, AreLinesTold, AreLinesToldOf, ChangesStems, StayTill, TellSome, TellValues, columns_in, lengths_from, told_line};

use crate::columns::append_node;
use crate::rows::value_at_place;
use ide_lattice::Lattice;
use ide_wire::Node;
use std::alloc::{AllocError, Global};
use std::mem::swap;

/// The value that a line tells, and how long the line is.
#[derive(Clone, Copy, Drop)]
pub(crate) struct Told<L: Lattice> {
    pub(crate) value: L,
    pub(crate) length: usize,
}

/// The lines of a node, one for each fact that has columns there. They have room for another text beside them, so
/// that those of the next node are mostly made with no memory more.
#[derive(Drop)]
pub(crate) struct Lines<L: Lattice> {
    /// The column of the node's number, with which each line begins.
    pub(crate) stem: Vec<u8>,
    /// The columns of each fact.
    pub(crate) facts: Vec<Vec<u8>>,
    /// What each line tells.
    pub(crate) told: Vec<Told<L>>,
    /// The lines.
    pub(crate) text: Vec<u8>,
    /// Room for what takes the place of the column, or of the text.
    spare: Vec<u8>,
}

impl<L: Lattice> Lines<L> {
    /// No lines. It allocates nothing.
    pub(crate) fn new(alloc: Global) -> Self {
        Lines {
            stem: Vec::new(alloc),
            facts: Vec::new(alloc),
            told: Vec::new(alloc),
            text: Vec::new(alloc),
            spare: Vec::new(alloc),
        }
    }

    /// Makes the lines of a node from those of one whose facts have the same columns. The values are those from a
    /// place of rows on.
    pub(crate) fn turn_to(&mut self, node: Node, rows: &[L], first: usize) -> Result<(), AllocError>
        requires told { AreLinesTold L.shown self.old }
        requires few { length self.old.facts.items ≤ 2 ^ 16 }
        requires first { first ≤ 2 ^ 48 }
        ensures facts { self.new.facts ≡ self.old.facts }
        ensures told { OnOk result (AreLinesToldOf L.algebra L.shown node rows.now first self.new) }
    {
        self.spare.clear();
        append_node(node, &mut self.spare)?;
        let Some(values) = rows.get(first..first + self.told.len()) else {
            return self.tell(node, rows, first);
        };
        if self.spare.len() != self.stem.len() {
            return self.tell(node, rows, first);
        }
        begin_with(&self.told, &self.stem, &self.spare, &mut self.text);
        swap(&mut self.stem, &mut self.spare);
        renew(
            &self.stem,
            &self.facts,
            values,
            &mut self.told,
            &self.text,
            &mut self.spare,
        )?;
        swap(&mut self.text, &mut self.spare);
        Ok(())
    }

    /// Makes the lines of a node, whatever they were, from the columns of its facts and the values from a place of
    /// rows on.
    pub(crate) fn tell(&mut self, node: Node, rows: &[L], first: usize) -> Result<(), AllocError>
        requires few { length self.old.facts.items ≤ 2 ^ 16 }
        requires first { first ≤ 2 ^ 48 }
        ensures facts { self.new.facts ≡ self.old.facts }
        ensures told { OnOk result (AreLinesToldOf L.algebra L.shown node rows.now first self.new) }
    {
        self.stem.clear();
        append_node(node, &mut self.stem)?;
        self.text.clear();
        self.told.clear();
        for index in 0..self.facts.len() {
            let value = value_at_place(rows, first + index);
            let told = append_line(&self.stem, &self.facts[index], value, &mut self.text)?;
            self.told.push(told)?;
        }
        Ok(())
    }
}

/// Changes the column with which each line begins to another one of the same length. Mostly one byte changes, since
/// nodes follow one another.
fn begin_with<L: Lattice>(told: &[Told<L>], old: &[u8], new: &[u8], text: &mut [u8])
    requires lines { AreSomeLines told.now old.now text.old }
    requires same { length new.now ≡ length old.now }
    ensures { ChangesStems told.now old.now new.now text.old text.new }
{
    match only_change(old, new) {
        Some(at) => put_byte(told, old, at, new[at], text),
        None => put_stem(told, old, new, text),
    }
}

/// Where the one byte stands that changes, if it is the last but one.
fn only_change(old: &[u8], new: &[u8]) -> Option<usize>
    requires { length new.now ≡ length old.now }
    ensures there { IfSome result (λ at. at < length old.now) }
    ensures change { IfSome result (λ at. new.now ≡ slice_set old.now at (slice_index_or new.now at 0)) }
{
    let at = old.len().checked_sub(2)?;
    if old[..at] != new[..at] || old[at + 1..] != new[at + 1..] {
        return None;
    }
    Some(at)
}

/// Changes a byte of the column with which each line begins. The column as it was is read by the clauses alone.
fn put_byte<L: Lattice>(told: &[Told<L>], old: &[u8], at: usize, byte: u8, text: &mut [u8])
    requires lines { AreSomeLines told.now old.now text.old }
    requires there { at < length old.now }
    ensures { ChangesStems told.now old.now (slice_set old.now at byte) text.old text.new }
{
    let _stem = old;
    let mut place = 0;
    for index in 0..told.len() {
        text[place + at] = byte;
        place += told[index].length;
    }
}

/// Changes the column with which each line begins.
fn put_stem<L: Lattice>(told: &[Told<L>], old: &[u8], new: &[u8], text: &mut [u8])
    requires lines { AreSomeLines told.now old.now text.old }
    requires same { length new.now ≡ length old.now }
    ensures { ChangesStems told.now old.now new.now text.old text.new }
{
    let mut place = 0;
    for index in 0..told.len() {
        text[place..place + old.len()].copy_from_slice(new);
        place += told[index].length;
    }
}

/// Makes the text of lines that tell these values from that of lines that tell others. Those that stay are taken over
/// as many at a time as follow one another.
fn renew<L: Lattice>(
    stem: &[u8],
    facts: &[Vec<u8>],
    values: &[L],
    told: &mut [Told<L>],
    text: &[u8],
    out: &mut Vec<u8>,
) -> Result<(), AllocError>
    requires count { length values.now ≡ length told.old }
    requires told { TellSome L.shown (columns_in facts.now) told.old stem.now text.now }
    ensures { OnOk result (TellValues L.shown (columns_in facts.now) (λ k. slice_index_or values.now k L.algebra.top) told.new stem.now out.new.items) }
{
    out.clear();
    let mut kept = 0;
    let mut run = stay(told, values, 0, 0);
    while run.end < told.len() {
        let index = run.end;
        out.extend_from_slice(&text[kept..run.place])?;
        kept = run.place + told[index].length;
        told[index] = append_line(stem, &facts[index], values[index], out)?;
        run = stay(told, values, index + 1, kept);
    }
    out.extend_from_slice(&text[kept..])
}

/// Up to which line some stay as they are, and where the next one begins.
#[derive(Drop)]
struct Run {
    end: usize,
    place: usize,
}

/// The lines from an index on that tell these values already, of which the first begins at a place.
fn stay<L: Lattice>(told: &[Told<L>], values: &[L], from: usize, place: usize) -> Run
    requires count { length values.now ≡ length told.now }
    requires from { from ≤ length told.now }
    requires few { place + lengths_from told.now from < 2 ^ 64 }
    ensures end { (from ≤ result.end) × (result.end ≤ length told.now) }
    ensures stay { StayTill told.now values.now from result.end }
    ensures place { result.place + lengths_from told.now result.end ≡ place + lengths_from told.now from }
{
    let mut place = place;
    for index in from..told.len() {
        let line = told[index];
        if line.value != values[index] {
            return Run { end: index, place };
        }
        place += line.length;
    }
    Run {
        end: told.len(),
        place,
    }
}

/// Appends the line with these columns, and answers what it tells.
fn append_line<L: Lattice>(
    stem: &[u8],
    columns: &[u8],
    value: L,
    out: &mut Vec<u8>,
) -> Result<Told<L>, AllocError>
    ensures text { OnOk result (Appends (told_line stem.now columns.now (L.shown value)) out.old out.new) }
    ensures value { IfOk result (λ told. told.value ≡ value) }
    ensures length { IfOk result (λ told. told.length ≡ length (told_line stem.now columns.now (L.shown value))) }
{
    let before = out.len();
    out.extend_from_slice(stem)?;
    out.extend_from_slice(columns)?;
    value.show(out)?;
    out.push(b'\n')?;
    Ok(Told {
        value,
        length: out.len() - before,
    })
}
