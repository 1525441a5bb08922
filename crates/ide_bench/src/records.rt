//! Records in a journal on a disk in memory, and what copying their bodies alone takes.
//!
//! The disk is an honest one, `MemDisk`, though its record of what is written is in the figures: only of an honest disk
//! can it be proved that as many records are read back as were stored.
ghost use Rattle.std.specs.Prelude.{◌≡◌, ◌*◌, IfOk, OnOk, length};
ghost use Rattle.ide_bench.specs.Records.{AppendsRecord, KeepsAlike};
ghost use Rattle.ide_journal.specs.Format.{head_of, zeros};
ghost use Rattle.ide_journal.specs.Lists.{entry_of};

use crate::figures::Figure;
use anyhow::{Result, bail, ensure};
use ide_disk::{Disk, MemDisk};
use ide_journal::laws::holds_one_list;
use ide_journal::{Journal, RawRecord, Version};
use std::alloc::Global;

/// The tag of the store.
const TAG: u8 = 1;
/// The kind of its records.
const KIND: u8 = 1;
/// The most bytes of a record's body.
const LONGEST: usize = 4_194_304;
/// The most records.
const MOST: u64 = 4_294_967_294;
/// The bytes of a page, which a store's places are multiples of.
const PAGE: usize = 4_096;

/// How long the body of a record is, and how many records there are.
#[derive(Clone, Copy)]
pub(crate) struct Sizes {
    pub(crate) length: usize,
    pub(crate) count: usize,
}

/// How many records a store has, and how long its file is, or both its files together.
#[derive(Clone, Copy)]
pub(crate) struct Stored {
    pub(crate) records: u64,
    pub(crate) bytes: u64,
}

impl Stored {
    /// Each number by its name.
    pub(crate) fn figures(self) -> [Figure; 2] {
        [("records", self.records), ("bytes", self.bytes)]
    }
}

impl Sizes {
    /// A disk with room for the records, for the writes of them all, and for the calls.
    fn disk(self, alloc: Global) -> Result<MemDisk> {
        ensure!(self.length <= LONGEST, "a body is at most 4 MiB long");
        let pages = (self.length + 14) / PAGE + 2;
        let Some(room) = pages
            .checked_mul(PAGE)
            .and_then(|record| record.checked_mul(self.count))
        else {
            bail!("so many records have no room");
        };
        let room = room.saturating_add(2 * PAGE);
        let calls = self.count.saturating_mul(8);
        Ok(MemDisk::new(alloc, room, room.saturating_add(calls))?)
    }

    /// A record, of zeros.
    fn record(self, alloc: Global) -> Result<RawRecord>
        ensures { IfOk result (λ raw. entry_of raw ≡ (KIND, zeros self.length)) }
    {
        let mut body = Vec::with_capacity(alloc, self.length)?;
        body.resize(self.length, 0)?;
        Ok(RawRecord { kind: KIND, body })
    }

    /// A journal with the records.
    fn journal(self, alloc: Global) -> Result<Journal<MemDisk>>
        ensures { IfOk result (KeepsAlike (head_of Version.Two TAG) KIND self.length self.count) }
    {
        let record = self.record(alloc)?;
        let mut journal = match Journal::create(alloc, self.disk(alloc)?, TAG, Version::Two) {
            Ok(journal) => journal,
            Err((refused, _)) => return Err(refused.into()),
        };
        for _ in 0..self.count {
            store(&mut journal, &record)?;
        }
        Ok(journal)
    }
}

/// Stores a record, by four disk calls.
fn store(journal: &mut Journal<MemDisk>, raw: &RawRecord) -> Result<()>
    ensures { OnOk result (AppendsRecord (entry_of raw.now) journal.old journal.new) }
{
    ensure!(
        journal.is_idle() && journal.count() < MOST,
        "the journal takes no more records"
    );
    ensure!(
        raw.kind == KIND && raw.body.len() <= LONGEST,
        "the record is too long"
    );
    journal.begin(raw)?;
    journal.advance()?;
    journal.advance()?;
    journal.advance()?;
    journal.advance()?;
    Ok(())
}

/// Stores the records.
pub(crate) fn append(alloc: Global, sizes: Sizes) -> Result<Stored>
    ensures { IfOk result (λ stored. stored.records ≡ sizes.count) }
{
    let journal = sizes.journal(alloc)?;
    let records = journal.count();
    let bytes = journal.into_disk().len()?;
    Ok(Stored { records, bytes })
}

/// Stores the records, and reads them back.
pub(crate) fn reopen(alloc: Global, sizes: Sizes) -> Result<Stored>
    ensures { IfOk result (λ stored. stored.records ≡ sizes.count) }
{
    holds_one_list();
    let disk = sizes.journal(alloc)?.into_disk();
    match Journal::open(alloc, disk, TAG) {
        Ok((journal, records)) => Ok(Stored {
            records: records.len() as u64,
            bytes: journal.into_disk().len()?,
        }),
        Err((refused, _)) => Err(refused.into()),
    }
}

/// Copies as many bodies into one vector, and answers its length.
pub(crate) fn copy(alloc: Global, sizes: Sizes) -> Result<usize>
    ensures { IfOk result (λ bytes. bytes ≡ sizes.length * sizes.count) }
{
    let record = sizes.record(alloc)?;
    let Some(length) = sizes.length.checked_mul(sizes.count) else {
        bail!("so many bytes have no room");
    };
    let mut copies = Vec::with_capacity(alloc, length)?;
    for _ in 0..sizes.count {
        copies.extend_from_slice(record.body.as_slice())?;
    }
    Ok(copies.len())
}
