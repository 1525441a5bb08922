//! What is sealed: the records of loads and of roots, and of the keys that changed.
ghost use Rattle.std.specs.Prelude.{◌≡◌, ◌<◌, ◌≤◌, None, false, Ok, option_map, IfErr, IfOk, IfSome, OnErr, OnOk};
ghost use Rattle.ide_batch.specs.Records as records;
ghost use Rattle.ide_journal.specs.Lists.{entry_of};
ghost use Rattle.ide_text.specs.Parsed.{IsParsed};
ghost use Rattle.ide_text.specs.Program.{text_of, value_of};
ghost use Rattle.ide_store.specs.Acting.{BeginsAnew, SpellsFirst, SpellsRecord};
ghost use Rattle.ide_store.specs.Draining.{WorksHeld};
ghost use Rattle.ide_store.specs.Table.{IsSameTable, KeepsRest};
ghost use Rattle.ide_store.specs.TableCalls.{BeginsRoot, FindsNothing, IsLoadStop, IsRefusal, IsRootStop, IsSealStop, LoadsProgram, SealsBatch};

use crate::kept::Kept;
use crate::laws::calls_are_acts;
use crate::outbox::{MOST_RECORDS, Ticket};
use crate::table::TableHalf;
use ide_batch::{Record, changed_to_raw, to_raw};
use ide_journal::RawRecord;
use ide_problem::Problem;
use ide_steps::cores_are_whole;
use ide_text::{Program, parsing_and_printing_undo_each_other, print};
use ide_wire::Refused;

impl<P: Problem> TableHalf<P> {
    /// Seals what changed since the last record, and answers its number: none where nothing did.
    ///
    /// Refusals, in this order: `Failed`; `Limit`, where something changed and 4,294,967,295 records are
    /// sealed, or a key that changed has a function that no record spells; `NoMemory`. Nothing is sealed
    /// then.
    pub fn seal(&mut self) -> Result<Option<Ticket>, Refused>
        ensures seals { IfOk result (λ sealed. IfSome sealed (λ ticket. SealsBatch ⟦<P as Kept>⟧.analysis self.old self.new ticket.number)) }
        ensures nothing { result ≡ Ok None → FindsNothing ⟦<P as Kept>⟧.analysis self.old self.new }
        ensures anew { OnOk result (BeginsAnew self.old.core self.new.core) }
        ensures few { self.new.sealed ≤ 4294967295 }
        ensures working { OnOk result (self.old.failed ≡ false) }
        ensures refused { IfErr result (IsRefusal self.old (IsSealStop ⟦<P as Kept>⟧.analysis self.old)) }
        ensures unchanged { OnErr result (IsSameTable self.old self.new) }
    {
        if self.failed {
            return Err(Refused::Failed);
        }
        self.seal_changes()
    }

    /// Loads a program, and seals its record: its number is answered. What was not sealed is dropped, as
    /// the image is.
    ///
    /// Refusals, in this order: `Failed`; `Limit`, where 4,294,967,295 records are sealed; `NoMemory`.
    /// Nothing is loaded then, and the program is dropped.
    pub fn load(&mut self, program: Program) -> Result<Ticket, Refused>
        ensures loads { IfOk result (λ ticket. LoadsProgram ⟦<P as Kept>⟧.analysis (value_of program) self.old self.new ticket.number) }
        ensures few { self.new.sealed ≤ 4294967295 }
        ensures working { OnOk result (self.old.failed ≡ false) }
        ensures refused { IfErr result (IsRefusal self.old (IsLoadStop self.old)) }
        ensures unchanged { OnErr result (IsSameTable self.old self.new) }
    {
        calls_are_acts::<P>();
        cores_are_whole(&self.core);
        if self.failed {
            return Err(Refused::Failed);
        }
        if self.outbox.sealed >= MOST_RECORDS {
            return Err(Refused::Limit);
        }
        let text = self.spelled(&program)?;
        let raw = self.load_record(&program, text.as_slice())?;
        self.outbox.reserve(1)?;
        self.core.load_spelled(program, text)?;
        Ok(self.outbox.push(raw))
    }

    /// Makes the procedure of that name a root. What changed is sealed first, if anything did, and then
    /// the root's record, whose number is answered.
    ///
    /// Refusals, in this order: `Failed`; those of [`Core::root`] but for want of memory; `Limit`, where
    /// there is no number left for two records, or as of [`TableHalf::seal`]; `NoMemory`. Nothing is
    /// sealed then.
    pub fn root(&mut self, name: &[u8]) -> Result<Ticket, Refused>
        ensures begins { IfOk result (λ ticket. BeginsRoot ⟦<P as Kept>⟧.analysis name.now self.old self.new ticket.number) }
        ensures few { self.new.sealed ≤ 4294967295 }
        ensures working { OnOk result (self.old.failed ≡ false) }
        ensures refused { IfErr result (IsRefusal self.old (IsRootStop ⟦<P as Kept>⟧.analysis self.old name.now)) }
        ensures unchanged { OnErr result (IsSameTable self.old self.new) }
    {
        calls_are_acts::<P>();
        cores_are_whole(&self.core);
        if self.failed {
            return Err(Refused::Failed);
        }
        let _ = self.core.root_of(name)?;
        if self.outbox.sealed >= MOST_RECORDS - 1 {
            return Err(Refused::Limit);
        }
        let first = self.batch()?;
        let raw = self.root_record(name)?;
        self.outbox.reserve(2)?;
        self.core.root(name)?;
        self.core.note_anew();
        Ok(self.outbox.push_behind(first, raw))
    }

    /// Seals what changed since the last record, if anything did, and notes changes anew.
    pub(crate) fn seal_changes(&mut self) -> Result<Option<Ticket>, Refused>
        ensures seals { IfOk result (λ sealed. IfSome sealed (λ ticket. SealsBatch ⟦<P as Kept>⟧.analysis self.old self.new ticket.number)) }
        ensures nothing { result ≡ Ok None → FindsNothing ⟦<P as Kept>⟧.analysis self.old self.new }
        ensures held { WorksHeld ⟦<P as Kept>⟧.analysis self.old self.new }
        ensures anew { OnOk result (BeginsAnew self.old.core self.new.core) }
        ensures few { self.new.sealed ≤ 4294967295 }
        ensures refused { IfErr result (IsSealStop ⟦<P as Kept>⟧.analysis self.old) }
        ensures unchanged { OnErr result ((self.new.core ≡ self.old.core) × KeepsRest self.old self.new) }
    {
        calls_are_acts::<P>();
        cores_are_whole(&self.core);
        let Some(batch) = self.batch()? else {
            self.core.note_anew();
            return Ok(None);
        };
        self.outbox.reserve(1)?;
        self.core.note_anew();
        Ok(Some(self.outbox.push(batch)))
    }

    /// The record of what changed since the last one, if anything did.
    fn batch(&self) -> Result<Option<RawRecord>, Refused>
        ensures spells { IfOk result (λ raw. SpellsFirst ⟦<P as Kept>⟧.analysis self.now (option_map entry_of raw)) }
        ensures room { IfOk result (λ raw. IfSome raw (λ _. self.now.sealed < 4294967295)) }
        ensures refused { IfErr result (IsSealStop ⟦<P as Kept>⟧.analysis self.now) }
    {
        if self.core.changed_count() > 0 && self.outbox.sealed >= MOST_RECORDS {
            return Err(Refused::Limit);
        }
        let changed = self.core.changed_items()?;
        if changed.len() == 0 {
            return Ok(None);
        }
        let Some(raw) = changed_to_raw(self.alloc, changed, self.version)? else {
            return Err(Refused::Limit);
        };
        Ok(Some(raw))
    }

    /// The text of the program, with no room for more.
    fn spelled(&self, program: &Program) -> Result<Vec<u8>, Refused>
        ensures text { IfOk result (λ text. text_of program.now ≡ text.items) }
        ensures parsed { IsParsed (text_of program.now) program.now }
        ensures refused { IfErr result (λ e. e ≡ Refused.NoMemory) }
    {
        parsing_and_printing_undo_each_other();
        let mut text = Vec::new(self.alloc);
        print(program, &mut text)?;
        text.shrink_to_fit();
        Ok(text)
    }

    /// The record of a load of the program, with a copy of its text.
    fn load_record(&self, program: &Program, text: &[u8]) -> Result<RawRecord, Refused>
        requires { text_of program.now ≡ text.now }
        ensures spells { IfOk result (λ raw. SpellsRecord ⟦<P as Kept>⟧.analysis self.now (records.Load text.now) (entry_of raw)) }
        ensures refused { IfErr result (λ e. e ≡ Refused.NoMemory) }
    {
        let copy = Vec::from_slice(self.alloc, text)?;
        match to_raw(self.alloc, &Record::<P::F>::Load(copy), self.version)? {
            Some(raw) => Ok(raw),
            // A text that was parsed is not too long.
            None => unreachable!(),
        }
    }

    /// The record of a root of that name.
    fn root_record(&self, name: &[u8]) -> Result<RawRecord, Refused>
        ensures spells { IfOk result (λ raw. SpellsRecord ⟦<P as Kept>⟧.analysis self.now (records.Root name.now) (entry_of raw)) }
        ensures refused { IfErr result (IsRootStop ⟦<P as Kept>⟧.analysis self.now name.now) }
    {
        let mut copy = Vec::new(self.alloc);
        copy.extend_from_slice(name)?;
        match to_raw(self.alloc, &Record::<P::F>::Root(copy), self.version)? {
            Some(raw) => Ok(raw),
            None => Err(Refused::Limit),
        }
    }
}
