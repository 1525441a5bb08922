//! What records of the journal do to a core.
ghost use Rattle.std.specs.Prelude.{◌≡◌, ◌++◌, ◌⊎◌, ◌↔◌, List, IfErr, IfOk, IsTrue, OnErr, OnOk, false};
ghost use Rattle.std.specs.List.{All};
ghost use Rattle.ide_batch.specs.Applied.{ApplyRefusal, IsApplied, LoadsText, MayBeRoot, MayHaveAll, RefusesRecord, SetsBody, SetsFront, SetsItems, SetsSome, SpellsFitting, refusal_of};
ghost use Rattle.ide_batch.specs.AppliedAll.{AreApplied, LeadOver, StopsAt};
ghost use Rattle.ide_batch.specs.Items.{Item};
ghost use Rattle.ide_journal.specs.Lists.{entries_of, entry_of};
ghost use Rattle.ide_steps.specs.Core.{IsUnchanged};
ghost use Rattle.ide_steps.specs.Rooted.{IsBegun};
ghost use Rattle.ide_text.specs.Parsed.{IsParsed};
ghost use Rattle.ide_text.specs.declared.program.Program.{Program};
ghost use Rattle.ide_image.specs.Worklist.{IsFree};

use crate::body::read_body;
use crate::spelled::Spelled;
use ide_journal::{RawRecord, Version};
use ide_problem::Problem;
use ide_steps::Core;
use ide_text::{parse, parsed_have_no_fault};
use ide_wire::{Key, Refused};
use std::alloc::Global;

/// Applies the record of that number, spelled as in that version of a store: one step of the fold.
/// No hand may have a claim.
///
/// Refusals: `Damaged`, with the number and before any change, exactly where the record does not
/// apply; `NoMemory`, after which the image has the first of a batch's items, if any.
pub fn apply<P: Problem>(
    alloc: Global,
    core: &mut Core<P>,
    n: u64,
    raw: &RawRecord,
    version: Version,
) -> Result<(), Refused>
    requires { IsFree core.old.pile }
    ensures applied { OnOk result (IsApplied ⟦<P::F as Spelled>⟧.forms version P.F.edge P.F.eq core.old core.new (entry_of raw.now)) }
    ensures refused { IfErr result (ApplyRefusal ⟦<P::F as Spelled>⟧.forms version n core.old core.new (entry_of raw.now)) }
    ensures free { IsFree core.new.pile }
{
    let body = raw.body.as_slice();
    match raw.kind {
        1 => apply_load(alloc, core, n, body),
        2 => apply_root(core, n, body),
        3 => apply_batch(alloc, core, n, body, version),
        _ => Err(Refused::Damaged(n)),
    }
}

/// Applies the records, spelled as in that version of a store, from the first on, which has the number
/// 0: the fold. No hand may have a claim.
///
/// Refusals: `Damaged`, with the number of the first record that does not apply, where the image is
/// that after the records before it; `NoMemory`, where it may also have the first items of the next.
pub fn apply_all<P: Problem>(
    alloc: Global,
    core: &mut Core<P>,
    records: &[RawRecord],
    version: Version,
) -> Result<(), Refused>
    requires { IsFree core.old.pile }
    ensures applied { OnOk result (AreApplied ⟦<P::F as Spelled>⟧.forms version P.F.edge P.F.eq (entries_of records.now) core.old core.new) }
    ensures leads { OnOk result (LeadOver ⟦<P::F as Spelled>⟧.forms version P.F.edge P.F.eq (entries_of records.now) core.old core.new) }
    ensures refused { IfErr result (StopsAt ⟦<P::F as Spelled>⟧.forms version P.F.edge P.F.eq (entries_of records.now) core.old core.new) }
    ensures free { IsFree core.new.pile }
{
    for (n, raw) in records.iter().enumerate() {
        apply(alloc, core, n as u64, raw, version)?;
    }
    Ok(())
}

/// Loads the text of a record of that number, if it has no fault.
fn apply_load<P: Problem>(
    alloc: Global,
    core: &mut Core<P>,
    n: u64,
    text: &[u8],
) -> Result<(), Refused>
    requires { IsFree core.old.pile }
    ensures loaded { OnOk result (LoadsText text.now core.new) }
    ensures refused { IfErr result (RefusesRecord n ((p : Program) × IsParsed text.now p)) }
    ensures unchanged { OnErr result (core.new ≡ core.old) }
    ensures free { IsFree core.new.pile }
{
    parsed_have_no_fault();
    let program = match parse(alloc, text) {
        Ok(program) => program,
        Err(Refused::NoMemory) => return Err(Refused::NoMemory),
        Err(_) => return Err(Refused::Damaged(n)),
    };
    core.load_spelled(program, Vec::from_slice(alloc, text)?)
}

/// Makes the procedure of the name a root, as a record of that number says, if it may be one.
fn apply_root<P: Problem>(core: &mut Core<P>, n: u64, name: &[u8]) -> Result<(), Refused>
    requires { IsFree core.old.pile }
    ensures begun { OnOk result (IsBegun P.L.algebra P.F.edge P.targets core.old core.new name.now) }
    ensures refused { IfErr result (RefusesRecord n (MayBeRoot core.old name.now)) }
    ensures damaged { IfErr result (λ e. (e ≡ Refused.NoMemory) ⊎ (core.new ≡ core.old)) }
    ensures unchanged { OnErr result (IsUnchanged core.old core.new) }
    ensures free { IsFree core.new.pile }
{
    match core.root(name) {
        Ok(()) => Ok(()),
        Err(refused) => Err(refusal_of(n, refused)),
    }
}

/// The refusal of the record of that number, where a call refused what it says.
fn refusal_of(n: u64, refused: Refused) -> Refused
    ensures { result ≡ refusal_of n refused }
{
    match refused {
        Refused::NoMemory => Refused::NoMemory,
        _ => Refused::Damaged(n),
    }
}

/// Sets the items of a record of that number, if its body spells items that the core may have. Where
/// memory is wanting, the first of them are set.
fn apply_batch<P: Problem>(
    alloc: Global,
    core: &mut Core<P>,
    n: u64,
    body: &[u8],
    version: Version,
) -> Result<(), Refused>
    requires { IsFree core.old.pile }
    ensures set { OnOk result (SetsBody ⟦<P::F as Spelled>⟧.forms version core.old core.new body.now) }
    ensures refused { IfErr result (RefusesRecord n (SpellsFitting ⟦<P::F as Spelled>⟧.forms version core.old body.now)) }
    ensures damaged { IfErr result (λ e. (e ≡ Refused.NoMemory) ⊎ (core.new ≡ core.old)) }
    ensures kept { OnErr result (SetsSome ⟦<P::F as Spelled>⟧.forms version core.old core.new body.now) }
    ensures free { IsFree core.new.pile }
{
    let Some(items) = read_body::<P::F>(alloc, version, body)? else {
        return Err(Refused::Damaged(n));
    };
    if !may_have_all(core, items.as_slice()) {
        return Err(Refused::Damaged(n));
    }
    set_all(core, items.as_slice())
}

/// Whether the core may have the key of each item.
fn may_have_all<P: Problem>(core: &Core<P>, items: &[(Key, P::F, bool)]) -> bool
    ensures { IsTrue result ↔ MayHaveAll core.now items.now }
{
    for item in items {
        if !core.may_have(item.0) {
            return false;
        }
    }
    true
}

/// Sets each item's entry. Where memory is wanting, the first items are set.
fn set_all<P: Problem>(core: &mut Core<P>, items: &[(Key, P::F, bool)]) -> Result<(), Refused>
    requires free { IsFree core.old.pile }
    requires place { MayHaveAll core.old items.now }
    requires present { All (λ item. P.F.eq item.1 P.F.edge.all_top ≡ false) items.now }
    ensures set { OnOk result (SetsItems core.old core.new items.now) }
    ensures kept { OnErr result (SetsFront core.old core.new items.now) }
    ensures free { IsFree core.new.pile }
    ensures refused { IfErr result (λ e. e ≡ Refused.NoMemory) }
{
    for item in items {
        core.set(item.0, item.1, item.2)?;
    }
    Ok(())
}
