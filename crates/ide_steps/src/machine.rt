//! The core: its state and what may be asked of it.
ghost use Rattle.ide_image.specs.Notes.{noted, noted_count};
ghost use Rattle.ide_image.specs.KeyedImage.{CountsPending};
ghost use Rattle.ide_steps.specs.Changed.{HandsOut, Notes, Remembers, standing_entry, entry_then};
ghost use Rattle.ide_steps.specs.Core.{IsInside, IsSameProblem, IsUnchanged};
ghost use Rattle.ide_steps.specs.Drain.{HasLess, IsPaidBy};
ghost use Rattle.ide_steps.specs.Loading.{HasLoaded};
ghost use Rattle.ide_steps.specs.ProgramText.{said_by};
ghost use Rattle.std.specs.Prelude.{◌≡◌, ℕ, ◌↔◌, [], None, Some, Ok, length, unwrap_or, IsTrue, IfErr, OnOk, OnErr, IsOkUnless};
ghost use Rattle.std.specs.List.{IsDistinct};
ghost use Rattle.std.specs.Map.{keys_of};
ghost use Rattle.ide_wire.specs.Key.{same_key};
ghost use Rattle.ide_wire.specs.declared.key.Key.{Key};
ghost use Rattle.ide_steps.specs.State.{state_of};
ghost use Rattle.ide_steps.specs.Steps.{HasReceived, IsChangedBy, IsLoweredBy, SameState, SameTasks};
ghost use Rattle.ide_theory.specs.State.{nothing_done};
ghost use Rattle.std.specs.Option.{is_some, option_copied, option_map};
ghost use Rattle.ide_image.specs.Tables.{found};
ghost use Rattle.ide_text.specs.Program.{text_of};
ghost use Rattle.ide_image.specs.Worklist.{claim_at, is_pending};

use crate::loaded::Loaded;
use crate::program_text::ProgramText;
use ide_graph::Graph;
use ide_image::{Change, Changes, Claim, KeyedImage};
use ide_problem::Problem;
use ide_tasks::Task;
use ide_text::{Program, print};
use ide_wire::{Key, Refused};
use std::alloc::Global;
use std::marker::Model;
use std::sync::Arc;

/// The most hands that may have a claim: they are numbered from 0.
pub const HANDS: usize = 64;

/// A solver's state: the loaded program, its roots, and what the image has at each key.
#[derive(Drop)]
pub struct Core<P: Problem> {
    pub(crate) alloc: Global,
    pub(crate) loaded: Option<Arc<Loaded<P>>>,
    pub(crate) roots: Vec<usize>,
    pub(crate) image: KeyedImage<P::F, Task<P>>,
}

impl<P: Problem> Model for Core<P> {
    ghost use Rattle.std.specs.Option.{option_map};
    ghost use Rattle.std.specs.Arc.{arc_value};
    ghost use Rattle.ide_steps.specs.declared.loaded.Loaded.{Loaded};
    ghost use Rattle.ide_steps.specs.Core.{CoreData};
    ghost use Rattle.ide_steps.specs.Kept.{KeepsLoaded};
    ghost use Rattle.ide_steps.specs.ProgramText.{said_by};

    ghost Value = { CoreData P.F };

    ghost view = { λ c. record { program = option_map (λ loaded. said_by (arc_value {X = Loaded P P.L P.F} loaded).program) c.loaded; graph = option_map (λ loaded. (arc_value {X = Loaded P P.L P.F} loaded).graph) c.loaded; roots = c.roots.items; table = c.image.table; pile = c.image.pile; changes = c.image.changes } };

    ghost invariant = { λ c. KeepsLoaded P.F.edge P.targets (option_map (arc_value {X = Loaded P P.L P.F}) c.loaded) c.image.pile };
}

impl<P: Problem> Core<P> {
    /// A core with no program: the empty image. It takes no memory.
    pub fn new(alloc: Global) -> Core<P>
        ensures program { result.program ≡ None }
        ensures graph { result.graph ≡ None }
        ensures roots { result.roots ≡ [] }
        ensures state { state_of P.F.edge P.targets result ≡ nothing_done P.F }
        ensures entries { result.table.entries ≡ [] }
        ensures pending { result.pile.pending ≡ [] }
        ensures claims { result.pile.claims ≡ [] }
        ensures changes { result.changes ≡ None }
    {
        Core {
            alloc,
            loaded: None,
            roots: Vec::new(alloc),
            image: KeyedImage::new(alloc),
        }
    }

    /// Loads a program: the tables are then empty, nothing is a root, pending or claimed, and no
    /// change is noted. It takes time in proportion to the program's text and to the facts at each
    /// call. Where memory is wanting (`NoMemory`), the program is dropped and the core as it was.
    pub fn load(&mut self, program: Program) -> Result<(), Refused>
        ensures loads { OnOk result (HasLoaded P.F.edge P.targets program self.old self.new) }
        ensures refused { IfErr result (λ e. e ≡ Refused.NoMemory) }
        ensures unchanged { OnErr result (self.new ≡ self.old) }
    {
        let mut text = Vec::new(self.alloc);
        print(&program, &mut text)?;
        // The text grew by doubling, and grows no more.
        text.shrink_to_fit();
        self.load_spelled(program, text)
    }

    /// Loads a program whose text is at hand, as [`Core::load`] does, which spells it. Both are dropped
    /// where memory is wanting.
    pub fn load_spelled(&mut self, program: Program, text: Vec<u8>) -> Result<(), Refused>
        requires { text_of program ≡ text.items }
        ensures loads { OnOk result (HasLoaded P.F.edge P.targets program self.old self.new) }
        ensures refused { IfErr result (λ e. e ≡ Refused.NoMemory) }
        ensures unchanged { OnErr result (self.new ≡ self.old) }
    {
        let loaded = Loaded::of(self.alloc, program, text)?;
        let loaded = Arc::new(self.alloc, loaded)?;
        self.loaded = Some(loaded);
        self.image.clear(self.alloc);
        self.roots.clear();
        Ok(())
    }

    /// The loaded program, if one is loaded, as its text: [`ProgramText::program`] parses it.
    pub fn program(&self) -> Option<&ProgramText>
        ensures { option_map said_by (option_copied result) ≡ self.now.program }
    {
        Some(&self.loaded.as_ref()?.program)
    }

    /// The graph of the loaded program, if one is loaded.
    pub fn graph(&self) -> Option<&Graph>
        ensures { option_copied result ≡ self.now.graph }
    {
        Some(&self.loaded.as_ref()?.graph)
    }

    /// The roots, as indices of procedures, in the order in which they were made.
    pub fn roots(&self) -> &[usize]
        ensures { result.now ≡ self.now.roots }
    {
        self.roots.as_slice()
    }

    /// The hand's claim, if it has one: its key, its task, and how many parts of that are done.
    pub fn claim_of(&self, hand: usize) -> Option<&Claim<Task<P>>>
        ensures { option_copied result ≡ claim_at self.now.pile hand }
    {
        self.image.claim(hand)
    }

    /// Whether no key is pending, claimed or not.
    pub fn is_quiet(&self) -> bool
        ensures { IsTrue result ↔ (self.now.pile.pending ≡ []) }
    {
        self.image.is_quiet()
    }

    /// The function at a key; an absent one stands for the always-top function.
    pub fn get(&self, key: Key) -> Option<P::F>
        ensures { result ≡ found self.now.table key }
    {
        self.image.get(key)
    }

    /// Whether the key is pending, claimed or not.
    pub fn is_pending(&self, key: Key) -> bool
        ensures { result ≡ is_pending self.now.pile key }
    {
        self.image.is_pending(key)
    }

    /// How many keys have an entry.
    pub fn key_count(&self) -> usize
        ensures { result ≡ length self.now.table.entries }
    {
        self.image.key_count()
    }

    /// How many keys are pending.
    pub fn pending_count(&self) -> usize
        ensures { result ≡ length self.now.pile.pending }
    {
        self.image.pending_count()
    }

    /// Hands out, for each key that changed since this was last called, the entry that the key had
    /// then: none the first time. From now on changes are noted. It takes constant time, and no memory.
    pub fn take_changes(&mut self) -> Changes<P::F>
        ensures once { IsDistinct same_key (keys_of result.items) }
        ensures list { result.items ≡ unwrap_or self.old.changes [] }
        ensures entries { HandsOut self.old self.new result.items }
        ensures anew { (key : Key) → entry_then self.new key ≡ standing_entry self.new key }
        ensures stays { self.new ≡ record self.old { changes = Some [] } }
    {
        self.image.take_changes(self.alloc)
    }

    /// Forgets what is noted. From now on changes are noted, and no key is noted yet. It takes constant
    /// time, and no memory: what room there is for notes stays.
    pub fn note_anew(&mut self)
        ensures anew { (key : Key) → entry_then self.new key ≡ standing_entry self.new key }
        ensures stays { self.new ≡ record self.old { changes = Some [] } }
    {
        self.image.note_anew(self.alloc);
    }

    /// How many keys are noted to have changed.
    pub fn changed_count(&self) -> usize
        ensures { result ≡ noted_count self.now.changes }
    {
        self.image.changed_count()
    }

    /// Whether the key is noted to have changed.
    pub fn is_changed(&self, key: Key) -> bool
        ensures { result ≡ is_some (noted self.now.changes key) }
    {
        self.image.is_changed(key)
    }

    /// Meets one entry with a function, as a part does. An entry that changed is pending then, a claim of
    /// its key is marked as lowered, and the entry of before is noted where somebody asked for changes.
    /// By itself it is no step of a run: with it a store drains a key that it claims for nobody
    /// ([`Core::next_key`]).
    ///
    /// Refusal: `NoMemory`.
    #[inline(always)]
    pub fn lower_owed(&mut self, key: Key, function: P::F) -> Result<Change, Refused>
        requires { IsInside self.old key }
        ensures stays { IsSameProblem self.old self.new }
        ensures falls { result ≡ Ok Change.Lowered → HasLess P.F.edge self.old self.new }
        ensures paid { result ≡ Ok Change.Lowered → (h : ℕ) → IsPaidBy P.F.edge h 1 self.old self.new }
        ensures count { result ≡ Ok Change.Lowered → CountsPending key self.old.pile self.new.pile }
        ensures still { result ≡ Ok Change.Same → IsUnchanged self.old self.new }
        ensures notes { result ≡ Ok Change.Lowered → Notes self.old self.new (Some key) }
        ensures remembers { Remembers self.old self.new }
        ensures lowered { result ≡ Ok Change.Lowered → IsLoweredBy P.F.edge P.targets self.old self.new key function }
        ensures changes { result ≡ Ok Change.Lowered → IsChangedBy P.F.edge P.targets self.old key function }
        ensures same { result ≡ Ok Change.Same → SameState P.F.edge P.targets self.old self.new }
        ensures met { result ≡ Ok Change.Same → HasReceived P.F.edge P.targets self.old key function }
        ensures progress { OnOk result (SameTasks self.old.pile self.new.pile) }
        ensures refused { IsOkUnless result Refused.NoMemory }
        ensures unchanged { OnErr result (IsUnchanged self.old self.new) }
    {
        self.image.lower(key, function)
    }
}
