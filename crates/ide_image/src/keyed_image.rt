//! What an image has at each key.
ghost use Rattle.std.specs.Prelude.{◌≡◌, ◌≢◌, ℕ, Bool, ◌+◌, ◌%◌, ◌<◌, ◌≤◌, ◌^◌, ◌&&◌, ◌||◌, ◌↔◌, [], None, Some, Ok, true, false, filter, length, nat_eq, not, unwrap_or, if◌then◌else◌, IsOk, IsSome, IsTrue, IfOk, IfSome, IfNone, OnOk, OnErr, IsOkUnless};
ghost use Rattle.std.specs.List.{IsDistinct, list_any};
ghost use Rattle.std.specs.List.Sorted.{IsPermutation, IsSortedByKey};
ghost use Rattle.std.specs.Map.{keys_of};
ghost use Rattle.std.specs.Option.{is_some, option_copied, option_map};
ghost use Rattle.ide_image.specs.Spent.{Spends, spent};
ghost use Rattle.ide_image.specs.Tables.{AreJumpsTo, AreKeys, AreSummariesFrom, CountsKey, FallsAt, Lowers, Sets, SetsAll, found, function_at, is_kept};
ghost use Rattle.ide_wire.specs.declared.key.Key.{Key};
ghost use Rattle.ide_wire.specs.declared.key.Key.TheVariants.{Jump};
ghost use Rattle.ide_wire.specs.declared.refused.Refused.TheVariants.{NoMemory};
ghost use Rattle.ide_wire.specs.Key.{same_key};
ghost use Rattle.ide_wire.specs.KeyOrder.{key_cmp};
ghost use Rattle.ide_image.specs.declared.claim.Claim.{Claim};
ghost use Rattle.ide_image.specs.Worklist.{PutsClaim, IsFree, IsWorklist, begun, claim_at, ends, ends_key, is_claimed, is_pending, marked, with_done};
ghost use Rattle.ide_image.specs.KeyedImage.{CountsPending, entry_now, marked_all};
ghost use Rattle.ide_image.specs.Left.{left_items};
ghost use Rattle.ide_image.specs.Notes.{NotesAll, ended_key, entry_at, noted, noted_count, with_change, with_note};
ghost use Rattle.ide_image.specs.Walk.{AreAbsent, AreSettled, EntersWalked, GoesTo, NotesWalk, jump_behind};

use crate::change::Change;
use crate::change_log::ChangeLog;
use crate::changed_items::ChangedItems;
use crate::changes::Changes;
use crate::claim::Claim;
use crate::indexed::Indexed;
use crate::noted_slots::NotedSlots;
use crate::queue::Queue;
use crate::tables::Tables;
use crate::{claims, parts};
use ide_lattice::EdgeFn;
use ide_wire::{Fact, Key, Node, Refused};
use std::alloc::Global;
use std::marker::Model;

/// What an image has at each key: its function, whether it is pending, the claim of a hand on it, and
/// the entry that it had when changes were last asked for. It has cells for the keys of 67,108,863 pages at
/// most, 64 each, and keeps 4,294,967,295 functions at most, those that no key has any more among them. One
/// more is refused as `NoMemory`. Each call on one key makes one look-up.
#[derive(Drop)]
pub struct KeyedImage<F: EdgeFn, T> {
    indexed: Indexed<F>,
    queue: Queue,
    claims: Vec<Option<Claim<T>>>,
    changes: ChangeLog<F>,
}

impl<F: EdgeFn, T> Model for KeyedImage<F, T> {
    ghost use Rattle.ide_image.specs.KeyedImage.{AreParts, KeyedImageData, image_by};

    ghost Value = { KeyedImageData F T };

    ghost view = { λ e. image_by e.indexed e.queue e.claims.items e.changes };

    ghost invariant = { λ e. AreParts e.indexed e.queue e.claims.items e.changes };
}

impl<F: EdgeFn, T: Drop> KeyedImage<F, T> {
    /// An image with no present key. It allocates nothing.
    pub fn new(alloc: Global) -> Self
        ensures entries { result.table.entries ≡ [] }
        ensures pending { result.pile.pending ≡ [] }
        ensures claims { result.pile.claims ≡ [] }
        ensures changes { result.changes ≡ None }
    {
        KeyedImage {
            indexed: Indexed::new(alloc),
            queue: Queue::new(alloc),
            claims: Vec::new(alloc),
            changes: ChangeLog::new(alloc),
        }
    }

    /// The key's function, if the key is present.
    pub fn get(&self, key: Key) -> Option<F>
        ensures { result ≡ found self.now.table key }
    {
        self.indexed.function_at(self.indexed.place(key))
    }

    /// The function that the key stands for: always top, if it is not present.
    pub fn function(&self, key: Key) -> F
        ensures { result ≡ function_at F.edge self.now.table key }
    {
        self.indexed.function_in(self.indexed.place(key))
    }

    /// Whether the key is pending, claimed or not.
    pub fn is_pending(&self, key: Key) -> bool
        ensures { result ≡ is_pending self.now.pile key }
    {
        parts::is_pending_at(&self.queue, self.indexed.place(key))
    }

    /// Whether no key is pending.
    pub fn is_quiet(&self) -> bool
        ensures { IsTrue result ↔ (self.now.pile.pending ≡ []) }
    {
        self.queue.pending_count() == 0
    }

    /// How many keys are pending.
    pub fn pending_count(&self) -> usize
        ensures { result ≡ length self.now.pile.pending }
    {
        self.queue.pending_count()
    }

    /// How many keys are present.
    pub fn key_count(&self) -> usize
        ensures count { result ≡ length self.now.table.entries }
        ensures distinct { IsDistinct same_key (keys_of self.now.table.entries) }
    {
        self.indexed.len()
    }

    /// The present keys, ascending: jumps before summaries, then by node and facts.
    pub fn keys(&self, alloc: Global) -> Result<Vec<Key>, Refused>
        ensures keys { IfOk result (λ keys. AreKeys key_cmp self.now.table keys.items) }
        ensures refused { IsOkUnless result NoMemory }
    {
        self.indexed.keys(alloc)
    }

    /// The jumps at the node to the fact: for each the fact at the start of its procedure, and its
    /// function, ascending by fact. It takes one look-up.
    pub fn jumps_at(&self, alloc: Global, node: Node, fact: Fact) -> Result<Vec<(Fact, F)>, Refused>
        ensures partners { IfOk result (λ list. AreJumpsTo node fact self.now.table list.items) }
        ensures refused { IsOkUnless result NoMemory }
    {
        self.indexed.jumps_at(alloc, node, fact)
    }

    /// Makes the list the jumps at the node to the fact, as [`KeyedImage::jumps_at`] has them. What was
    /// in it is gone, and its room is used again. It takes one look-up, and memory only where the list
    /// has to grow.
    ///
    /// Refusal: `NoMemory`.
    pub fn fill_jumps_at(
        &self,
        node: Node,
        fact: Fact,
        partners: &mut Vec<(Fact, F)>,
    ) -> Result<(), Refused>
        ensures partners { OnOk result (AreJumpsTo node fact self.now.table partners.new.items) }
        ensures refused { IsOkUnless result NoMemory }
    {
        self.indexed.fill_jumps_at(node, fact, partners)
    }

    /// The summaries at the call node from the fact: for each the fact at the return site, and its
    /// function, ascending by fact. It takes one look-up.
    pub fn summaries_at(
        &self,
        alloc: Global,
        call: Node,
        fact: Fact,
    ) -> Result<Vec<(Fact, F)>, Refused>
        ensures partners { IfOk result (λ list. AreSummariesFrom call fact self.now.table list.items) }
        ensures refused { IsOkUnless result NoMemory }
    {
        self.indexed.summaries_at(alloc, call, fact)
    }

    /// Makes the list the summaries at the call node from the fact, as [`KeyedImage::summaries_at`] has
    /// them. What was in it is gone, and its room is used again. It takes one look-up, and memory only
    /// where the list has to grow.
    ///
    /// Refusal: `NoMemory`.
    pub fn fill_summaries_at(
        &self,
        call: Node,
        fact: Fact,
        partners: &mut Vec<(Fact, F)>,
    ) -> Result<(), Refused>
        ensures partners { OnOk result (AreSummariesFrom call fact self.now.table partners.new.items) }
        ensures refused { IsOkUnless result NoMemory }
    {
        self.indexed.fill_summaries_at(call, fact, partners)
    }

    /// The hand's claim.
    pub fn claim(&self, hand: usize) -> Option<&Claim<T>>
        ensures claim { option_copied result ≡ claim_at self.now.pile hand }
        // Each claimed key is pending, and no two hands claim one key.
        ensures held { IsWorklist self.now.pile }
    {
        claims::claim_of(&self.claims, hand)
    }

    /// Whether a hand other than this one has a claim.
    pub fn claimed_elsewhere(&self, hand: usize) -> bool
        ensures some { IsTrue result → (h : ℕ) × (nat_eq hand h ≡ false) × IsSome (claim_at self.now.pile h) }
        ensures none { result ≡ false → (h : ℕ) → nat_eq hand h ≡ false → claim_at self.now.pile h ≡ None }
    {
        claims::claimed_elsewhere(&self.claims, hand)
    }

    /// A pending key that no hand has claimed, if there is one, near to the one that was pushed last. It
    /// takes constant time.
    pub fn unclaimed(&self) -> Option<Key>
        ensures pending { IfSome result (λ key. is_pending self.now.pile key ≡ true) }
        ensures unclaimed { IfSome result (λ key. is_claimed self.now.pile key ≡ false) }
        ensures free { IfSome result (λ key. (h : ℕ) (claim : Claim T) → claim_at self.now.pile h ≡ Some claim → claim.key ≢ key) }
        ensures none { IfNone result ((q : Key) → is_pending self.now.pile q ≡ true → is_claimed self.now.pile q ≡ true) }
    {
        let entry = self.unclaimed_entry()?;
        Some(entry.0)
    }

    /// The key of [`KeyedImage::unclaimed`], with its function. No look-up.
    #[inline(always)]
    pub fn unclaimed_entry(&self) -> Option<(Key, F)>
        ensures pending { IfSome result (λ entry. is_pending self.now.pile entry.0 ≡ true) }
        ensures unclaimed { IfSome result (λ entry. is_claimed self.now.pile entry.0 ≡ false) }
        ensures free { IfSome result (λ entry. (h : ℕ) (claim : Claim T) → claim_at self.now.pile h ≡ Some claim → claim.key ≢ entry.0) }
        ensures function { IfSome result (λ entry. found self.now.table entry.0 ≡ Some entry.1) }
        ensures none { IfNone result ((q : Key) → is_pending self.now.pile q ≡ true → is_claimed self.now.pile q ≡ true) }
    {
        let slot = self.queue.top()?;
        let entry = self.indexed.entry_at(slot as usize)?;
        Some(entry)
    }

    /// The noted keys that are present and have another entry now, ascending, each with its function and
    /// whether it is pending: none where nobody asked. It takes no look-up.
    pub fn changed_items(&self, alloc: Global) -> Result<ChangedItems<'_, F>, Refused>
        ensures same { IfOk result (IsPermutation (left_items F.eq self.now)) }
        ensures sorted { IfOk result (IsSortedByKey (λ (item : Key × F × Bool). item.0) key_cmp) }
        ensures once { IsDistinct same_key (keys_of (unwrap_or self.now.changes [])) }
        ensures refused { IsOkUnless result NoMemory }
    {
        let Some(notes) = self.changes.notes() else {
            return Ok(ChangedItems::new(&self.indexed, &self.queue, Vec::new(alloc)));
        };
        let noted = NotedSlots {
            indexed: &self.indexed,
            queue: &self.queue,
            notes,
            slots: self.changes.slots(),
            marks: self.changes.stamp_marks(),
        };
        let slots = noted.left_slots(alloc)?;
        Ok(ChangedItems::new(&self.indexed, &self.queue, slots))
    }

    /// How many keys are noted to have changed.
    pub fn changed_count(&self) -> usize
        ensures count { result ≡ noted_count self.now.changes }
        ensures once { IsDistinct same_key (keys_of (unwrap_or self.now.changes [])) }
    {
        match self.changes.notes() {
            Some(notes) => notes.len(),
            None => 0,
        }
    }

    /// Whether the key is noted to have changed.
    pub fn is_changed(&self, key: Key) -> bool
        ensures { result ≡ is_some (noted self.now.changes key) }
    {
        parts::is_noted_at(&self.changes, self.indexed.place(key))
    }

    /// Meets the key's function with `f`, and says whether that changed it. An entry that changed is
    /// pending then, a claim of its key is marked as lowered, and the entry of before is noted where
    /// changes are noted. `NoMemory` leaves all as it was. One look-up.
    #[inline(always)]
    pub fn lower(&mut self, key: Key, f: F) -> Result<Change, Refused>
        ensures lowered { result ≡ Ok Change.Lowered → Lowers F.edge self.old.table self.new.table key f }
        ensures changes { result ≡ Ok Change.Lowered → is_kept F.eq F.edge self.old.table key f ≡ false }
        ensures falls { result ≡ Ok Change.Lowered → FallsAt F.edge self.old.table key f }
        ensures spent { result ≡ Ok Change.Lowered → spent F.edge self.old.table.entries < spent F.edge self.new.table.entries }
        ensures few { result ≡ Ok Change.Lowered → length self.new.table.entries < 2 ^ 64 }
        ensures pending { result ≡ Ok Change.Lowered → (q : Key) → is_pending self.new.pile q ≡ (same_key key q || is_pending self.old.pile q) }
        ensures count { result ≡ Ok Change.Lowered → CountsPending key self.old.pile self.new.pile }
        // Each claimed key was pending, and no two hands had claimed one key.
        ensures held { IsWorklist self.old.pile }
        ensures claims { result ≡ Ok Change.Lowered → (h : ℕ) → claim_at self.new.pile h ≡ marked key (claim_at self.old.pile h) }
        ensures noted { result ≡ Ok Change.Lowered → self.new.changes ≡ with_note self.old.changes key (entry_now self.old key) }
        ensures same { result ≡ Ok Change.Same → self.new ≡ self.old }
        ensures met { result ≡ Ok Change.Same → is_kept F.eq F.edge self.old.table key f ≡ true }
        ensures err { OnErr result (self.new ≡ self.old) }
        ensures refused { IsOkUnless result NoMemory }
    {
        let cell = self.indexed.make_cell(key)?;
        let old = self.indexed.function_in(cell + 1);
        let new = fallen(old, f);
        if new == old {
            return Ok(Change::Same);
        }
        parts::make_room(&mut self.indexed, &mut self.queue, &mut self.changes, 1, 1)?;
        parts::enter(
            &mut self.indexed,
            &mut self.queue,
            &mut self.claims,
            &mut self.changes,
            cell,
            key,
            new,
        );
        Ok(Change::Lowered)
    }

    /// Gives the hand a claim on the key. `NoMemory` leaves all as it was, and drops the task. One
    /// look-up.
    pub fn take(&mut self, hand: usize, key: Key, task: T) -> Result<(), Refused>
        requires hand_in { hand < 64 }
        requires free { claim_at self.old.pile hand ≡ None }
        requires pending { is_pending self.old.pile key ≡ true }
        requires unclaimed { is_claimed self.old.pile key ≡ false }
        ensures table { self.new.table ≡ self.old.table }
        ensures pending { self.new.pile.pending ≡ self.old.pile.pending }
        ensures changes { self.new.changes ≡ self.old.changes }
        ensures refused { IsOkUnless result NoMemory }
        ensures claims { OnOk result (PutsClaim hand (Some (begun key task)) self.old.pile self.new.pile) }
        ensures err { OnErr result ((h : ℕ) → claim_at self.new.pile h ≡ claim_at self.old.pile h) }
    {
        claims::grow(&mut self.claims, hand)?;
        let slot = self.indexed.place(key) - 1;
        self.queue.hold(slot)?;
        let claim = Claim {
            key,
            task,
            done: 0,
            lowered: false,
        };
        claims::set_claim(&mut self.claims, hand, claim);
        Ok(())
    }

    /// Says how many parts of the hand's task are done. Without a claim it does nothing.
    pub fn set_done(&mut self, hand: usize, count: usize)
        ensures claims { PutsClaim hand (with_done count (claim_at self.old.pile hand)) self.old.pile self.new.pile }
        ensures table { self.new.table ≡ self.old.table }
        ensures pending { self.new.pile.pending ≡ self.old.pile.pending }
        ensures changes { self.new.changes ≡ self.old.changes }
    {
        claims::set_done(&mut self.claims, hand, count);
    }

    /// Takes the hand's claim away, and returns it. Its key stays pending. It takes no memory.
    pub fn release(&mut self, hand: usize) -> Option<Claim<T>>
        ensures claim { result ≡ claim_at self.old.pile hand }
        ensures claims { PutsClaim hand None self.old.pile self.new.pile }
        ensures table { self.new.table ≡ self.old.table }
        ensures pending { self.new.pile.pending ≡ self.old.pile.pending }
        ensures changes { self.new.changes ≡ self.old.changes }
    {
        let key = claims::claim_of(&self.claims, hand)?.key;
        let slot = self.indexed.place(key) - 1;
        self.queue.release(slot);
        claims::take_claim(&mut self.claims, hand)
    }

    /// Takes every claim away, and answers how many there were. Their keys stay pending. It takes no
    /// memory.
    pub fn release_all(&mut self) -> usize
        ensures count { result ≡ length (filter is_some self.old.pile.claims) }
        ensures claims { self.new.pile.claims ≡ [] }
        ensures table { self.new.table ≡ self.old.table }
        ensures pending { self.new.pile.pending ≡ self.old.pile.pending }
        ensures changes { self.new.changes ≡ self.old.changes }
    {
        let count = claims::claim_count(&self.claims);
        self.release_each();
        self.claims.clear();
        count
    }

    /// Takes the claim of each hand away, which leaves its place.
    fn release_each(&mut self)
        ensures free { IsFree self.new.pile }
        ensures table { self.new.table ≡ self.old.table }
        ensures pending { self.new.pile.pending ≡ self.old.pile.pending }
        ensures changes { self.new.changes ≡ self.old.changes }
    {
        let hands = self.claims.len();
        for hand in 0..hands {
            let _ = self.release(hand);
        }
    }

    /// Ends the hand's claim, and returns it. Its key is no longer pending, unless it was lowered since
    /// the hand claimed it; where it is not, the entry of before is noted if changes are noted. It takes
    /// memory only for the note. `NoMemory` leaves all as it was.
    pub fn finish(&mut self, hand: usize) -> Result<Option<Claim<T>>, Refused>
        ensures claim { IfOk result (λ claim. claim ≡ claim_at self.old.pile hand) }
        ensures claims { OnOk result (PutsClaim hand None self.old.pile self.new.pile) }
        ensures pending { OnOk result ((q : Key) → is_pending self.new.pile q ≡ (not (ends (claim_at self.old.pile hand) q) && is_pending self.old.pile q)) }
        ensures count { OnOk result (length self.new.pile.pending + (if ends_key (claim_at self.old.pile hand) then 1 else 0) ≡ length self.old.pile.pending) }
        // Each claimed key was pending, and no two hands had claimed one key.
        ensures held { IsWorklist self.old.pile }
        ensures noted { OnOk result (self.new.changes ≡ with_change self.old.changes (ended_key (claim_at self.old.pile hand)) (entry_now self.old)) }
        ensures table { self.new.table ≡ self.old.table }
        ensures err { OnErr result (self.new ≡ self.old) }
        ensures nobody { self.old.changes ≡ None → IsOk result }
        ensures refused { IsOkUnless result NoMemory }
    {
        let Some(ended) = claims::ended_key(&self.claims, hand) else {
            return Ok(self.release(hand));
        };
        parts::end_slot(&self.indexed, &mut self.queue, &mut self.changes, ended)?;
        Ok(claims::take_claim(&mut self.claims, hand))
    }

    /// Makes the key, which is pending and which no hand has claimed, pending no longer, and notes the
    /// entry of before if changes are noted. It takes memory only for the note. `NoMemory` leaves all as
    /// it was. No look-up where it was pushed near to the last ones, or else one.
    #[inline(always)]
    pub fn settle(&mut self, key: Key) -> Result<(), Refused>
        requires pending { is_pending self.old.pile key ≡ true }
        requires unclaimed { is_claimed self.old.pile key ≡ false }
        ensures pending { OnOk result ((q : Key) → is_pending self.new.pile q ≡ (not (same_key key q) && is_pending self.old.pile q)) }
        ensures count { OnOk result (length self.new.pile.pending + 1 ≡ length self.old.pile.pending) }
        ensures noted { OnOk result (self.new.changes ≡ with_note self.old.changes key (entry_now self.old key)) }
        ensures table { self.new.table ≡ self.old.table }
        ensures claims { self.new.pile.claims ≡ self.old.pile.claims }
        ensures err { OnErr result (self.new ≡ self.old) }
        ensures nobody { self.old.changes ≡ None → IsOk result }
        ensures refused { IsOkUnless result NoMemory }
    {
        parts::end_slot(&self.indexed, &mut self.queue, &mut self.changes, key)?;
        Ok(())
    }

    /// How many jumps between the facts at the nodes behind this one are absent, one after the other, up to a count and as
    /// far as a walk may go: to the end of a page of 64 nodes at most. No look-up where the jump at the node is
    /// [`KeyedImage::unclaimed`], or else one.
    #[inline(always)]
    pub fn absent_behind(&self, node: Node, from: Fact, to: Fact, most: usize) -> usize
        ensures most { result ≤ most }
        ensures absent { AreAbsent self.now.table (jump_behind node from to) result }
        ensures settled { AreSettled self.now.pile (jump_behind node from to) result }
        ensures page { node % 64 + result < 64 }
    {
        let near = self.queue.top_slot();
        self.indexed.absent_behind(near, node, from, to, most)
    }

    /// Walks from the jump between the facts at the node, which is pending and which no hand has claimed, over so many
    /// nodes behind it, at which the jumps between the facts are absent: these have the function then, and of all of them
    /// only the last is pending. Their entries of before are noted where changes are noted, that of the jump at the node
    /// first. `NoMemory` leaves all as it was. No look-up where that one is [`KeyedImage::unclaimed`], or else one.
    #[inline(always)]
    pub fn walk(
        &mut self,
        node: Node,
        from: Fact,
        to: Fact,
        function: F,
        count: usize,
    ) -> Result<(), Refused>
        requires pending { is_pending self.old.pile (Jump node from to) ≡ true }
        requires unclaimed { is_claimed self.old.pile (Jump node from to) ≡ false }
        requires some { 0 < count }
        requires page { node % 64 + count < 64 }
        requires absent { AreAbsent self.old.table (jump_behind node from to) count }
        ensures entries { OnOk result (EntersWalked (jump_behind node from to) function count self.old.table self.new.table) }
        ensures distinct { IsDistinct same_key (keys_of self.old.table.entries) }
        ensures few { OnOk result (length self.new.table.entries < 2 ^ 64) }
        ensures pending { OnOk result (GoesTo (Jump node from to) (jump_behind node from to count) self.old.pile self.new.pile) }
        ensures count { OnOk result (length self.new.pile.pending ≡ length self.old.pile.pending) }
        ensures claims { self.new.pile.claims ≡ self.old.pile.claims }
        ensures noted { OnOk result (NotesWalk node from to count self.old self.new) }
        ensures err { OnErr result (self.new ≡ self.old) }
        ensures refused { IsOkUnless result NoMemory }
    {
        let key = Key::Jump(node, from, to);
        let cell = self.indexed.cell_of(key, self.queue.top_slot());
        parts::make_room(
            &mut self.indexed,
            &mut self.queue,
            &mut self.changes,
            1,
            count + 1,
        )?;
        self.indexed
            .put_behind(cell, node, from, to, function, count);
        parts::note_walk(
            &self.indexed,
            &self.queue,
            &mut self.changes,
            cell,
            node,
            from,
            to,
            count,
        );
        self.queue.move_on(cell, cell + count);
        Ok(())
    }

    /// Makes `f` the function of the key, which no hand has claimed, whatever that was, and the key
    /// pending or not. The entry of before is noted where changes are noted. `NoMemory` leaves all as it
    /// was. One look-up.
    pub fn set(&mut self, key: Key, f: F, pending: bool) -> Result<(), Refused>
        requires unclaimed { is_claimed self.old.pile key ≡ false }
        ensures sets { OnOk result (Sets self.old.table self.new.table key f) }
        ensures spent { OnOk result (Spends F.edge self.old.table self.new.table key f) }
        ensures count { OnOk result (CountsKey self.old.table self.new.table key) }
        ensures few { OnOk result (length self.new.table.entries < 2 ^ 64) }
        ensures pending { OnOk result ((q : Key) → is_pending self.new.pile q ≡ (if same_key key q then pending else is_pending self.old.pile q)) }
        ensures claims { self.new.pile.claims ≡ self.old.pile.claims }
        ensures noted { OnOk result (self.new.changes ≡ with_note self.old.changes key (entry_now self.old key)) }
        ensures err { OnErr result (self.new ≡ self.old) }
        ensures refused { IsOkUnless result NoMemory }
    {
        let cell = self.indexed.make_cell(key)?;
        parts::make_room(&mut self.indexed, &mut self.queue, &mut self.changes, 1, 1)?;
        parts::put_noted(
            &mut self.indexed,
            &self.queue,
            &mut self.changes,
            cell,
            key,
            f,
        );
        self.queue.set_pending(cell, pending);
        Ok(())
    }

    /// Makes the functions those of their keys, one after the other, and these keys pending. A claim of one
    /// of them is marked as lowered, and their entries of before are noted where changes are noted. All
    /// of them, or, where memory is wanting (`NoMemory`), none. Two look-ups for each.
    pub fn set_all(&mut self, list: &[(Key, F)]) -> Result<(), Refused>
        ensures sets { OnOk result (SetsAll self.old.table self.new.table list.now) }
        ensures pending { OnOk result ((q : Key) → is_pending self.new.pile q ≡ (list_any (same_key q) (keys_of list.now) || is_pending self.old.pile q)) }
        ensures claims { OnOk result ((h : ℕ) → claim_at self.new.pile h ≡ marked_all (keys_of list.now) (claim_at self.old.pile h)) }
        ensures noting { is_some self.new.changes ≡ is_some self.old.changes }
        ensures noted { OnOk result (NotesAll self.old.changes self.new.changes (keys_of list.now) (entry_now self.old)) }
        ensures err { OnErr result (self.new ≡ self.old) }
        ensures refused { IsOkUnless result NoMemory }
    {
        self.indexed.make_cells(list)?;
        let count = list.len();
        parts::make_room(
            &mut self.indexed,
            &mut self.queue,
            &mut self.changes,
            count,
            count,
        )?;
        parts::enter_all(
            &mut self.indexed,
            &mut self.queue,
            &mut self.claims,
            &mut self.changes,
            list,
        );
        Ok(())
    }

    /// Hands out, for each key that changed since this was last called, the entry that the key had then,
    /// in the order of the first changes: none the first time. From now on changes are noted. It takes
    /// constant time, and no memory.
    pub fn take_changes(&mut self, alloc: Global) -> Changes<F>
        ensures once { IsDistinct same_key (keys_of result.items) }
        ensures list { result.items ≡ unwrap_or self.old.changes [] }
        ensures changes { self.new.changes ≡ Some [] }
        ensures table { self.new.table ≡ self.old.table }
        ensures pile { self.new.pile ≡ self.old.pile }
    {
        match self.changes.take(alloc) {
            Some(notes) => notes,
            None => Changes::new(alloc),
        }
    }

    /// Forgets what is noted. From now on changes are noted, and no key is noted yet. It takes constant
    /// time, and no memory.
    pub fn note_anew(&mut self, alloc: Global)
        ensures changes { self.new.changes ≡ Some [] }
        ensures table { self.new.table ≡ self.old.table }
        ensures pile { self.new.pile ≡ self.old.pile }
    {
        self.changes.begin(alloc);
    }

    /// Takes all keys, all claims and all notes away. Changes are noted from then on where they were. It
    /// takes no memory.
    pub fn clear(&mut self, alloc: Global)
        ensures entries { self.new.table.entries ≡ [] }
        ensures pending { self.new.pile.pending ≡ [] }
        ensures claims { self.new.pile.claims ≡ [] }
        ensures changes { self.new.changes ≡ option_map (λ _. []) self.old.changes }
    {
        self.indexed = Indexed::new(alloc);
        self.queue.clear();
        self.claims.clear();
        self.changes.clear();
    }

    /// The present keys with their functions, copied.
    pub fn copy_tables(&self, alloc: Global) -> Result<Tables<F>, Refused>
        ensures tables { IfOk result (λ tables. tables.table ≡ self.now.table) }
        ensures refused { IsOkUnless result NoMemory }
    {
        let indexed = self.indexed.copy(alloc)?;
        Ok(Tables::of(indexed))
    }

    /// The present keys with their functions. What is pending, claimed or noted is dropped.
    pub fn into_tables(self) -> Tables<F>
        ensures tables { result.table ≡ self.table }
    {
        let KeyedImage { indexed, .. } = self;
        Tables::of(indexed)
    }
}

/// The meet of both: it is of smaller rank, where it is another function.
fn fallen<F: EdgeFn>(old: F, f: F) -> F
    ensures meet { result ≡ F.edge.meet old f }
    ensures most { F.edge.rank old ≤ F.edge.height }
    ensures falls { F.eq result old ≡ false → F.edge.rank result < F.edge.rank old }
{
    // Each function that a program holds is proper.
    let _ = old.proper() && f.proper();
    old.meet(f)
}
