//! The claims of hands: one place for each hand from 0 on, as far as a hand was in use.
ghost use Rattle.std.specs.Prelude.{◌≡◌, ℕ, ◌<◌, false, filter, length, nat_eq, IsSome, IsTrue, OnOk};
ghost use Rattle.std.specs.Option.{is_some, option_copied};
ghost use Rattle.ide_image.specs.Worklist.{MarksIn, PutsIn, SetsDoneIn, claim_in, marked};
ghost use Rattle.ide_image.specs.Notes.{ended_key};

use crate::claim::Claim;
use ide_wire::Key;
use std::alloc::AllocError;

/// Makes a place for the hand.
pub(crate) fn grow<T: Drop>(
    claims: &mut Vec<Option<Claim<T>>>,
    hand: usize,
) -> Result<(), AllocError>
    requires { hand < 64 }
    ensures room { OnOk result (hand < length claims.new.items) }
    ensures same { (h : ℕ) → claim_in claims.new.items h ≡ claim_in claims.old.items h }
{
    for _ in claims.len()..hand + 1 {
        claims.push(None)?;
    }
    Ok(())
}

/// Sets the hand's place.
pub(crate) fn set_claim<T: Drop>(claims: &mut Vec<Option<Claim<T>>>, hand: usize, claim: Claim<T>)
    requires { hand < length claims.old.items }
    ensures { PutsIn hand (Some claim) claims.old.items claims.new.items }
{
    claims[hand] = Some(claim);
}

/// Empties the hand's place.
pub(crate) fn take_claim<T: Drop>(
    claims: &mut Vec<Option<Claim<T>>>,
    hand: usize,
) -> Option<Claim<T>>
    ensures taken { result ≡ claim_in claims.old.items hand }
    ensures after { PutsIn hand None claims.old.items claims.new.items }
    ensures long { length claims.new.items ≡ length claims.old.items }
{
    if hand < claims.len() {
        claims[hand].take()
    } else {
        None
    }
}

/// Says how many parts of the hand's task are done.
pub(crate) fn set_done<T: Drop>(claims: &mut Vec<Option<Claim<T>>>, hand: usize, count: usize)
    ensures { SetsDoneIn hand count claims.old.items claims.new.items }
{
    if hand < claims.len() {
        if let Some(claim) = &mut claims[hand] {
            claim.done = count;
        }
    }
}

/// Marks the claim as lowered, if it is of the key.
fn mark_claim<T>(claim: &mut Option<Claim<T>>, key: Key)
    ensures { claim.new ≡ marked key claim.old }
{
    if let Some(claim) = claim {
        if claim.key == key {
            claim.lowered = true;
        }
    }
}

/// Marks the claims of the key as lowered.
pub(crate) fn mark<T: Drop>(claims: &mut Vec<Option<Claim<T>>>, key: Key)
    ensures { MarksIn key claims.old.items claims.new.items }
{
    for claim in claims.iter_mut() {
        mark_claim(claim, key);
    }
}

/// The hand's claim.
pub(crate) fn claim_of<T>(claims: &[Option<Claim<T>>], hand: usize) -> Option<&Claim<T>>
    ensures { option_copied result ≡ claim_in claims.now hand }
{
    claims.get(hand)?.as_ref()
}

/// The key that the end of the hand's claim takes out of the pending ones.
pub(crate) fn ended_key<T>(claims: &[Option<Claim<T>>], hand: usize) -> Option<Key>
    ensures { result ≡ ended_key (claim_in claims.now hand) }
{
    let claim = claim_of(claims, hand)?;
    if claim.lowered { None } else { Some(claim.key) }
}

/// Whether a hand other than this one has a claim.
pub(crate) fn claimed_elsewhere<T>(claims: &[Option<Claim<T>>], hand: usize) -> bool
    ensures some { IsTrue result → (h : ℕ) × (nat_eq hand h ≡ false) × IsSome (claim_in claims.now h) }
    ensures none { result ≡ false → (h : ℕ) → nat_eq hand h ≡ false → claim_in claims.now h ≡ None }
{
    for (other, claim) in claims.iter().enumerate() {
        if other != hand && claim.is_some() {
            return true;
        }
    }
    false
}

/// How many hands have a claim.
pub(crate) fn claim_count<T>(claims: &[Option<Claim<T>>]) -> usize
    ensures { result ≡ length (filter is_some claims.now) }
{
    claims.iter().filter(|claim| claim.is_some()).count()
}
