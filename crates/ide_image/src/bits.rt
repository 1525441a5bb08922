//! A bit for each slot.
ghost use Rattle.std.specs.Prelude.{◌≡◌, ◌≢◌, ℕ, ◌+◌, ◌*◌, ◌/◌, ◌<◌, [], true, length, max, nat_eq, OnErr, OnOk};
ghost use Rattle.std.specs.Int.{bit_at};
ghost use Rattle.ide_image.specs.Bits.{bit_in};
ghost use Rattle.ide_image.specs.Queue.{SameMarks, SetsMark};

use std::alloc::{AllocError, Global};
use std::marker::Model;

/// A bit for each of the first slots, 64 in a word: a slot behind them has none that is set. Contracts see the words.
#[derive(Drop)]
pub(crate) struct Bits {
    words: Vec<u64>,
}

impl Model for Bits {
    ghost use Rattle.std.specs.Prelude.{List, ℕ};

    ghost Value = { List ℕ };

    ghost view = { λ bits. bits.words.items };
}

impl Bits {
    /// No bit that is set. It allocates nothing.
    pub(crate) fn new(alloc: Global) -> Self
        ensures { result ≡ [] }
    {
        Bits {
            words: Vec::new(alloc),
        }
    }

    /// Whether the slot's bit is set.
    #[inline(always)]
    pub(crate) fn get(&self, slot: usize) -> bool
        ensures { result ≡ bit_in self.now slot }
    {
        match self.words.get(slot / 64) {
            Some(word) => (*word >> (slot % 64)) & 1 == 1,
            None => false,
        }
    }

    /// Sets the slot's bit, or clears it: then the slot need not have one.
    #[inline(always)]
    pub(crate) fn set(&mut self, slot: usize, bit: bool)
        requires there { bit ≡ true → slot < 64 * length self.old }
        ensures set { SetsMark slot bit (bit_in self.old) (bit_in self.new) }
        ensures len { length self.new ≡ length self.old }
    {
        if let Some(word) = self.words.get_mut(slot / 64) {
            *word = with_bit(*word, slot % 64, bit);
        }
    }

    /// Makes a bit for each of the first slots, up to this count: those that are new are not set.
    pub(crate) fn cover(&mut self, count: usize) -> Result<(), AllocError>
        ensures same { SameMarks (bit_in self.old) (bit_in self.new) }
        ensures len { OnOk result (length self.new ≡ max (length self.old) ((count + 63) / 64)) }
        ensures err { OnErr result (self.new ≡ self.old) }
    {
        let count = count.div_ceil(64);
        if self.words.len() < count {
            self.words.resize(count, 0)?;
        }
        Ok(())
    }

    /// Forgets all bits. It takes no memory, and gives none up.
    pub(crate) fn clear(&mut self)
        ensures { self.new ≡ [] }
    {
        self.words.clear();
    }
}

/// The word with the bit at that place set or cleared.
#[inline(always)]
fn with_bit(word: u64, place: usize, bit: bool) -> u64
    requires { place < 64 }
    ensures own { nat_eq (bit_at result place) 1 ≡ bit }
    ensures others { (n : ℕ) → n < 64 → n ≢ place → bit_at result n ≡ bit_at word n }
{
    let mask = 1 << place;
    if bit { word | mask } else { word & !mask }
}
