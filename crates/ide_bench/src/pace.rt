//! The machine's own pace: writes to places picked by chance.
use crate::figures::Figure;
use crate::records::Sizes;
use anyhow::Result;
use std::alloc::Global;

/// The bytes of a word.
const WORD: usize = 8;

/// A table that was written to, and its first word.
#[derive(Clone, Copy)]
pub(crate) struct Scattered {
    words: usize,
    first: u64,
}

impl Scattered {
    /// Each number by its name.
    pub(crate) fn figures(self) -> [Figure; 2] {
        [("words", self.words as u64), ("first", self.first)]
    }
}

/// Writes a word to so many places of a table of about that many bytes, each picked by chance. The first word
/// is read then, so that no write can be left out.
pub(crate) fn scatter(alloc: Global, sizes: Sizes) -> Result<Scattered> {
    let words = sizes.length / WORD + 1;
    let mut table: Vec<u64> = Vec::with_capacity(alloc, words)?;
    table.resize(words, 0)?;
    let mut place = 1_u64;
    for _ in 0..sizes.count {
        place = place_after(place);
        table[(place >> 33) as usize % words] = place;
    }
    let first = table[0];
    Ok(Scattered { words, first })
}

/// The next number of a linear congruential generator, with the constants of Knuth's MMIX (*The Art of Computer
/// Programming*, volume 2, section 3.3.4, table 1).
fn place_after(place: u64) -> u64 {
    place
        .wrapping_mul(6_364_136_223_846_793_005)
        .wrapping_add(1_442_695_040_888_963_407)
}
