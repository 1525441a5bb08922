//! Small programs made by chance, for tests.
use std::alloc::{AllocError, Global};

/// What a statement of `f` may be: its parameter is `p` and its local `q`.
const IN_F: [&[u8]; 9] = [
    b"q = p + 1\n",
    b"q = mix p g\n",
    b"g = q\n",
    b"g = 3\n",
    b"branch out\n",
    b"call f q\n",
    b"return p\n",
    b"goto out\n",
    b"q = call h | k g\n",
];

/// What the statement of `h` may be, whose parameter and local have the same names.
const IN_H: [&[u8]; 4] = [b"q = p - 1\n", b"q = g\n", b"g = p\n", b"g = 4\n"];

/// What a statement of `main` may be: its locals are `a` and `b`.
const IN_MAIN: [&[u8]; 16] = [
    b"a = 1\n",
    b"a = b\n",
    b"b = a + 1\n",
    b"b = g - 2\n",
    b"a = ?\n",
    b"b = mix a g\n",
    b"g = a\n",
    b"branch out\n",
    b"goto out\n",
    b"a = call f b\n",
    b"call f g\n",
    b"skip\n",
    b"b = call f | h a\n",
    b"call h | k | f b\n",
    b"a = call k | h g\n",
    b"g = call h | f a\n",
];

/// A text with a global, three procedures of one parameter, of which the first may call itself and
/// the others, and `main`. They have a few statements that the seed picks, among them calls of one to
/// three procedures: equal seeds give equal texts.
pub(crate) fn text(alloc: Global, seed: u64) -> Result<Vec<u8>, AllocError> {
    let mut text = Vec::new(alloc);
    text.extend_from_slice(b"global g\nproc f p\nvar q\n")?;
    let next = add_lines(&IN_F, 3, seed, &mut text)?;
    text.extend_from_slice(b"at out\nreturn q\nend\nproc h p\nvar q\n")?;
    let next = add_lines(&IN_H, 1, next, &mut text)?;
    text.extend_from_slice(b"return q\nend\nproc k p\nreturn p\nend\n")?;
    text.extend_from_slice(b"proc main\nvar a\nvar b\n")?;
    add_lines(&IN_MAIN, 4, next, &mut text)?;
    text.extend_from_slice(b"at out\nend\n")?;
    Ok(text)
}

/// Adds so many of the lines, and answers the seed of what comes next.
fn add_lines(
    lines: &[&[u8]],
    count: u32,
    seed: u64,
    text: &mut Vec<u8>,
) -> Result<u64, AllocError> {
    let mut state = seed;
    for _ in 0..count {
        // a step of the linear congruential generator of Knuth's MMIX
        state = state
            .wrapping_mul(6_364_136_223_846_793_005)
            .wrapping_add(1_442_695_040_888_963_407);
        if let Some(line) = lines.get((state >> 33) as usize % lines.len().max(1)) {
            text.extend_from_slice(line)?;
        }
    }
    Ok(state)
}
