//! What an image has at a key.

/// What an image has at a key.
#[derive(Clone, Copy, PartialEq, Eq, Debug)]
pub struct Entry<F> {
    /// The key's function, if the key is present.
    pub function: Option<F>,
    /// Whether the key is pending, claimed or not.
    pub pending: bool,
}
