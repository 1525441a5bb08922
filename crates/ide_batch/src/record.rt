//! Records: what a store keeps of each change of its image.
use ide_wire::Key;

/// A change of the image: a program is loaded, a procedure becomes a root, or keys change.
#[derive(Drop)]
pub enum Record<F> {
    /// The text of the program.
    Load(Vec<u8>),
    /// The name of the procedure.
    Root(Vec<u8>),
    /// Each key that changed, ascending, with its function and whether it is pending.
    Batch(Vec<(Key, F, bool)>),
}
