//! A record as the journal stores it.

/// A record: a kind and a body, of which the journal reads neither.
#[derive(Drop)]
pub struct RawRecord {
    pub kind: u8,
    pub body: Vec<u8>,
}
