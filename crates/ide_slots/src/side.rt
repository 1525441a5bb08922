//! The two sides.

/// One of the two disks, A or B.
#[derive(Clone, Copy, PartialEq, Eq, Debug)]
pub enum Side {
    First,
    Second,
}
