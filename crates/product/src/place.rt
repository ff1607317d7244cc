//! A place of a seed.

/// The place of a one in a seed: its row and its column, from 0. Places are ordered by row and then by column.
#[repr(C)]
#[derive(Clone, Copy, PartialEq, Eq, PartialOrd, Ord)]
pub struct Place {
    pub row: u16,
    pub column: u16,
}
