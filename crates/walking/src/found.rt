//! What a walk finds.

/// The connecting checks of a cluster, as far as they matter: none, one, or more than that.
#[derive(Clone, Copy, PartialEq, Eq, Debug)]
pub enum Connecting {
    Absent,
    One(u16),
    Several,
}
