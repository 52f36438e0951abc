/// Which bound is asked for.
#[derive(Clone, Copy, Debug, PartialEq, Eq)]
pub enum Side {
    /// What may be accepted.
    Upper,
    /// What must be accepted.
    Lower,
}
