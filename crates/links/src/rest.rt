//! Rests between two looks at something that another thread may change.

/// A rest. It can't fail, and promises nothing of how long it is.
pub trait Rest {
    /// Rests a little.
    fn rest(&self);
}
