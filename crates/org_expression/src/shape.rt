//! Shapes of terms.

// What the term that is being read is.
#[derive(Clone, Copy, PartialEq, Eq)]
pub(crate) enum Shape {
    AsTag,
    AsFound,
    AsNumber,
    AsQuoted,
    AsPattern,
}
