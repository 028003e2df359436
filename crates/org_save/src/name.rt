//! The names of a replacement.

/// One of the files of a replacement.
#[derive(Clone, Copy, Debug, PartialEq, Eq)]
pub enum Name {
    /// The file whose text is replaced.
    Target,
    /// The temporary file in the same folder, which takes its place.
    Temporary,
    /// The file in the same folder that keeps what another program wrote meanwhile.
    Rescue,
}
