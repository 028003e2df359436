//! What looks planned and isn't read so.

/// What a line or a part of it looks like.
#[derive(Clone, Copy, Debug, PartialEq, Eq, PartialOrd, Ord)]
pub enum Look {
    /// A timestamp.
    Stamp,
    /// A planning line.
    Planning,
    /// A property drawer.
    Drawer,
    /// A block.
    Block,
    /// A clock.
    Clock,
    /// A clock that counts minutes.
    Minutes,
}

/// Something that looks planned and isn't read so.
#[derive(Clone, Copy, Debug, PartialEq, Eq, PartialOrd, Ord)]
pub struct Mark {
    /// Where its line begins in the text, in bytes.
    pub line_at: u32,
    /// Where it begins in its line, in bytes.
    pub place: usize,
    /// What it looks like.
    pub look: Look,
}
