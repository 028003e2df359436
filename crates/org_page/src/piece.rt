//! The pieces of a page.

/// An attribute of a tag: a name of the program's, and a value, which may be any text.
#[derive(Debug, Drop)]
pub struct Attribute {
    pub name: &'static str,
    pub value: String,
}

/// The title of a heading, where it leads, and whether the heading is done.
#[derive(Debug, Drop)]
pub struct Title {
    pub words: String,
    pub link: String,
    pub is_done: bool,
}

/// A piece of a page.
#[derive(Debug, Drop)]
pub enum Piece {
    /// A tag of a name of the program's, with attributes.
    Tag(&'static str, Vec<Attribute>),
    /// Words, which may be any text.
    Content(String),
    /// A title with tags of its own around it.
    Titled(Title),
}
