//! What parts of lines are.

/// What a part of a line says by its colour, beside its words; names of sections and times in the colour of what is in them.
#[derive(Clone, Copy, Debug, PartialEq, Eq)]
pub enum Role {
    Plain,
    Head,
    Dim,
    Late,
    LateHead,
    Due,
    DueHead,
    Now,
    NowHead,
}
