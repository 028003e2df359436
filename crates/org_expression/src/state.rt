//! States of the automaton.

// A part of an expression: before the slash, or after it.
#[derive(Clone, Copy, PartialEq, Eq)]
pub(crate) enum Part {
    InTags,
    InTodo,
}

// What a front of an expression ends in.
#[derive(Clone, Copy, PartialEq, Eq)]
pub(crate) enum State {
    Start,
    Linked(Part),
    Signed(Part),
    InName(Part),
    Escaped(Part),
    InPattern,
    Closed,
    AfterLess,
    AfterGreater,
    AfterCompare,
    AfterEqual,
    AfterMinus,
    InWhole(u8),
    AfterPoint,
    InFraction(u8),
    InText,
    AfterSlash,
    AfterBang,
}
