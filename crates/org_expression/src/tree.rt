//! Expressions as they are written.
use crate::term_text::TermText;
use std::marker::Model;

/// What joins a term to the one before it: its sign alone, `&` or `|`.
#[derive(Clone, Copy, Debug, PartialEq, Eq)]
pub enum Link {
    Direct,
    And,
    Or,
}

/// What stands before a term.
#[derive(Clone, Copy, Debug, PartialEq, Eq)]
pub enum Sign {
    Unsigned,
    Plus,
    Minus,
}

/// The operators `<`, `=`, `>`, `<=`, `>=` and `<>`.
#[derive(Clone, Copy, Debug, PartialEq, Eq)]
pub enum Op {
    Less,
    Equal,
    Greater,
    AtMost,
    AtLeast,
    Differs,
}

/// Which parts there are: tags alone, keywords after `/`, keywords after `/!`.
#[derive(Clone, Copy, Debug, PartialEq, Eq)]
pub enum Kind {
    Tags,
    Todo,
    Open,
}

/// A value as it is written: a number with a minus or none and its digits before and after the point, a quoted
/// text, a pattern.
#[derive(Debug, Drop)]
pub enum Value {
    Number(bool, TermText, TermText),
    Quoted(TermText),
    Pattern(TermText),
}

/// A term as it is written: a tag, a pattern for tags, a comparison of a named property.
#[derive(Debug, Drop)]
pub enum Term {
    Tag(TermText),
    Found(TermText),
    Compare(TermText, Op, Value),
}

/// A term as it is written, with what stands before it.
#[derive(Debug, Drop)]
pub struct Item {
    pub link: Link,
    pub sign: Sign,
    pub term: Term,
}

/// An expression as it is written, which contracts see as that of the grammar. Without keywords `todo` doesn't count.
#[derive(Debug, Drop)]
pub struct Expression {
    pub kind: Kind,
    pub tags: Vec<Item>,
    pub todo: Vec<Item>,
}

impl Model for Expression {
    ghost use Rattle.org_expression.specs.Grammar.{Expr};
    ghost use Rattle.org_expression.specs.Tree.{expr_of};

    ghost Value = { Expr };

    ghost view = { λ w. expr_of w.kind w.tags.items w.todo.items };
}
