//! The automaton of the grammar. Each state that it can be in has a way to the end of some expression, so the longest
//! front of a text that begins an expression ends where no step is left.
ghost use Rattle.std.specs.Prelude.{◌≡◌};
ghost use Rattle.org_expression.specs.Automaton.{begin_step, is_final, name_step, next_step, sign_step, step, term_step, value_step};

use crate::state::{Part, State};
use org_base::is_tag_char;

// A sign.
fn sign_to(part: Part, c: char) -> Option<State>
    ensures value { result ≡ sign_step part c }
{
    match c {
        '+' | '-' => Some(State::Signed(part)),
        _ => None,
    }
}

// The first character of a term.
fn term_to(part: Part, c: char) -> Option<State>
    ensures value { result ≡ term_step part c }
{
    match c {
        '\\' => Some(State::Escaped(part)),
        '{' if part == Part::InTags => Some(State::InPattern),
        _ if is_tag_char(c) => Some(State::InName(part)),
        _ => None,
    }
}

// A sign, or the first character of a term.
fn begin_to(part: Part, c: char) -> Option<State>
    ensures value { result ≡ begin_step part c }
{
    sign_to(part, c).or(term_to(part, c))
}

// What stands after a whole term.
fn next_to(part: Part, c: char) -> Option<State>
    ensures value { result ≡ next_step part c }
{
    match c {
        '+' | '-' => Some(State::Signed(part)),
        '&' | '|' => Some(State::Linked(part)),
        '/' if part == Part::InTags => Some(State::AfterSlash),
        _ => None,
    }
}

// The first character of a value that is no pattern.
fn value_to(c: char) -> Option<State>
    ensures value { result ≡ value_step c }
{
    match c {
        '-' => Some(State::AfterMinus),
        '"' => Some(State::InText),
        _ if c.is_ascii_digit() => Some(State::InWhole(1)),
        _ => None,
    }
}

// What stands after the first character of a name.
fn name_to(part: Part, c: char) -> Option<State>
    ensures value { result ≡ name_step part c }
{
    match c {
        '\\' => Some(State::Escaped(part)),
        '<' if part == Part::InTags => Some(State::AfterLess),
        '=' if part == Part::InTags => Some(State::AfterEqual),
        '>' if part == Part::InTags => Some(State::AfterGreater),
        _ if is_tag_char(c) => Some(State::InName(part)),
        _ => next_to(part, c),
    }
}

// What a front ends in, once one more character is there; `None` where no expression begins so.
pub(crate) fn step(state: State, c: char) -> Option<State>
    ensures value { result ≡ step state c }
{
    match state {
        State::Start if c == '/' => Some(State::AfterSlash),
        State::Start => begin_to(Part::InTags, c),
        State::Linked(part) => begin_to(part, c),
        State::Signed(part) => term_to(part, c),
        State::InName(part) => name_to(part, c),
        State::Escaped(part) if c == '-' => Some(State::InName(part)),
        State::Escaped(_) => None,
        State::InPattern if c == '}' => Some(State::Closed),
        State::InPattern => Some(State::InPattern),
        State::Closed => next_to(Part::InTags, c),
        State::AfterLess if c == '=' => Some(State::AfterCompare),
        State::AfterLess if c == '>' => Some(State::AfterEqual),
        State::AfterGreater if c == '=' => Some(State::AfterCompare),
        State::AfterLess | State::AfterGreater | State::AfterCompare => value_to(c),
        State::AfterEqual if c == '{' => Some(State::InPattern),
        State::AfterEqual => value_to(c),
        State::AfterMinus if c.is_ascii_digit() => Some(State::InWhole(1)),
        State::AfterMinus => None,
        State::InWhole(n) if c.is_ascii_digit() && n < 18 => Some(State::InWhole(n + 1)),
        State::InWhole(_) if c.is_ascii_digit() => None,
        State::InWhole(_) if c == '.' => Some(State::AfterPoint),
        State::InWhole(_) => next_to(Part::InTags, c),
        State::AfterPoint if c.is_ascii_digit() => Some(State::InFraction(1)),
        State::AfterPoint => None,
        State::InFraction(n) if c.is_ascii_digit() && n < 9 => Some(State::InFraction(n + 1)),
        State::InFraction(_) if c.is_ascii_digit() => None,
        State::InFraction(_) => next_to(Part::InTags, c),
        State::InText if c == '"' => Some(State::Closed),
        State::InText => Some(State::InText),
        State::AfterSlash if c == '!' => Some(State::AfterBang),
        State::AfterSlash | State::AfterBang => begin_to(Part::InTodo, c),
    }
}

// Whether an expression may end here.
pub(crate) fn is_final(state: State) -> bool
    ensures value { result ≡ is_final state }
{
    matches!(
        state,
        State::InName(_)
            | State::Closed
            | State::InWhole(_)
            | State::InFraction(_)
            | State::AfterBang
    )
}
