//! Lines as a terminal is sent them.
ghost use Rattle.std.specs.Prelude.{◌≡◌, ◌++◌, [], ◌∷◌};
ghost use Rattle.std.specs.List.{flat_map};
ghost use Rattle.org_day.specs.Painted.{escape_of, painted_line, painted_span};
ghost use Rattle.org_day.specs.Results.{Adds, GivesItems};

use crate::line::{Line, Span};
use crate::role::Role;
use std::alloc::{AllocError, Global};

/// What letters stand on: where it isn't known, only colours that can be read on both.
#[derive(Clone, Copy, Debug, PartialEq, Eq)]
pub enum Background {
    Dark,
    Light,
    Unknown,
}

/// The bytes of lines, each with a line feed behind it: their texts, in the colours of their roles where there is a background.
pub fn paint_lines(
    alloc: Global,
    lines: &[Line],
    background: Option<Background>,
) -> Result<Vec<u8>, AllocError>
    ensures value { GivesItems result (flat_map (painted_line background) lines.now) }
{
    let mut out = Vec::new(alloc);
    for line in lines {
        push_line(&mut out, line, background)?;
    }
    Ok(out)
}

fn push_line(
    out: &mut Vec<u8>,
    line: &Line,
    background: Option<Background>,
) -> Result<(), AllocError>
    ensures value { Adds result out.old out.new (painted_line background line.now) }
{
    push_spans(out, line.spans.as_slice(), background)?;
    out.push(b'\n')?;
    Ok(())
}

fn push_spans(
    out: &mut Vec<u8>,
    spans: &[Span],
    background: Option<Background>,
) -> Result<(), AllocError>
    ensures value { Adds result out.old out.new (flat_map (painted_span background) spans.now) }
{
    for span in spans {
        push_span(out, span, background)?;
    }
    Ok(())
}

fn push_span(
    out: &mut Vec<u8>,
    span: &Span,
    background: Option<Background>,
) -> Result<(), AllocError>
    ensures value { Adds result out.old out.new (painted_span background span.now) }
{
    let escape = escape_of(span.role, background);
    out.extend_from_slice(escape.as_bytes())?;
    out.extend_from_slice(span.text.as_bytes())?;
    if !escape.is_empty() {
        out.extend_from_slice(b"\x1b[0m")?;
    }
    Ok(())
}

// What puts a terminal into the colour of a role (ECMA-48, "SGR").
fn escape_of(role: Role, background: Option<Background>) -> &'static str
    ensures value { result.now ≡ escape_of role background }
{
    match (role, background) {
        (Role::Plain, _) | (_, None) => "",
        (Role::Head, Some(_)) => "\x1b[1m",
        (Role::Dim, Some(_)) => "\x1b[2m",
        (Role::Now | Role::NowHead, Some(Background::Unknown)) => "\x1b[1m",
        (Role::Now, Some(Background::Dark)) => "\x1b[36m",
        (Role::Now, Some(Background::Light)) => "\x1b[34m",
        (Role::NowHead, Some(Background::Dark)) => "\x1b[1;36m",
        (Role::NowHead, Some(Background::Light)) => "\x1b[1;34m",
        (Role::Late, Some(Background::Dark)) => "\x1b[91m",
        (Role::Late, Some(Background::Light)) => "\x1b[31m",
        (Role::LateHead, Some(Background::Dark)) => "\x1b[1;91m",
        (Role::Late | Role::LateHead, Some(_)) => "\x1b[1;31m",
        (Role::Due, Some(Background::Dark)) => "\x1b[33m",
        (Role::Due, Some(Background::Light)) => "\x1b[35m",
        (Role::DueHead, Some(Background::Dark)) => "\x1b[1;33m",
        (Role::Due | Role::DueHead, Some(_)) => "\x1b[1;35m",
    }
}
