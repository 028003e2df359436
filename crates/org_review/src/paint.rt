//! Colours of what is said of headings.

use org_base::Fault;
use org_day::Background;
use org_layout::pad;
use std::alloc::AllocError;

/// What a part of a line is.
#[derive(Clone, Copy)]
pub(crate) enum Role {
    Late,
    Due,
    Done,
}

/// Appends a text in a column of so many characters, in the colour of its role, if it has one and letters have colours; one space
/// stands behind it at least.
pub(crate) fn push_column(
    out: &mut String,
    text: &str,
    columns: u16,
    role: Option<Role>,
    background: Option<Background>,
) -> Result<(), Fault> {
    let escape = escape_of(role, background);
    out.push_str(escape)?;
    out.push_str(text)?;
    out.push_str(end_of(escape))?;
    push_room(out, text, columns)
}

/// Appends the spaces that fill the column of a text, one at least.
pub(crate) fn push_room(out: &mut String, text: &str, columns: u16) -> Result<(), Fault> {
    let room = usize::from(columns).saturating_sub(text.chars().count());
    pad(out, "", room)
}

/// What ends what an escape sequence begins.
pub(crate) fn end_of(escape: &str) -> &'static str {
    if escape.is_empty() { "" } else { "\x1b[0m" }
}

/// What begins the colour of a role, where letters have colours; the same ones that a day in sections has.
pub(crate) fn escape_of(role: Option<Role>, background: Option<Background>) -> &'static str {
    match (role, background) {
        (None, _) | (_, None) => "",
        (Some(Role::Late), Some(Background::Dark)) => "\x1b[91m",
        (Some(Role::Late), Some(Background::Light)) => "\x1b[31m",
        (Some(Role::Late), Some(Background::Unknown)) => "\x1b[1;31m",
        (Some(Role::Due), Some(Background::Dark)) => "\x1b[33m",
        (Some(Role::Due), Some(Background::Light)) => "\x1b[35m",
        (Some(Role::Due), Some(Background::Unknown)) => "\x1b[1;35m",
        (Some(Role::Done), Some(Background::Dark)) => "\x1b[32m",
        (Some(Role::Done), Some(Background::Light)) => "\x1b[34m",
        (Some(Role::Done), Some(Background::Unknown)) => "",
    }
}
