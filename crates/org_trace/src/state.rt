//! Lines that say that a keyword changed.
ghost use Rattle.std.specs.Prelude.{◌≡◌, ◌<◌, length, option_copied, IfSome};
ghost use Rattle.org_stamp.specs.Line.{stamps_of};
ghost use Rattle.org_trace.specs.State.{change_at, change_in, change_to, first_inactive, item_text, keyword_before, quote_place, quoted_keyword, state_change};

use crate::entry::StateChange;
use memchr::memchr;
use org_base::words::trim_start;
use org_settings::Settings;
use org_stamp::{Stamp, stamps_in};

// The change that a line says: it is an item `- State "DONE" from "TODO" ..`, where the first keyword is one of the file.
pub(crate) fn state_change(settings: &Settings, line: &[u8]) -> Option<StateChange>
    ensures value { result ≡ state_change settings.now.keywords line.now }
{
    let text = item_text(line)?;
    change_in(settings, text)
}

// What stands behind the first quotation mark of such an item.
fn item_text(line: &[u8]) -> Option<&[u8]>
    ensures value { option_copied result ≡ item_text line.now }
{
    let item = trim_start(line);
    if !item.starts_with(b"- ") {
        return None;
    }
    let text = trim_start(&item[2..]);
    if !text.starts_with(b"State \"") {
        return None;
    }
    Some(&text[7..])
}

// The change of a text that begins with the keyword and a quotation mark.
fn change_in(settings: &Settings, text: &[u8]) -> Option<StateChange>
    ensures value { result ≡ change_in settings.now.keywords text.now }
{
    match quote_place(text) {
        Some(end) => change_at(settings, text, end),
        None => None,
    }
}

// The same where that mark stands at a place.
fn change_at(settings: &Settings, text: &[u8], end: usize) -> Option<StateChange>
    requires within { end < length text.now }
    ensures value { result ≡ change_at settings.now.keywords text.now end }
{
    match settings.keyword_place(&text[..end]) {
        Some(to) => Some(change_to(settings, &text[end + 1..], to)),
        None => None,
    }
}

// The change to a keyword, with what is said behind it.
fn change_to(settings: &Settings, rest: &[u8], to: usize) -> StateChange
    ensures value { result ≡ change_to settings.now.keywords rest.now to }
{
    StateChange {
        to,
        from: keyword_before(settings, rest),
    }
}

// The place of the keyword that stands behind the word `from` between quotation marks.
fn keyword_before(settings: &Settings, text: &[u8]) -> Option<usize>
    ensures value { result ≡ keyword_before settings.now.keywords text.now }
{
    let text = trim_start(text);
    if !text.starts_with(b"from") {
        return None;
    }
    let text = trim_start(&text[4..]);
    if !text.starts_with(b"\"") {
        return None;
    }
    quoted_keyword(settings, &text[1..])
}

// The place of the keyword up to the next quotation mark.
fn quoted_keyword(settings: &Settings, text: &[u8]) -> Option<usize>
    ensures value { result ≡ quoted_keyword settings.now.keywords text.now }
{
    let end = quote_place(text)?;
    settings.keyword_place(&text[..end])
}

// Where the next quotation mark stands.
fn quote_place(text: &[u8]) -> Option<usize>
    ensures value { result ≡ quote_place text.now }
    ensures within { IfSome result (λ place. place < length text.now) }
{
    memchr(b'"', text)
}

// The first stamp of a line that is inactive.
pub(crate) fn first_inactive(line: &[u8]) -> Option<Stamp>
    ensures value { result ≡ first_inactive (stamps_of line.now) }
{
    for found in stamps_in(line) {
        if !found.stamp.active {
            return Some(found.stamp);
        }
    }
    None
}
