//! A heading line with another cookie, and without its cookie or its keyword.
ghost use Rattle.std.specs.Prelude.{◌==◌, ◌≡◌, ◌+◌, ◌≤◌, IfSome, length};
ghost use Rattle.std.specs.List.{prefix_len};
ghost use Rattle.org_amend.specs.HeadChanges.{behind_space, blanks_at, cookie_before, cookie_behind, end_of, is_blank_byte, with_cookie, with_signs, without_cookie, without_keyword, words_at};
ghost use Rattle.org_base.specs.Results.{GivesItems};
ghost use Rattle.org_base.specs.Spans.{IsInside};

use org_base::Span;
use org_class::leading_stars;
use std::alloc::{AllocError, Global};

// The line with the cookie of a priority in the place of its own, else behind its keyword, else before its words.
pub(crate) fn with_cookie(
    alloc: Global,
    line: &[u8],
    cookie: Option<Span>,
    keyword: Option<Span>,
    priority: &str,
) -> Result<Vec<u8>, AllocError>
    requires cookie { IfSome cookie (IsInside line.now) }
    requires keyword { IfSome keyword (IsInside line.now) }
    ensures value { GivesItems result (with_cookie line.now cookie keyword priority.now) }
{
    if let Some(cookie) = cookie {
        let signs = Signs {
            before: "[#",
            behind: "]",
        };
        let own = Part {
            from: cookie.at as usize,
            to: end_of(cookie),
        };
        return with_word(alloc, line, own, priority, signs);
    }
    match keyword {
        Some(keyword) => behind_word(alloc, line, end_of(keyword), priority),
        None => before_word(alloc, line, words_at(line), priority),
    }
}

// The cookie of a priority behind the word that ends at a place.
fn behind_word(
    alloc: Global,
    line: &[u8],
    place: usize,
    priority: &str,
) -> Result<Vec<u8>, AllocError>
    requires within { place ≤ length line.now }
    ensures value { GivesItems result (cookie_behind line.now place priority.now) }
{
    let signs = Signs {
        before: " [#",
        behind: "]",
    };
    with_word(alloc, line, at(place), priority, signs)
}

// The same before the word that begins at a place.
fn before_word(
    alloc: Global,
    line: &[u8],
    place: usize,
    priority: &str,
) -> Result<Vec<u8>, AllocError>
    requires within { place ≤ length line.now }
    ensures value { GivesItems result (cookie_before line.now place priority.now) }
{
    let signs = Signs {
        before: "[#",
        behind: "] ",
    };
    with_word(alloc, line, at(place), priority, signs)
}

// What stands around the priority of a cookie.
#[derive(Clone, Copy)]
struct Signs {
    before: &'static str,
    behind: &'static str,
}

// A part of a line, from one place up to another.
#[derive(Clone, Copy)]
struct Part {
    from: usize,
    to: usize,
}

// Nothing, at a place.
fn at(place: usize) -> Part
    ensures value { result ≡ record { from = place; to = place } }
{
    Part {
        from: place,
        to: place,
    }
}

// Where a part of a line ends.
fn end_of(span: Span) -> usize
    ensures value { result ≡ end_of span }
{
    span.at as usize + span.len as usize
}

// A line with a word between two signs in the place of a part.
fn with_word(
    alloc: Global,
    line: &[u8],
    part: Part,
    word: &str,
    signs: Signs,
) -> Result<Vec<u8>, AllocError>
    requires from { part.from ≤ length line.now }
    requires to { part.to ≤ length line.now }
    ensures value { GivesItems result (with_signs line.now part word.now signs) }
{
    let mut new = Vec::from_slice(alloc, &line[..part.from])?;
    new.extend_from_slice(signs.before.as_bytes())?;
    new.extend_from_slice(word.as_bytes())?;
    new.extend_from_slice(signs.behind.as_bytes())?;
    new.extend_from_slice(&line[part.to..])?;
    Ok(new)
}

// Where the first word behind the stars and the spaces that follow them begins, or would.
fn words_at(line: &[u8]) -> usize
    ensures value { result ≡ words_at line.now }
    ensures within { result ≤ length line.now }
{
    let stars = leading_stars(line);
    stars + spaces_at_front(&line[stars..])
}

fn spaces_at_front(text: &[u8]) -> usize
    ensures value { result ≡ prefix_len (λ b. b == 32) text.now }
    ensures within { result ≤ length text.now }
{
    text.iter().take_while(|byte| **byte == b' ').count()
}

// How many spaces and tabs stand at a place.
fn blanks_at(line: &[u8], at: usize) -> usize
    requires within { at ≤ length line.now }
    ensures value { result ≡ blanks_at line.now at }
    ensures within { at + result ≤ length line.now }
{
    leading_blanks(&line[at..])
}

fn leading_blanks(text: &[u8]) -> usize
    ensures value { result ≡ prefix_len is_blank_byte text.now }
    ensures within { result ≤ length text.now }
{
    text.iter().take_while(|byte| is_blank_byte(**byte)).count()
}

// A space or a tab.
fn is_blank_byte(byte: u8) -> bool
    ensures value { result ≡ is_blank_byte byte }
{
    byte == b' ' || byte == b'\t'
}

// The line without its cookie and one space behind it.
pub(crate) fn without_cookie(
    alloc: Global,
    line: &[u8],
    cookie: Option<Span>,
) -> Result<Vec<u8>, AllocError>
    requires within { IfSome cookie (IsInside line.now) }
    ensures value { GivesItems result (without_cookie line.now cookie) }
{
    let Some(cookie) = cookie else {
        return Vec::from_slice(alloc, line);
    };
    let mut new = Vec::from_slice(alloc, &line[..cookie.at as usize])?;
    new.extend_from_slice(&line[behind_space(line, end_of(cookie))..])?;
    Ok(new)
}

// Behind a space at a place, if one stands there.
fn behind_space(line: &[u8], at: usize) -> usize
    requires within { at ≤ length line.now }
    ensures value { result ≡ behind_space line.now at }
    ensures within { result ≤ length line.now }
{
    if at < line.len() && line[at] == b' ' {
        at + 1
    } else {
        at
    }
}

// The line with one space in the place of its keyword and what is blank around it.
pub(crate) fn without_keyword(
    alloc: Global,
    line: &[u8],
    keyword: Option<Span>,
) -> Result<Vec<u8>, AllocError>
    requires within { IfSome keyword (IsInside line.now) }
    ensures value { GivesItems result (without_keyword line.now keyword) }
{
    let Some(keyword) = keyword else {
        return Vec::from_slice(alloc, line);
    };
    let end = end_of(keyword);
    let mut new = Vec::from_slice(alloc, &line[..leading_stars(line)])?;
    new.extend_from_slice(b" ")?;
    new.extend_from_slice(&line[end + blanks_at(line, end)..])?;
    Ok(new)
}
