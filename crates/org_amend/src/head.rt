//! The heading line of a new heading.
ghost use Rattle.std.specs.Prelude.{◌≡◌, ◌<◌, ◌≤◌, ◌^◌, IfSome, IsOkUnless, length, replicate};
ghost use Rattle.std.specs.List.{All, list_any};
ghost use Rattle.std.specs.Option.{option_copied};
ghost use Rattle.org_amend.specs.Heads.{GivesHead, all_tags_text, blamed, cookie_text, head_line, head_text, is_break, is_line_of, lost_of, lost_part, same_cookie, same_part, same_parts, same_title, tags_text, word_text, words_of};
ghost use Rattle.org_base.specs.Codes.{memory_fault};
ghost use Rattle.org_base.specs.Results.{Gives, GivesText, Writes, lent_in};
ghost use Rattle.org_base.specs.Spans.{IsInside};
ghost use Rattle.org_head.specs.Cookie.{cookie_value};
ghost use Rattle.org_head.specs.Head.{AreInside};

use org_base::{Fault, Span};
use org_head::{Head, part, read_head};
use org_settings::Settings;
use org_text::MAX_BYTES;
use std::alloc::{AllocError, Global};

/// What the line of a new heading is to say.
#[derive(Clone, Copy, Debug)]
pub struct NewHead<'a> {
    /// The number of its stars.
    pub level: usize,
    /// Its keyword, one of the file's.
    pub keyword: Option<&'a str>,
    /// The priority of its cookie.
    pub priority: Option<&'a str>,
    /// Its title.
    pub title: &'a str,
    /// Its tags.
    pub tags: &'a [&'a str],
}

/// What of a new heading would be read as something else.
#[derive(Clone, Copy, Debug, PartialEq, Eq)]
pub enum Unreadable {
    /// The keyword is none of the file's.
    Keyword,
    /// The priority is none.
    Priority,
    /// A tag isn't one word of letters, digits, `_`, `@`, `#` and `%`.
    Tags,
    /// The dates can't stand on one planning line.
    Dates,
    /// The body has a heading, a setting, planning, properties or a clock, or the whole would be longer than a text may be.
    Body,
    /// The title is empty, has an end of a line or white space at its ends, begins with a keyword, a cookie or `COMMENT`, or
    /// ends with tags; or the line would be longer than a text may be.
    Title,
    /// The name of a property isn't one word, or ends in `+`, or the value isn't one line.
    Property,
}

/// The heading line of a new heading, which ends so: in a file with these settings it is read as just this keyword, this cookie,
/// this title and these tags, and without `COMMENT`. Else the answer is what would be read otherwise. Out of memory is the only
/// refusal.
#[tactic(auto, unfolding(crate::specs::Heads::head_line))]
pub fn head_line(
    alloc: Global,
    settings: &Settings,
    head: &NewHead<'_>,
    end: &str,
) -> Result<Result<String, Unreadable>, Fault>
    requires end { length end.now ≤ 2 }
    ensures value { GivesHead result (head_line settings.now (words_of head.now) end.now) }
    ensures memory { IsOkUnless result memory_fault }
{
    let mut line = head_text(alloc, head)?;
    if !is_line_of(head, line.as_bytes()) {
        return Ok(Err(Unreadable::Title));
    }
    line.push_str(end)?;
    match lost_of(alloc, settings, head, line.as_bytes())? {
        Some(why) => Ok(Err(why)),
        None => Ok(Ok(line)),
    }
}

// The heading line of these words.
fn head_text(alloc: Global, head: &NewHead<'_>) -> Result<String, AllocError>
    ensures value { GivesText result (head_text (words_of head.now)) }
{
    let mut text = stars(alloc, head.level)?;
    push_word(&mut text, head.keyword)?;
    push_cookie(&mut text, head.priority)?;
    text.push_str(" ")?;
    text.push_str(head.title)?;
    push_all_tags(&mut text, head.tags)?;
    Ok(text)
}

fn stars(alloc: Global, level: usize) -> Result<String, AllocError>
    ensures value { GivesText result (replicate level 42) }
{
    let mut stars = String::new(alloc);
    for _star in 0..level {
        stars.push_str("*")?;
    }
    Ok(stars)
}

// Puts a word behind a space at the end, if there is one.
fn push_word(text: &mut String, word: Option<&str>) -> Result<(), AllocError>
    ensures ok { Writes result text.old text.new (word_text (option_copied word.entry)) }
{
    let Some(word) = word else {
        return Ok(());
    };
    text.push_str(" ")?;
    text.push_str(word)?;
    Ok(())
}

// Puts the cookie of a priority behind a space at the end, if there is one.
fn push_cookie(text: &mut String, priority: Option<&str>) -> Result<(), AllocError>
    ensures ok { Writes result text.old text.new (cookie_text (option_copied priority.entry)) }
{
    let Some(priority) = priority else {
        return Ok(());
    };
    text.push_str(" [#")?;
    text.push_str(priority)?;
    text.push_str("]")?;
    Ok(())
}

// Puts tags behind a space and a colon at the end, if there is one.
fn push_all_tags(text: &mut String, tags: &[&str]) -> Result<(), AllocError>
    ensures ok { Writes result text.old text.new (all_tags_text (lent_in tags.now)) }
{
    if tags.is_empty() {
        return Ok(());
    }
    text.push_str(" :")?;
    push_tags(text, tags)
}

// Puts tags at the end, each with a colon behind it.
fn push_tags(text: &mut String, tags: &[&str]) -> Result<(), AllocError>
    ensures ok { Writes result text.old text.new (tags_text (lent_in tags.now)) }
{
    for tag in tags {
        text.push_str(tag)?;
        text.push_str(":")?;
    }
    Ok(())
}

// Whether there is a title, and a text is one line and not too long.
#[tactic(auto, unfolding(crate::specs::Heads::is_line_of))]
fn is_line_of(head: &NewHead<'_>, text: &[u8]) -> bool
    ensures value { result ≡ is_line_of (words_of head.now) text.now }
{
    !head.title.is_empty() && text.len() <= MAX_BYTES && !has_break(text)
}

// Whether a line ends in a text.
fn has_break(text: &[u8]) -> bool
    ensures value { result ≡ list_any is_break text.now }
{
    text.iter().any(|byte| is_break(*byte))
}

fn is_break(byte: u8) -> bool
    ensures value { result ≡ is_break byte }
{
    byte == b'\n' || byte == b'\r'
}

// What of a new heading its line doesn't say when it is read.
fn lost_of(
    alloc: Global,
    settings: &Settings,
    head: &NewHead<'_>,
    line: &[u8],
) -> Result<Option<Unreadable>, Fault>
    requires fits { length line.now < 2 ^ 31 }
    ensures value { Gives result (lost_of settings.now line.now (words_of head.now)) }
    ensures memory { IsOkUnless result memory_fault }
{
    let found = read_head(alloc, line, settings)?;
    Ok(lost_part(line, &found, head))
}

// What of a new heading the head of a line doesn't say.
#[tactic(auto, unfolding(crate::specs::Heads::lost_part))]
fn lost_part(line: &[u8], found: &Head, head: &NewHead<'_>) -> Option<Unreadable>
    requires within { AreInside line.now found.now }
    ensures value { result ≡ lost_part line.now found.now (words_of head.now) }
{
    if !same_part(line, found.keyword, head.keyword) {
        return Some(blame(head.keyword.is_some(), Unreadable::Keyword));
    }
    if !same_cookie(line, found.priority, head.priority) {
        return Some(blame(head.priority.is_some(), Unreadable::Priority));
    }
    if !same_parts(line, found.tags.as_slice(), head.tags) {
        return Some(blame(!head.tags.is_empty(), Unreadable::Tags));
    }
    if !(same_title(line, found, head) && found.level as usize == head.level) {
        return Some(Unreadable::Title);
    }
    None
}

// What is to blame where a part isn't read back: what was asked for, or else the title.
pub(crate) fn blame(was_asked: bool, part: Unreadable) -> Unreadable
    ensures value { result ≡ blamed was_asked part }
{
    if was_asked { part } else { Unreadable::Title }
}

// Whether a part of a line is a word, or there is neither.
fn same_part(line: &[u8], span: Option<Span>, word: Option<&str>) -> bool
    requires within { IfSome span (IsInside line.now) }
    ensures value { result ≡ same_part line.now span (option_copied word.entry) }
{
    match (span, word) {
        (Some(span), Some(word)) => part(line, span) == word.as_bytes(),
        (None, None) => true,
        _ => false,
    }
}

// Whether a part of a line is the cookie of a priority, or there is neither.
fn same_cookie(line: &[u8], span: Option<Span>, priority: Option<&str>) -> bool
    requires within { IfSome span (IsInside line.now) }
    ensures value { result ≡ same_cookie line.now span (option_copied priority.entry) }
{
    match (span, priority) {
        (Some(span), Some(priority)) => cookie_value(part(line, span)) == priority.as_bytes(),
        (None, None) => true,
        _ => false,
    }
}

// X of the cookie `[#X]`.
pub(crate) fn cookie_value(cookie: &[u8]) -> &[u8]
    ensures value { result.now ≡ cookie_value cookie.now }
{
    let rest = &cookie[cookie.len().min(2)..];
    &rest[..cookie.len().saturating_sub(3)]
}

// Whether parts of a line are these words.
fn same_parts(line: &[u8], spans: &[Span], words: &[&str]) -> bool
    requires within { All (IsInside line.now) spans.now }
    ensures value { result ≡ same_parts line.now spans.now (lent_in words.now) }
{
    match spans {
        [] => words.is_empty(),
        [span, spans @ ..] => match words {
            [] => false,
            [word, words @ ..] => {
                part(line, *span) == word.as_bytes() && same_parts(line, spans, words)
            }
        },
    }
}

// Whether the title of a line is that of a new heading, and nothing hides it.
fn same_title(line: &[u8], found: &Head, head: &NewHead<'_>) -> bool
    requires within { IsInside line.now found.now.title }
    ensures value { result ≡ same_title line.now found.now (words_of head.now) }
{
    !found.comment && part(line, found.title) == head.title.as_bytes()
}
