//! Reading a heading line.
ghost use Rattle.std.specs.Prelude.{◌≡◌, ◌≤◌, ◌+◌, ◌<◌, ◌^◌, length, IfOk, IsOkUnless, IsTrue};
ghost use Rattle.org_base.specs.Codes.{memory_fault};
ghost use Rattle.org_base.specs.Results.{Gives};
ghost use Rattle.org_base.specs.Words.{first_word};
ghost use Rattle.org_class.specs.Heading.{begins_heading};
ghost use Rattle.org_head.specs.HeadParts.{HasParts};
ghost use Rattle.org_head.specs.Parts.{is_keyword};
ghost use Rattle.org_head.specs.Head.{first_part, behind, title_of, tags_of, head_of, AreInside};

use crate::cookie::is_cookie;
use crate::head::Head;
use crate::parts::{is_comment_word, is_tag_word, last_word};
use crate::spans::Spans;
use org_base::words::{first_word, trim_end, trim_start};
use org_base::{Fault, Span};
use org_class::leading_stars;
use org_settings::Settings;
use std::alloc::{AllocError, Global};
use std::marker::Model;

fn is_keyword(settings: &Settings, word: &[u8]) -> bool
    ensures value { result ≡ is_keyword settings.now.keywords word.now }
{
    settings.keyword_place(word).is_some()
}

// What is left of a heading line, seen as its bytes. Its first word is found once, though up to three parts are looked for
// there.
#[derive(Drop)]
struct Left<'a> {
    bytes: &'a [u8],
    word: &'a [u8],
}

impl<'a> Model for Left<'a> {
    ghost use Rattle.std.specs.Prelude.{◌≡◌, ℕ, List};
    ghost use Rattle.org_base.specs.Words.{first_word};

    ghost Value = { List ℕ };

    ghost view = { λ l. l.bytes.now };

    ghost invariant = { λ l. l.word.now ≡ first_word l.bytes.now };
}

impl<'a> Left<'a> {
    // These bytes.
    fn new(bytes: &'a [u8]) -> Left<'a>
        ensures value { result ≡ bytes.now }
    {
        Left {
            bytes,
            word: first_word(bytes),
        }
    }

    // All of them.
    fn bytes(&self) -> &'a [u8]
        ensures value { result.now ≡ self.now }
    {
        self.bytes
    }

    // The first word.
    fn word(&self) -> &'a [u8]
        ensures value { result.now ≡ first_word self.now }
    {
        self.word
    }

    // The first word as a part of a line of so many bytes, if it is one; and what is left after it, if it is, and the gap
    // that follows.
    fn split(self, is_part: bool, line_len: usize) -> (Option<Span>, Left<'a>)
        requires within { length self ≤ line_len }
        requires size { line_len < 2 ^ 32 }
        ensures part { result.0 ≡ first_part is_part line_len self.entry }
        ensures left { result.1 ≡ behind is_part self.entry }
        ensures within { length result.1 ≤ length self.entry }
    {
        if !is_part {
            return (None, self);
        }
        let part = Span {
            at: (line_len - self.bytes.len()) as u32,
            len: self.word.len() as u32,
        };
        (
            Some(part),
            Left::new(trim_start(&self.bytes[self.word.len()..])),
        )
    }
}

// How long the title of a text is that begins at a place, and the tags after it, if its last word is tags.
fn title_and_tags(alloc: Global, at: usize, text: &[u8]) -> Result<(usize, Spans), AllocError>
    requires { at + length text.now < 2 ^ 32 }
    ensures title { IfOk result (λ parts. parts.0 ≡ length (title_of text.now)) }
    ensures tags { IfOk result (λ parts. parts.1 ≡ tags_of at text.now) }
    ensures within { IfOk result (λ parts. parts.0 ≤ length text.now) }
{
    let tail = last_word(text);
    let mut tags = Spans::new(alloc);
    if !is_tag_word(tail) {
        return Ok((text.len(), tags));
    }
    let front = text.len() - tail.len();
    tags.push_pieces(at + front, tail)?;
    Ok((trim_end(&text[..front]).len(), tags))
}

// The parts, read from the left.
fn read_parts(alloc: Global, line: &[u8], settings: &Settings) -> Result<Head, AllocError>
    requires size { length line.now < 2 ^ 32 }
    ensures value { Gives result (head_of settings.now line.now) }
{
    let n = line.len();
    let level = leading_stars(line);
    let left = Left::new(trim_start(&line[level..]));
    let is_keyword = is_keyword(settings, left.word());
    let (keyword, left) = left.split(is_keyword, n);
    let is_cookie = is_cookie(left.word());
    let (priority, left) = left.split(is_cookie, n);
    let comment = is_comment_word(left.word());
    let (_, left) = left.split(comment, n);
    let left = left.bytes();
    let at = n - left.len();
    let (title_len, tags) = title_and_tags(alloc, at, trim_end(left))?;
    let title = Span {
        at: at as u32,
        len: title_len as u32,
    };
    Ok(Head {
        level: level as u32,
        keyword,
        priority,
        comment,
        title,
        tags,
    })
}

/// The parts of a heading line in a file with these settings: after the stars, each optional and a whole word, a
/// keyword, a priority cookie and `COMMENT`, then the title, then the tags as the last word (Org Syntax, "Headings").
/// Out of memory is its only refusal, and can come only from the third tag on.
#[tactic(auto, using(crate::proofs::PartsHold::parts_hold))]
pub fn read_head(alloc: Global, line: &[u8], settings: &Settings) -> Result<Head, Fault>
    requires size { length line.now < 2 ^ 32 }
    ensures value { Gives result (head_of settings.now line.now) }
    ensures parts { IsTrue (begins_heading line.now) → IfOk result (HasParts settings.now line.now) }
    ensures within { IfOk result (λ head. AreInside line.now head) }
    ensures memory { IsOkUnless result memory_fault }
{
    Ok(read_parts(alloc, line, settings)?)
}
