//! Keywords of files that have none of their own.
ghost use Rattle.std.specs.Prelude.{◌≡◌, string_bytes};
ghost use Rattle.org_base.specs.Results.{Gives, GivesText};
ghost use Rattle.org_class.specs.Classes.{setting_lines};
ghost use Rattle.orgq_files.specs.Keywords.{lacks_feed, line_after, line_behind, names_keywords, with_keywords};

use org_base::{Fault, Meter, Texts};
use org_class::{Settings, classify, push_setting_lines, sections};
use org_inherit::Inherits;
use org_text::{Text, Whole};
use orgq_messages::say_of;
use std::alloc::{AllocError, Global};
use std::str;

/// A text with a line of keywords after it, where it has none of its own. Setting lines count wherever they stand, so every
/// place of the text stays what it was.
pub fn with_keywords(alloc: Global, mut text: String, words: &str) -> Result<String, Fault>
    ensures value { GivesText result (with_keywords (string_bytes text) words.now) }
{
    let line = line_behind(alloc, text.as_str(), words)?;
    text.push_str(line.as_str())?;
    Ok(text)
}

/// The line of keywords that is read after a text; none where the text has keywords of its own.
pub fn line_behind(alloc: Global, text: &str, words: &str) -> Result<String, Fault>
    ensures value { GivesText result (line_behind text.now words.now) }
{
    if names_keywords(alloc, text)? {
        return Ok(String::new(alloc));
    }
    Ok(line_after(alloc, text, words)?)
}

// A line of keywords as it stands after a text.
fn line_after(alloc: Global, text: &str, words: &str) -> Result<String, AllocError>
    ensures value { GivesText result (line_after text.now words.now) }
{
    let mut line = String::new(alloc);
    if lacks_feed(text.as_bytes()) {
        line.push_str("\n")?;
    }
    line.push_str("#+TODO: ")?;
    line.push_str(words)?;
    line.push_str("\n")?;
    Ok(line)
}

// Whether a text's last line doesn't end with a line feed.
fn lacks_feed(text: &[u8]) -> bool
    ensures value { result ≡ lacks_feed text.now }
{
    match text.last() {
        Some(byte) => *byte != b'\n',
        None => false,
    }
}

// Whether a text names keywords of its own.
fn names_keywords(alloc: Global, text: &str) -> Result<bool, Fault>
    ensures value { Gives result (names_keywords text.now) }
{
    let text = Whole::of(alloc, text)?;
    let mut lines = setting_lines(alloc, &text)?;
    lines.push(PROBE_LINE)?;
    let settings = Settings::of_lines(alloc, &lines)?;
    Ok(settings.keyword_place(PROBE) != Some(0))
}

// A keyword that no file has, and a line that names it: behind lines that name none it is the first one.
const PROBE: &[u8] = b"\x01";

const PROBE_LINE: &[u8] = b"#+TODO: \x01";

// The setting lines of a text.
fn setting_lines(alloc: Global, text: &Whole) -> Result<Texts, Fault>
    ensures value { Gives result (setting_lines text.now) }
{
    let spans = sections(alloc, text)?;
    let mut lines = Texts::new(alloc);
    for span in spans.as_slice() {
        let classes = classify(alloc, &mut Meter::new(), text, *span)?;
        push_setting_lines(alloc, &mut lines, text, *span, classes.as_slice())?;
    }
    Ok(lines)
}

/// Says which words are keywords of no file.
pub fn say_unknown<R: Eprint + AllocGlobal>(rt: &R, inherits: &Inherits<'_>, words: &Texts) {
    for place in 0..words.count() {
        say_if_unknown(rt, inherits, words.get(place));
    }
}

fn say_if_unknown<R: Eprint + AllocGlobal>(rt: &R, inherits: &Inherits<'_>, word: &[u8]) {
    let Ok(text) = str::from_utf8(word) else {
        return;
    };
    if !is_known(inherits, word) {
        say_of(rt, text, why_unknown(text));
    }
}

fn why_unknown(word: &str) -> &'static str {
    if word.contains('|') {
        "no keyword of these files: several stand with spaces between them"
    } else {
        "no keyword of these files"
    }
}

// Whether a word is a keyword of a file.
fn is_known(inherits: &Inherits<'_>, word: &[u8]) -> bool {
    for place in 0..inherits.count() {
        if inherits.get(place).settings().keyword_place(word).is_some() {
            return true;
        }
    }
    false
}
