//! The keywords and the tags of files, a word a line.
ghost use Rattle.std.specs.Prelude.{◌≡◌};
ghost use Rattle.org_answer.specs.Words.{AddsOnce, file_words, headings_tags, keyword_words, shown_word, tags_under, word_line, word_lines, words_of};
ghost use Rattle.org_base.specs.Results.{Adds, Gives, GivesItems};
ghost use Rattle.org_client.specs.Files.{scopes_of};

use crate::once_words::OnceWords;
use crate::show::Form;
use org_base::{Fault, Texts};
use org_client::{FileSet, OneLine};
use org_inherit::{Heading, Inherit, Inherits};
use org_settings::Settings;
use org_text::Whole;
use org_visible::{Escape, push_visible};
use std::alloc::{AllocError, Global};

/// Which words of files are listed.
#[derive(Clone, Copy, Debug, PartialEq, Eq)]
pub enum WordKind {
    Keywords,
    Tags,
}

/// The words of files in the order in which they come, each once.
pub fn words_of(alloc: Global, file_set: &FileSet<Whole>, kind: WordKind) -> Result<Texts, Fault>
    ensures value { Gives result (words_of kind (scopes_of file_set.now)) }
{
    let inherits = file_set.inherits()?;
    once_words(alloc, &inherits, kind)
}

fn once_words(alloc: Global, inherits: &Inherits<'_>, kind: WordKind) -> Result<Texts, Fault>
    ensures value { Gives result (words_of kind inherits.now) }
{
    let mut words = OnceWords::new(alloc);
    for file in 0..inherits.count() {
        push_file(&mut words, inherits.get(file), kind)?;
    }
    Ok(words.into_texts())
}

#[tactic(auto, using(crate::proofs::WordLemmas::adds_both))]
fn push_file(words: &mut OnceWords, inherit: &Inherit<'_>, kind: WordKind) -> Result<(), Fault>
    ensures ok { AddsOnce result words.old words.new (file_words kind inherit.now) }
{
    match kind {
        WordKind::Keywords => push_keywords(words, inherit.settings()),
        WordKind::Tags => {
            words.add_all(inherit.settings().file_tags())?;
            push_tags(words, inherit)
        }
    }
}

fn push_keywords(words: &mut OnceWords, settings: &Settings) -> Result<(), Fault>
    ensures ok { AddsOnce result words.old words.new (keyword_words settings.now) }
{
    for place in 0..settings.keyword_count() {
        words.add(settings.keyword_word(place))?;
    }
    Ok(())
}

// The tags of a file's headings.
fn push_tags(words: &mut OnceWords, inherit: &Inherit<'_>) -> Result<(), Fault>
    ensures ok { AddsOnce result words.old words.new (headings_tags inherit.now) }
{
    for place in 0..inherit.outline().count() {
        push_heading(words, inherit, place)?;
    }
    Ok(())
}

fn push_heading(words: &mut OnceWords, inherit: &Inherit<'_>, place: usize) -> Result<(), Fault>
    ensures ok { AddsOnce result words.old words.new (tags_under inherit.now place) }
{
    match Heading::at(inherit, 0, place) {
        Some(heading) => words.add_all(&heading.tags()?),
        None => Ok(()),
    }
}

/// A line for each word, in a form; control characters so that they can be seen, if that is wanted.
pub fn word_lines(
    alloc: Global,
    words: &Texts,
    form: Form<'_>,
    is_seen: bool,
) -> Result<Vec<u8>, AllocError>
    ensures value { GivesItems result (word_lines form.entry is_seen words.now) }
{
    let mut lines = Vec::new(alloc);
    for place in 0..words.count() {
        push_line(alloc, &mut lines, words.get(place), form, is_seen)?;
    }
    Ok(lines)
}

// Appends the line of a word.
fn push_line(
    alloc: Global,
    lines: &mut Vec<u8>,
    word: &[u8],
    form: Form<'_>,
    is_seen: bool,
) -> Result<(), AllocError>
    ensures value { Adds result lines.old lines.new (word_line form.entry is_seen word.now) }
{
    push_shown(alloc, lines, word, form, is_seen)?;
    lines.push(b'\n')?;
    Ok(())
}

fn push_shown(
    alloc: Global,
    lines: &mut Vec<u8>,
    word: &[u8],
    form: Form<'_>,
    is_seen: bool,
) -> Result<(), AllocError>
    ensures value { Adds result lines.old lines.new (shown_word form.entry is_seen word.now) }
{
    match form {
        Form::Json => {
            let mut line = OneLine::new(alloc);
            line.push_quoted(word)?;
            lines.extend_from_slice(line.as_slice())
        }
        Form::Csv => {
            let mut line = OneLine::new(alloc);
            line.field(word)?;
            lines.extend_from_slice(line.as_slice())
        }
        Form::Plain | Form::Places | Form::Template(_) if is_seen => {
            push_visible(lines, word, Escape::Caret)
        }
        Form::Plain | Form::Places | Form::Template(_) => lines.extend_from_slice(word),
    }
}
