//! The done keyword of a heading's sequence.
ghost use Rattle.std.specs.Prelude.{◌≡◌, ◌<◌, length, IfSome};
ghost use Rattle.std.specs.Str.{IsUtf8};
ghost use Rattle.org_act.specs.Changes.{ChoosesText};
ghost use Rattle.org_act.specs.Completing.{done_word, done_word_at, first_done, first_place, sequence_of};
ghost use Rattle.org_base.specs.Results.{GivesText};
ghost use Rattle.org_complete.specs.Reading.{IsPlaceIn, WasReadAt};
ghost use Rattle.org_entry.specs.Keyword.{keyword_in};

use crate::act::Refusal;
use org_base::{Code, Fault, Meter};
use org_entry::{Entry, keyword_of};
use org_head::Head;
use org_settings::Settings;
use org_store::File;
use org_text::{Text, Whole};
use std::alloc::{AllocError, Global};

// The first done keyword of the sequence that holds the keyword of the heading on a line, or of the file's first sequence
// where the heading has none. The file's text stays.
pub(crate) fn done_word(alloc: Global, file: &mut File<Whole>, line: u64) -> Result<String, Refusal>
    ensures value { ChoosesText result (done_word file.old.text line) }
    ensures same { file.new.text ≡ file.old.text }
{
    let Some(place) = file.begun_by(line) else {
        return Err(Refusal::Fault(Fault::Plain(Code::Heading)));
    };
    file.read(alloc, &mut Meter::new(), place)?;
    done_word_at(alloc, file, place)
}

// The same of the heading of the section at a place, which was read.
fn done_word_at(alloc: Global, file: &File<Whole>, place: u32) -> Result<String, Refusal>
    requires there { IsPlaceIn file.now place }
    requires read { WasReadAt file.now place }
    ensures value { ChoosesText result (done_word_at file.now.text place) }
{
    let Some(entry) = file.entry(place) else {
        unreachable!();
    };
    let Some(head) = &entry.head else {
        return Err(Refusal::Fault(Fault::Plain(Code::Heading)));
    };
    // For the proof alone: its contract says that the text is UTF-8.
    let _len = file.text().len();
    let settings = file.settings();
    let Some(place) = first_done(settings, sequence_of(settings, entry, head)) else {
        return Err(Refusal::NoDone);
    };
    Ok(text_of(alloc, settings.keyword_word(place))?)
}

// The place of the first keyword of the sequence that holds a heading's keyword; of the file's first where it has none.
fn sequence_of(settings: &Settings, entry: &Entry, head: &Head) -> usize
    ensures value { result ≡ sequence_of settings.now (keyword_in entry.now.text head.now) }
{
    match keyword_of(entry, head) {
        Some(word) => first_place(settings, settings.keyword_place(word)),
        None => 0,
    }
}

fn first_place(settings: &Settings, place: Option<usize>) -> usize
    requires within { IfSome place (λ p. p < length settings.now.keywords) }
    ensures value { result ≡ first_place settings.now place }
{
    match place {
        Some(place) => settings.first_of_sequence(place),
        None => 0,
    }
}

// The place of the first done keyword of a sequence, whose first keyword has this place.
fn first_done(settings: &Settings, first: usize) -> Option<usize>
    ensures value { result ≡ first_done first 0 settings.now.keywords }
{
    for place in 0..settings.keyword_count() {
        if settings.is_done(place) && settings.first_of_sequence(place) == first {
            return Some(place);
        }
    }
    None
}

// Bytes that are text, as a string.
fn text_of(alloc: Global, bytes: &[u8]) -> Result<String, AllocError>
    requires utf8 { IsUtf8 bytes.now }
    ensures value { GivesText result bytes.now }
{
    match str::from_utf8(bytes) {
        Ok(text) => String::from_str(alloc, text),
        Err(_) => Ok(String::new(alloc)),
    }
}
