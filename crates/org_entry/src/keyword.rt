//! The keyword of a heading.
ghost use Rattle.std.specs.Prelude.{◌≡◌, option_copied};
ghost use Rattle.org_entry.specs.Keyword.{is_done, is_finished, is_open, keyword_in};

use crate::entry::Entry;
use org_head::Head;
use org_settings::Settings;

/// The keyword of an entry's heading, if it has one.
pub fn keyword_of<'a>(entry: &'a Entry, head: &Head) -> Option<&'a [u8]>
    ensures value { option_copied result ≡ keyword_in entry.now.text head.now }
{
    let span = head.keyword?;
    Some(entry.part(span))
}

/// Whether a keyword is there and a done one of the file.
pub fn is_finished(settings: &Settings, keyword: Option<&[u8]>) -> bool
    ensures value { result ≡ is_finished settings.now (option_copied keyword.entry) }
{
    match keyword {
        Some(word) => is_done(settings, word),
        None => false,
    }
}

fn is_done(settings: &Settings, word: &[u8]) -> bool
    ensures { result ≡ is_done settings.now word.now }
{
    match settings.keyword_place(word) {
        Some(place) => settings.is_done(place),
        None => false,
    }
}

// Whether the heading has no done keyword.
pub(crate) fn is_open(settings: &Settings, entry: &Entry, head: &Head) -> bool
    ensures value { result ≡ is_open settings.now entry.now.text head.now }
{
    !is_finished(settings, keyword_of(entry, head))
}
