//! Headings as components of a calendar.
ghost use Rattle.std.specs.Prelude.{◌≡◌, ◌++◌, ◌∷◌, option_copied, IfOk};
ghost use Rattle.org_base.specs.Results.{GivesItems};
ghost use Rattle.org_client.specs.Components.{GivesWords, base_name, found_key, found_words, is_cancelled, priority_of_byte, priority_of_cookie, property_text, status_of};
ghost use Rattle.org_ical.specs.Results.{bytes_of};

use crate::titles::title_words;
use org_base::{Fault, Texts};
use org_ical::{Status, Words};
use org_inherit::Heading;
use std::alloc::{AllocError, Global};

/// What a heading says in words: its title without stamps, its tags, and the place and the description of its properties.
pub(crate) fn words_of(alloc: Global, heading: &Heading<'_, '_>) -> Result<Words, Fault>
    ensures value { GivesWords result (found_words heading.now) }
{
    let tags = heading.tags()?;
    Ok(Words {
        summary: title_words(alloc, heading.title())?,
        categories: copies(alloc, &tags)?,
        location: property_text(alloc, heading, b"LOCATION")?,
        description: property_text(alloc, heading, b"DESCRIPTION")?,
    })
}

// What a property of a heading says; nothing where there is none.
fn property_text(
    alloc: Global,
    heading: &Heading<'_, '_>,
    name: &[u8],
) -> Result<Vec<u8>, AllocError>
    ensures value { GivesItems result (property_text heading.now.entry.now name.now) }
{
    match heading.entry.details.property(name) {
        Some(text) => Vec::from_slice(alloc, text),
        None => Ok(Vec::new(alloc)),
    }
}

/// What a heading and some words more are known by.
pub(crate) fn key_of(
    alloc: Global,
    heading: &Heading<'_, '_>,
    more: &[u8],
) -> Result<Vec<u8>, AllocError>
    ensures value { GivesItems result (found_key heading.now ++ 45 ∷ more.now) }
{
    let mut key = known_by(alloc, heading)?;
    key.push(b'-')?;
    key.extend_from_slice(more)?;
    Ok(key)
}

// What a heading is known by: its own property ID, if that says anything, else the name of its file and the words of its title.
fn known_by(alloc: Global, heading: &Heading<'_, '_>) -> Result<Vec<u8>, AllocError>
    ensures value { GivesItems result (found_key heading.now) }
{
    match heading.entry.details.property(b"ID") {
        Some(id @ [_, ..]) => Vec::from_slice(alloc, id),
        _ => {
            let words = title_words(alloc, heading.title())?;
            title_in_file(alloc, heading.inherit.file(), words.as_slice())
        }
    }
}

fn title_in_file(alloc: Global, file: &[u8], title: &[u8]) -> Result<Vec<u8>, AllocError>
    ensures value { GivesItems result (base_name file.now ++ 58 ∷ title.now) }
{
    let mut key = Vec::from_slice(alloc, base_name(file))?;
    key.push(b':')?;
    key.extend_from_slice(title)?;
    Ok(key)
}

// The name of a file without the folders that it lies in.
fn base_name(path: &[u8]) -> &[u8]
    ensures value { result.now ≡ base_name path.now }
{
    let mut name = path;
    for (place, byte) in path.iter().enumerate() {
        if *byte == b'/' {
            name = &path[place + 1..];
        }
    }
    name
}

// A copy of each text.
fn copies(alloc: Global, texts: &Texts) -> Result<Vec<Vec<u8>>, AllocError>
    ensures value { IfOk result (λ copies. bytes_of copies.items ≡ texts.now) }
{
    let mut copies = Vec::new(alloc);
    for place in 0..texts.count() {
        copies.push(Vec::from_slice(alloc, texts.get(place))?)?;
    }
    Ok(copies)
}

/// Whether an event takes place whose heading has a keyword.
pub(crate) fn status_of(keyword: Option<&[u8]>) -> Status
    ensures value { result ≡ status_of (option_copied keyword.entry) }
{
    match keyword {
        Some(word) if is_cancelled(word) => Status::Cancelled,
        _ => Status::Confirmed,
    }
}

fn is_cancelled(word: &[u8]) -> bool
    ensures value { result ≡ is_cancelled word.now }
{
    word == b"CANCELLED".as_slice() || word == b"CANCELED".as_slice()
}

/// The priority of a cookie, if it has one in calendars.
pub(crate) fn priority_of_cookie(cookie: Option<&[u8]>) -> Option<u8>
    ensures value { result ≡ priority_of_cookie (option_copied cookie.entry) }
{
    match cookie {
        Some([byte]) => priority_of_byte(*byte),
        _ => None,
    }
}

fn priority_of_byte(byte: u8) -> Option<u8>
    ensures value { result ≡ priority_of_byte byte }
{
    match byte {
        b'A' => Some(1),
        b'B' => Some(5),
        b'C' => Some(9),
        b'1'..=b'9' => Some(byte - b'0'),
        _ => None,
    }
}
