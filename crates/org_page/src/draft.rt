//! A page that is being put together.
ghost use Rattle.std.specs.Prelude.{◌≡◌, ◌∷◌, [], IfOk, string_bytes};
ghost use Rattle.org_page.specs.Drafts.{AddsTitles, GivesAttributes, GivesUntitled, KeepsTitles, Puts, given_tag_text, lent_text, lents_text};
ghost use Rattle.org_page.specs.Pieces.{title_text};
ghost use Rattle.org_page.specs.Results.{GivesText};
ghost use Rattle.org_page.specs.Values.{duration_bytes, time_bytes, value_bytes};

use crate::piece::{Attribute, Piece, Title};
use std::alloc::{AllocError, Global};

/// The pieces of a page, and where they get memory.
#[derive(Drop)]
pub(crate) struct Draft {
    alloc: Global,
    pub(crate) pieces: Vec<Piece>,
}

/// An attribute that is given: its name and its value.
#[derive(Clone, Copy)]
pub(crate) struct Given<'a> {
    pub(crate) name: &'static str,
    pub(crate) value: Value<'a>,
}

/// The value of an attribute that is given: a text, a word of the program's, a number, a property of a style with its number, or
/// an area by its width and its height.
#[derive(Clone, Copy)]
pub(crate) enum Value<'a> {
    Plain(&'a str),
    Word(&'static str),
    Decimal(u64),
    Property(&'static str, u64),
    Area(u64, u64),
}

/// An attribute of a name, with a text.
pub(crate) fn with<'a>(name: &'static str, value: &'a str) -> Given<'a> {
    Given {
        name,
        value: Value::Plain(value),
    }
}

/// An attribute of a name, with a word of the program's.
pub(crate) fn with_word<'a>(name: &'static str, word: &'static str) -> Given<'a> {
    Given {
        name,
        value: Value::Word(word),
    }
}

/// An attribute of a name, with a number.
pub(crate) fn with_number<'a>(name: &'static str, value: u64) -> Given<'a> {
    Given {
        name,
        value: Value::Decimal(value),
    }
}

/// A style of one property, with a number.
pub(crate) fn with_property<'a>(property: &'static str, number: u64) -> Given<'a> {
    Given {
        name: "style",
        value: Value::Property(property, number),
    }
}

/// A piece that is lent to a page: a tag, as `li` or `/li`, one with the name and the value of an attribute, one with two
/// attributes, one with several, or words: a text, a number, a time of the day by its minute, or a sum of minutes.
#[derive(Clone, Copy)]
pub(crate) enum Lent<'a> {
    Tag(&'static str),
    With(&'static str, &'static str, &'a str),
    Pair(&'static str, Given<'a>, Given<'a>),
    Open(&'static str, &'a [Given<'a>]),
    Text(&'a str),
    Number(u64),
    Time(u16),
    Duration(u64),
}

impl Draft {
    /// A page without pieces.
    pub(crate) fn new(alloc: Global) -> Draft
        ensures { result.pieces.items ≡ [] }
    {
        Draft {
            alloc,
            pieces: Vec::new(alloc),
        }
    }

    /// Where it gets memory.
    pub(crate) fn alloc(&self) -> Global {
        self.alloc
    }

    /// Puts pieces, one after the other.
    pub(crate) fn put(&mut self, lents: &[Lent<'_>]) -> Result<(), AllocError>
        ensures text { Puts result self.old self.new (lents_text lents.now) }
        ensures titles { KeepsTitles result self.old self.new }
    {
        for lent in lents {
            self.put_one(lent)?;
        }
        Ok(())
    }

    fn put_one(&mut self, lent: &Lent<'_>) -> Result<(), AllocError>
        ensures text { Puts result self.old self.new (lent_text lent.now) }
        ensures titles { KeepsTitles result self.old self.new }
    {
        let piece = piece_of(self.alloc, lent)?;
        self.pieces.push(piece)?;
        Ok(())
    }

    /// Puts a title that leads somewhere.
    pub(crate) fn title(&mut self, words: &str, link: &str, is_done: bool) -> Result<(), AllocError>
        ensures text { Puts result self.old self.new (title_text is_done link.now words.now) }
        ensures titles { AddsTitles result self.old self.new ((words.now, link.now) ∷ []) }
    {
        let title = title_of(self.alloc, words, link, is_done)?;
        self.pieces.push(Piece::Titled(title))?;
        Ok(())
    }
}

// The piece that a lent one is.
fn piece_of(alloc: Global, lent: &Lent<'_>) -> Result<Piece, AllocError>
    ensures { GivesUntitled result (lent_text lent.now) }
{
    match lent {
        Lent::Tag(name) => Ok(Piece::Tag(name, Vec::new(alloc))),
        Lent::With(name, given, value) => {
            let given = Given {
                name: given,
                value: Value::Plain(value),
            };
            tag_of(alloc, name, &[given])
        }
        Lent::Pair(name, first, second) => tag_of(alloc, name, &[*first, *second]),
        Lent::Open(name, givens) => tag_of(alloc, name, givens),
        Lent::Text(words) => Ok(Piece::Content(String::from_str(alloc, words)?)),
        Lent::Number(number) => Ok(Piece::Content(format!(in alloc; "{number}")?)),
        Lent::Time(minute) => Ok(Piece::Content(time_text(alloc, *minute)?)),
        Lent::Duration(minutes) => Ok(Piece::Content(duration_text(alloc, *minutes)?)),
    }
}

fn tag_of(alloc: Global, name: &'static str, givens: &[Given<'_>]) -> Result<Piece, AllocError>
    ensures { GivesUntitled result (given_tag_text name.now givens.now) }
{
    let attributes = attributes_of(alloc, givens)?;
    Ok(Piece::Tag(name, attributes))
}

fn title_of(alloc: Global, words: &str, link: &str, is_done: bool) -> Result<Title, AllocError>
    ensures words { IfOk result (λ title. string_bytes title.words ≡ words.now) }
    ensures link { IfOk result (λ title. string_bytes title.link ≡ link.now) }
    ensures done { IfOk result (λ title. title.is_done ≡ is_done) }
{
    let words = String::from_str(alloc, words)?;
    let link = String::from_str(alloc, link)?;
    Ok(Title {
        words,
        link,
        is_done,
    })
}

fn attributes_of(alloc: Global, givens: &[Given<'_>]) -> Result<Vec<Attribute>, AllocError>
    ensures { GivesAttributes result givens.now }
{
    let mut attributes = Vec::new(alloc);
    for given in givens {
        let value = value_text(alloc, given.value)?;
        attributes.push(Attribute {
            name: given.name,
            value,
        })?;
    }
    Ok(attributes)
}

fn value_text(alloc: Global, value: Value<'_>) -> Result<String, AllocError>
    ensures { GivesText result (value_bytes value.entry) }
{
    match value {
        Value::Plain(text) => String::from_str(alloc, text),
        Value::Word(word) => String::from_str(alloc, word),
        Value::Decimal(number) => format!(in alloc; "{number}"),
        Value::Property(name, number) => format!(in alloc; "{name}:{number}"),
        Value::Area(width, height) => format!(in alloc; "0 0 {width} {height}"),
    }
}

/// Hours and minutes of a day.
pub(crate) fn time_text(alloc: Global, minute: u16) -> Result<String, AllocError>
    ensures { GivesText result (time_bytes minute) }
{
    let (hour, minute) = (minute / 60, minute % 60);
    format!(in alloc; "{}{}:{}{}", hour / 10, hour % 10, minute / 10, minute % 10)
}

// A sum of minutes as hours and minutes.
fn duration_text(alloc: Global, minutes: u64) -> Result<String, AllocError>
    ensures { GivesText result (duration_bytes minutes) }
{
    let (hours, minutes) = (minutes / 60, minutes % 60);
    format!(in alloc; "{hours}:{}{}", minutes / 10, minutes % 10)
}
