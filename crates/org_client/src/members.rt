//! The members of a row, all as those of an object, or one alone.
ghost use Rattle.std.specs.Prelude.{◌≡◌, ◌++◌, [], bytes_eq, decimal, option_copied, OnOk};
ghost use Rattle.org_base.specs.Results.{Gives};
ghost use Rattle.org_cal.specs.Texts.{date_text, time_text};
ghost use Rattle.org_client.specs.HeadingMembers.{title_members_of};
ghost use Rattle.org_client.specs.Json.{begun};
ghost use Rattle.org_client.specs.KeptHeadings.{StandsIn};
ghost use Rattle.org_client.specs.Members.{MembersView, Puts, date_member, flag_member_of, is_asked, item_separator, number_member_of, text_member_of, texts_member_of, time_member};

use crate::kept_headings::KeptHeadings;
use crate::one_line::OneLine;
use org_base::Texts;
use org_cal::{Day, TimeOfDay, push_date, push_time};
use org_inherit::Heading;
use std::alloc::{AllocError, Global};
use std::marker::Model;

/// Members of a row, written one after the other: as those of an object of JSON, or the value of the one that has a name, as
/// a person is told it.
#[derive(Debug, Drop)]
pub struct Members<'a> {
    alloc: Global,
    only: Option<&'a str>,
    line: OneLine,
}

impl<'a> Model for Members<'a> {
    ghost use Rattle.std.specs.Prelude.{option_copied};
    ghost use Rattle.org_client.specs.Members.{MembersView};

    ghost Value = { MembersView };

    ghost view = { λ m. record { only = option_copied m.only; bytes = m.line } };
}

impl<'a> Members<'a> {
    /// Those of an object, which begins with its kind.
    pub fn of_object(alloc: Global, kind: &str) -> Result<Members<'a>, AllocError>
        ensures value { Gives result (record { only = None; bytes = begun kind.now }) }
    {
        let mut line = OneLine::new(alloc);
        line.push(b'{')?;
        line.push_quoted(b"kind")?;
        line.push(b':')?;
        line.push_quoted(kind.as_bytes())?;
        Ok(Members {
            alloc,
            only: None,
            line,
        })
    }

    /// The one of a name.
    pub fn of_name(alloc: Global, name: &'a str) -> Members<'a>
        ensures value { result ≡ record { only = Some name.now; bytes = [] } }
    {
        Members {
            alloc,
            only: Some(name),
            line: OneLine::new(alloc),
        }
    }

    /// What is written.
    pub fn into_line(self) -> OneLine
        ensures value { result ≡ self.entry.bytes }
    {
        self.line
    }

    // Whether the member of a name is the one that is asked for.
    fn is_asked(&self, name: &str) -> bool
        ensures value { result ≡ is_asked self.now.only name.now }
    {
        match self.only {
            Some(only) => only == name,
            None => false,
        }
    }

    /// Puts a member whose value is a text.
    pub fn text(&mut self, name: &str, text: &[u8]) -> Result<(), AllocError>
        ensures ok { Puts result self.old self.new (text_member_of self.old.only name.now text.now) }
    {
        if self.only.is_none() {
            self.line.text(name, text)?;
        } else if self.is_asked(name) {
            self.line.push_seen(text)?;
        }
        Ok(())
    }

    /// Puts the title of a heading, and its words, which may be kept.
    #[tactic(auto, using(crate::proofs::StandLemmas::words_there))]
    pub fn title(
        &mut self,
        kept: &KeptHeadings<'_, '_>,
        heading: &Heading<'_, '_>,
    ) -> Result<(), AllocError>
        requires there { StandsIn kept.now heading.now }
        ensures ok { Puts result self.old self.new (title_members_of self.old.only heading.now) }
    {
        self.text("title", heading.title())?;
        if self.only.is_some() && !self.is_asked("words") {
            return Ok(());
        }
        let words = kept.words(self.alloc, heading.file, heading.place)?;
        self.text("words", words.as_slice())
    }

    /// Puts a member whose value is a number.
    pub fn number(&mut self, name: &str, number: u64) -> Result<(), AllocError>
        ensures ok { Puts result self.old self.new (number_member_of self.old.only name.now number) }
    {
        if self.only.is_none() {
            self.line.number(name, number)?;
        } else if self.is_asked(name) {
            self.line.push_number(number)?;
        }
        Ok(())
    }

    /// Puts a member whose value is true or false.
    pub fn flag(&mut self, name: &str, flag: bool) -> Result<(), AllocError>
        ensures ok { Puts result self.old self.new (flag_member_of self.old.only name.now flag) }
    {
        if self.only.is_none() {
            self.line.flag(name, flag)?;
        } else if self.is_asked(name) {
            self.line.push_flag(flag)?;
        }
        Ok(())
    }

    /// Puts a member whose value is a list of texts; to a person the items of `path` have slashes between them, and those of
    /// others colons.
    pub fn texts(&mut self, name: &str, texts: &Texts) -> Result<(), AllocError>
        ensures ok { Puts result self.old self.new (texts_member_of self.old.only name.now texts.now) }
    {
        if self.only.is_none() {
            self.line.texts(name, texts)?;
        } else if self.is_asked(name) {
            self.line.push_joined(texts, between(name))?;
        }
        Ok(())
    }

    /// Puts a date, if there is one.
    pub fn date(&mut self, name: &str, day: Option<Day>) -> Result<(), AllocError>
        ensures ok { Puts result self.old self.new (date_member self.old.only name.now day) }
    {
        let Some(day) = day else {
            return Ok(());
        };
        let mut text = String::new(self.alloc);
        push_date(&mut text, day)?;
        self.text(name, text.as_bytes())
    }

    /// Puts a time of day, if there is one.
    pub fn time(&mut self, name: &str, time: Option<TimeOfDay>) -> Result<(), AllocError>
        ensures ok { Puts result self.old self.new (time_member self.old.only name.now time) }
    {
        let Some(time) = time else {
            return Ok(());
        };
        let mut text = String::new(self.alloc);
        push_time(&mut text, time)?;
        self.text(name, text.as_bytes())
    }
}

// What stands between the items of a list, as a person is told them.
fn between(name: &str) -> u8
    ensures value { result ≡ item_separator name.now }
{
    if name == "path" { b'/' } else { b':' }
}
