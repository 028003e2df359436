//! The headings of files.
ghost use Rattle.std.specs.Prelude.{◌≡◌, ◌<◌, length, option_copied, IsOkUnless};
ghost use Rattle.org_base.specs.Codes.{memory_fault};
ghost use Rattle.org_base.specs.Results.{Gives};
ghost use Rattle.org_base.specs.Spans.{bytes_in};
ghost use Rattle.org_entry.specs.Keyword.{is_finished, keyword_in};
ghost use Rattle.org_inherit.specs.Category.{category};
ghost use Rattle.org_inherit.specs.Priorities.{cookie_of, priority_by};
ghost use Rattle.org_inherit.specs.Tags.{all_tags};

use crate::heading::cookie_value;
use crate::inherit::Inherit;
use org_base::{Fault, Texts};
use org_entry::{Entry, is_finished, keyword_of};
use org_head::Head;
use org_settings::{is_priority, priority_number};

/// A heading: what its file says of headings, the places of the file and of the entry, from 0, the entry itself, and
/// its head.
#[derive(Debug, Drop)]
pub struct Heading<'a, 'b> {
    pub inherit: &'a Inherit<'b>,
    pub file: usize,
    pub place: usize,
    pub entry: &'a Entry,
    pub head: &'a Head,
    ghost within: { place < length inherit.now.entries },
}

impl<'a, 'b> Heading<'a, 'b> {
    /// The number of its stars.
    pub fn level(&self) -> u32
        ensures value { result ≡ self.now.head.now.level }
    {
        self.head.level
    }

    /// Its category.
    pub fn category(&self) -> &[u8]
        ensures value { result.now ≡ category self.now.inherit.now self.now.place }
    {
        self.inherit.category(self.place)
    }

    /// Its keyword, if it has one.
    pub fn keyword(&self) -> Option<&'a [u8]>
        ensures value { option_copied result ≡ keyword_in self.now.entry.now.text self.now.head.now }
    {
        keyword_of(self.entry, self.head)
    }

    /// Whether its keyword is a done one of its file.
    pub fn is_done(&self) -> bool
        ensures value { let h = self.now in result ≡ is_finished h.inherit.now.settings (keyword_in h.entry.now.text h.head.now) }
    {
        is_finished(self.inherit.settings(), self.keyword())
    }

    /// The X of its cookie `[#X]`, if it has one.
    pub fn priority(&self) -> Option<&[u8]>
        ensures value { option_copied result ≡ cookie_of self.now.entry.now.text self.now.head.now }
    {
        Some(cookie_value(self.entry.part(self.head.priority?)))
    }

    /// Its title.
    pub fn title(&self) -> &[u8]
        ensures value { result.now ≡ bytes_in self.now.entry.now.text self.now.head.now.title }
    {
        self.entry.part(self.head.title)
    }

    /// All its tags, own and inherited.
    pub fn tags(&self) -> Result<Texts, Fault>
        ensures value { Gives result (all_tags self.now.inherit.now self.now.place) }
        ensures memory { IsOkUnless result memory_fault }
    {
        self.inherit.all_tags(self.place)
    }

    /// The priority that counts, the file's default where there is no cookie: smaller ones are more urgent.
    pub fn priority_number(&self) -> u8
        ensures value { let h = self.now in result ≡ priority_by h.inherit.now.settings (cookie_of h.entry.now.text h.head.now) }
    {
        match self.priority() {
            Some(text) if is_priority(text) => priority_number(text),
            _ => self.inherit.settings().default_priority(),
        }
    }
}
