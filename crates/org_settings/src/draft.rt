//! What setting lines have said so far.
ghost use Rattle.std.specs.Prelude.{◌≡◌, ◌++◌, ◌==◌, if◌then◌else◌, length, OnOk, IsOkUnless};
ghost use Rattle.org_base.specs.Codes.{memory_fault};
ghost use Rattle.org_base.specs.Results.{Gives, lent_in};
ghost use Rattle.org_settings.specs.Keywords.{standard_keywords};
ghost use Rattle.org_settings.specs.Draft.{nothing_said, with_line, into_settings};
ghost use Rattle.org_settings.specs.Settings.{settings_of};
ghost use Rattle.org_settings.specs.SettingLines.{tags_in, category_in};

use crate::keywords::Keywords;
use crate::pieces::pieces;
use crate::priority::default_in;
use crate::property::add_property;
use crate::setting_line::{has_key, setting_value};
use crate::settings::Settings;
use org_base::{Bytes, Fault, Properties, Texts};
use std::alloc::{AllocError, Global};
use std::marker::Model;

// What setting lines have said so far.
#[derive(Drop)]
pub(crate) struct SettingsDraft {
    keywords: Keywords,
    file_tags: Texts,
    category: Option<Bytes>,
    properties: Properties,
    default_priority: Option<u8>,
}

impl Model for SettingsDraft {
    ghost use Rattle.std.specs.Prelude.{◌≤◌, IfSome};
    ghost use Rattle.org_settings.specs.Priority.{greatest_priority};
    ghost use Rattle.org_settings.specs.Draft.{SettingsSoFar};

    ghost Value = { SettingsSoFar };

    ghost view = { λ s. record { keywords = s.keywords; file_tags = s.file_tags; category = s.category; properties = s.properties; default_priority = s.default_priority } };

    ghost invariant = { λ s. IfSome s.default_priority (λ number. number ≤ greatest_priority) };
}

impl SettingsDraft {
    // Nothing yet.
    pub(crate) fn new(alloc: Global) -> SettingsDraft
        ensures value { result ≡ nothing_said }
    {
        SettingsDraft {
            keywords: Keywords::new(alloc),
            file_tags: Texts::new(alloc),
            category: None,
            properties: Properties::new(alloc),
            default_priority: None,
        }
    }

    // Adds what one more line says.
    pub(crate) fn add(&mut self, alloc: Global, line: &[u8]) -> Result<(), Fault>
        ensures ok { OnOk result (self.new ≡ with_line self.old line.now) }
        ensures memory { IsOkUnless result memory_fault }
    {
        self.keywords.add_line(alloc, line)?;
        push_tags(alloc, &mut self.file_tags, line)?;
        if self.category.is_none() {
            self.category = category_in(alloc, line)?;
        }
        add_property(&mut self.properties, line)?;
        if self.default_priority.is_none() {
            self.default_priority = default_in(alloc, line)?;
        }
        Ok(())
    }

    // What holds where no line says more.
    pub(crate) fn into_settings(self, alloc: Global) -> Result<Settings, AllocError>
        ensures value { Gives result (into_settings self) }
    {
        let SettingsDraft {
            keywords,
            file_tags,
            category,
            properties,
            default_priority,
        } = self;
        let keywords = or_standard(alloc, keywords)?;
        let default_priority = default_priority.unwrap_or(b'B');
        Ok(Settings::new(keywords, file_tags, category, properties, default_priority))
    }
}

impl Settings {
    /// What setting lines say together (Org manual 9.6, "In-buffer Settings"). Of no lines these are the keyword
    /// `TODO`, the done keyword `DONE`, no tags, no category, no properties, and the default priority B.
    pub fn of_lines(alloc: Global, lines: &Texts) -> Result<Settings, Fault>
        ensures value { Gives result (settings_of lines.now) }
        ensures memory { IsOkUnless result memory_fault }
    {
        let mut said = SettingsDraft::new(alloc);
        for place in 0..lines.count() {
            said.add(alloc, lines.get(place))?;
        }
        Ok(said.into_settings(alloc)?)
    }
}

// The keywords, or the standard ones where there are none.
fn or_standard(alloc: Global, keywords: Keywords) -> Result<Keywords, AllocError>
    ensures value { Gives result (if length keywords == 0 then standard_keywords else keywords) }
{
    if keywords.count() == 0 {
        Keywords::standard(alloc)
    } else {
        Ok(keywords)
    }
}

// Puts texts at the end.
fn push_all(texts: &mut Texts, more: &[&[u8]]) -> Result<(), Fault>
    ensures ok { OnOk result (texts.new ≡ texts.old ++ lent_in more.now) }
    ensures memory { IsOkUnless result memory_fault }
{
    for text in more {
        texts.push(text)?;
    }
    Ok(())
}

// Puts the tags that a line names at the end.
fn push_tags(alloc: Global, tags: &mut Texts, line: &[u8]) -> Result<(), Fault>
    ensures ok { OnOk result (tags.new ≡ tags.old ++ tags_in line.now) }
    ensures memory { IsOkUnless result memory_fault }
{
    if !has_key(b"FILETAGS", line) {
        return Ok(());
    }
    let more = pieces(alloc, setting_value(line), b':')?;
    push_all(tags, more.as_slice())
}

// The category that a line names.
fn category_in(alloc: Global, line: &[u8]) -> Result<Option<Bytes>, AllocError>
    ensures value { Gives result (category_in line.now) }
{
    if !has_key(b"CATEGORY", line) {
        return Ok(None);
    }
    let value = Vec::from_slice(alloc, setting_value(line))?;
    Ok(Some(Bytes::new(value)))
}
