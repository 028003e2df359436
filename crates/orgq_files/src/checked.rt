//! Files that are checked.

use crate::files::{FileSink, Named};
use crate::keywords::with_keywords;
use org_base::{Fault, MOST_FILES, Meter, NameSet};
use org_class::read_settings;
use org_settings::Settings;
use org_text::{Text, Whole};
use std::alloc::{AllocError, Global};

/// A file's text under its name, and what its setting lines say.
#[derive(Debug, Drop)]
pub struct CheckedFile {
    name: String,
    path: String,
    text: Whole,
    settings: Settings,
}

impl CheckedFile {
    /// The name.
    pub fn name(&self) -> &str {
        self.name.as_str()
    }

    /// The text as it stands in the file.
    pub fn text(&self) -> &Whole {
        &self.text
    }

    /// What its setting lines say; keywords that it lacks are those of the arguments.
    pub fn settings(&self) -> &Settings {
        &self.settings
    }
}

/// Files in the order in which they came, none of them twice.
#[derive(Debug, Drop)]
pub struct CheckedFiles {
    files: Vec<CheckedFile>,
}

impl CheckedFiles {
    /// None.
    pub fn new(alloc: Global) -> CheckedFiles {
        CheckedFiles {
            files: Vec::new(alloc),
        }
    }

    /// All of them, to go over.
    pub fn as_slice(&self) -> &[CheckedFile] {
        self.files.as_slice()
    }

    /// The keywords of all of them, each once.
    pub fn keywords(&self, alloc: Global) -> Result<NameSet, AllocError> {
        let mut names = NameSet::new(alloc);
        for file in self.as_slice() {
            add_keywords(alloc, &mut names, file.settings())?;
        }
        Ok(names)
    }
}

impl FileSink for CheckedFiles {
    fn has_path(&self, path: &str) -> bool {
        self.as_slice()
            .iter()
            .any(|file| file.path.as_str() == path)
    }

    fn is_complete(&self) -> bool {
        self.files.len() >= MOST_FILES
    }

    fn take(
        &mut self,
        alloc: Global,
        named: Named<'_>,
        text: String,
        keywords: Option<&str>,
    ) -> Result<(), Fault> {
        let text = Whole::of_string(alloc, text)?;
        self.files
            .push(checked_file(alloc, named, text, keywords)?)?;
        Ok(())
    }
}

fn checked_file(
    alloc: Global,
    named: Named<'_>,
    text: Whole,
    keywords: Option<&str>,
) -> Result<CheckedFile, Fault> {
    let settings = match keywords {
        Some(words) => settings_with(alloc, &text, words)?,
        None => read_settings(alloc, &mut Meter::new(), &text)?,
    };
    Ok(CheckedFile {
        name: String::from_str(alloc, named.name)?,
        path: String::from_str(alloc, named.path)?,
        text,
        settings,
    })
}

// What the setting lines of a text say; where it names no keyword, with these keywords. The line of keywords that is put after
// the text for this is put after a copy.
fn settings_with(alloc: Global, text: &Whole, words: &str) -> Result<Settings, Fault> {
    let text = with_keywords(alloc, text.copy_out()?, words)?;
    let text = Whole::of_string(alloc, text)?;
    read_settings(alloc, &mut Meter::new(), &text)
}

// Adds those keywords that aren't there.
fn add_keywords(alloc: Global, names: &mut NameSet, settings: &Settings) -> Result<(), AllocError> {
    for place in 0..settings.keyword_count() {
        add_new(alloc, names, settings.keyword_word(place))?;
    }
    Ok(())
}

fn add_new(alloc: Global, names: &mut NameSet, word: &[u8]) -> Result<(), AllocError> {
    if names.place(word).is_none() {
        names.add(Vec::from_slice(alloc, word)?)?;
    }
    Ok(())
}
