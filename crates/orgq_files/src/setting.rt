//! Settings of the file `config`, and the words that count.
ghost use Rattle.std.specs.Prelude.{◌≡◌, map, string_bytes};
ghost use Rattle.org_base.specs.Results.{GivesText};
ghost use Rattle.orgq_files.specs.Settings.{AddsWords, GivesWords, choice_name, counted_words, counts, is_named, option_word, own_words};

use std::alloc::{AllocError, Global};

/// An option that may stand in the file.
#[derive(Clone, Copy, Debug, PartialEq, Eq)]
pub enum Choice {
    Background,
    Color,
    Columns,
    File,
    Inbox,
    Inherit,
    Keywords,
    LogDone,
    LogIntoDrawer,
    LogRepeat,
    NextAction,
    Profile,
    Project,
    Words,
}

impl Choice {
    /// The option of a name.
    pub fn of_name(name: &str) -> Option<Choice> {
        match name {
            "background" => Some(Choice::Background),
            "color" => Some(Choice::Color),
            "columns" => Some(Choice::Columns),
            "file" => Some(Choice::File),
            "inbox" => Some(Choice::Inbox),
            "inherit" => Some(Choice::Inherit),
            "keywords" => Some(Choice::Keywords),
            "log-done" => Some(Choice::LogDone),
            "log-into-drawer" => Some(Choice::LogIntoDrawer),
            "log-repeat" => Some(Choice::LogRepeat),
            "next-action" => Some(Choice::NextAction),
            "profile" => Some(Choice::Profile),
            "project" => Some(Choice::Project),
            "words" => Some(Choice::Words),
            _ => None,
        }
    }

    /// Its name.
    pub fn name(self) -> &'static str
        ensures value { result.now ≡ choice_name self }
    {
        match self {
            Choice::Background => "background",
            Choice::Color => "color",
            Choice::Columns => "columns",
            Choice::File => "file",
            Choice::Inbox => "inbox",
            Choice::Inherit => "inherit",
            Choice::Keywords => "keywords",
            Choice::LogDone => "log-done",
            Choice::LogIntoDrawer => "log-into-drawer",
            Choice::LogRepeat => "log-repeat",
            Choice::NextAction => "next-action",
            Choice::Profile => "profile",
            Choice::Project => "project",
            Choice::Words => "words",
        }
    }

    /// Whether it may stand several times.
    pub fn is_list(self) -> bool {
        matches!(self, Choice::File | Choice::Inherit)
    }
}

/// An option with its value, and the number of its line.
#[derive(Debug, Drop)]
pub struct Setting {
    pub choice: Choice,
    pub value: String,
    pub line: usize,
}

/// Which options are named before the file is asked, by the command line or by the environment.
#[derive(Clone, Copy, Debug, PartialEq, Eq)]
pub struct NamedChoices {
    pub background: bool,
    pub color: bool,
    pub columns: bool,
    pub file: bool,
    pub inbox: bool,
    pub inherit: bool,
    pub keywords: bool,
    pub log_done: bool,
    pub log_into_drawer: bool,
    pub log_repeat: bool,
    pub next_action: bool,
    pub profile: bool,
    pub project: bool,
    pub words: bool,
}

impl NamedChoices {
    /// Whether an option is named.
    pub fn has(&self, choice: Choice) -> bool
        ensures value { result ≡ is_named self.now choice }
    {
        match choice {
            Choice::Background => self.background,
            Choice::Color => self.color,
            Choice::Columns => self.columns,
            Choice::File => self.file,
            Choice::Inbox => self.inbox,
            Choice::Inherit => self.inherit,
            Choice::Keywords => self.keywords,
            Choice::LogDone => self.log_done,
            Choice::LogIntoDrawer => self.log_into_drawer,
            Choice::LogRepeat => self.log_repeat,
            Choice::NextAction => self.next_action,
            Choice::Profile => self.profile,
            Choice::Project => self.project,
            Choice::Words => self.words,
        }
    }

    /// Whether it leaves an option to the file.
    pub fn leaves(&self, choice: Choice) -> bool
        ensures value { result ≡ counts self.now choice }
    {
        !self.has(choice)
    }
}

/// The words of a command line with those settings behind the first word that name no option of it.
pub fn words_with(
    alloc: Global,
    words: &[String],
    settings: &[Setting],
    named: &NamedChoices,
) -> Result<Vec<String>, AllocError>
    ensures value { GivesWords result (counted_words named.now settings.now words.now) }
{
    let mut all = Vec::new(alloc);
    let Some((program, others)) = words.split_first() else {
        return Ok(all);
    };
    all.push(String::from_str(alloc, program.as_str())?)?;
    push_settings(alloc, &mut all, settings, named)?;
    push_words(alloc, &mut all, others)?;
    Ok(all)
}

fn push_settings(
    alloc: Global,
    all: &mut Vec<String>,
    settings: &[Setting],
    named: &NamedChoices,
) -> Result<(), AllocError>
    ensures value { AddsWords result all.old all.new (own_words named.now settings.now) }
{
    for setting in settings {
        if named.leaves(setting.choice) {
            let word = option_word(alloc, setting)?;
            all.push(word)?;
        }
    }
    Ok(())
}

fn push_words(alloc: Global, all: &mut Vec<String>, words: &[String]) -> Result<(), AllocError>
    ensures value { AddsWords result all.old all.new (map string_bytes words.now) }
{
    for word in words {
        all.push(String::from_str(alloc, word.as_str())?)?;
    }
    Ok(())
}

// A setting as a word of a command line.
fn option_word(alloc: Global, setting: &Setting) -> Result<String, AllocError>
    ensures value { GivesText result (option_word setting.now.choice (string_bytes setting.now.value)) }
{
    let mut word = String::from_str(alloc, "--")?;
    word.push_str(setting.choice.name())?;
    word.push_str("=")?;
    word.push_str(setting.value.as_str())?;
    Ok(word)
}
