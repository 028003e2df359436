//! Completing a heading of a file.
ghost use Rattle.std.specs.Prelude.{◌≡◌, ◌++◌, Ok};
ghost use Rattle.org_act.specs.Changes.{ChoosesText, Makes};
ghost use Rattle.org_act.specs.Completing.{amended_by, amended_whole, chosen_word, is_open_word};
ghost use Rattle.org_complete.specs.Completion.{sized};
ghost use Rattle.org_complete.specs.Written.{AnswersAs};
ghost use Rattle.org_store.specs.Outline.{file_settings};

use crate::act::{Act, Refusal};
use crate::acts::HeadingAct;
use crate::done::done_word;
use org_base::{Code, Fault, Meter};
use org_cal::Moment;
use org_complete::complete;
use org_store::{File, OwnedChange};
use org_text::{MAX_BYTES, Text, Whole};
use std::alloc::Global;

/// The keyword by which a heading is completed.
#[derive(Clone, Copy, Debug)]
pub enum KeywordChoice<'a> {
    /// This one, whichever it is.
    Any(&'a str),
    /// This one, which has to be a done one.
    Done(&'a str),
    /// The first done one of the heading's sequence; where the heading has no keyword, of the file's first sequence.
    FirstDone,
}

/// The heading on a line is completed, as the engine does it: `complete` of `org_complete`.
#[derive(Clone, Copy, Debug)]
pub struct Completion<'a> {
    /// The line. Lines count from 1.
    pub line: u64,
    /// The keyword.
    pub keyword: KeywordChoice<'a>,
    /// When it is done.
    pub moment: Moment,
    /// What is read after the text, as a setting line that names keywords, and never written. It may be empty.
    pub behind: &'a str,
}

impl<'a> Completion<'a> {
    // The word by which the heading on a line of a text is completed.
    pub(crate) fn word_on(&self, alloc: Global, text: &str, line: u64) -> Result<String, Refusal> {
        match file_of(alloc, text, self.behind) {
            Ok(mut file) => chosen_word(alloc, &mut file, line, self.keyword),
            Err(fault) => Err(Refusal::Fault(fault)),
        }
    }
}

impl<'a> Act for Completion<'a> {
    ghost use Rattle.org_act.specs.Completing.{completed_text};

    ghost amended = { completed_text };

    fn plan(&self, alloc: Global, text: &str) -> Result<OwnedChange, Refusal> {
        match file_of(alloc, text, self.behind) {
            Ok(mut file) => plan_in(alloc, &mut file, text, self),
            Err(fault) => Err(Refusal::Fault(fault)),
        }
    }
}

impl<'a> HeadingAct for Completion<'a> {
    ghost use Rattle.org_act.specs.Completing.{completed_on};

    ghost amended_on = { completed_on };

    fn plan_on(&self, alloc: Global, text: &str, line: u64) -> Result<OwnedChange, Refusal> {
        let act = Completion {
            line,
            keyword: self.keyword,
            moment: self.moment,
            behind: self.behind,
        };
        act.plan(alloc, text)
    }
}

// What completing changes of a text, which is the first part of a file's.
fn plan_in(
    alloc: Global,
    file: &mut File<Whole>,
    text: &str,
    act: &Completion<'_>,
) -> Result<OwnedChange, Refusal>
    requires whole { file.old.text ≡ text.now ++ act.now.behind.now }
    ensures value { Makes result text.now (amended_whole act.now text.now file.old.text) }
{
    match chosen_word(alloc, file, act.line, act.keyword) {
        Ok(word) => plan_by(alloc, file, text, act, word.as_str()),
        Err(why) => Err(why),
    }
}

// A file of a text, with what is read after it.
pub(crate) fn file_of(alloc: Global, text: &str, behind: &str) -> Result<File<Whole>, Fault>
    ensures value { AnswersAs (λ f. f.text) result (sized (text.now ++ behind.now)) }
{
    let mut whole = String::from_str(alloc, text)?;
    whole.push_str(behind)?;
    let whole = Whole::of_string(alloc, whole)?;
    File::new(alloc, &mut Meter::new(), whole, 0)
}

// The word that a keyword is chosen by. The file's text stays.
fn chosen_word(
    alloc: Global,
    file: &mut File<Whole>,
    line: u64,
    keyword: KeywordChoice<'_>,
) -> Result<String, Refusal>
    ensures value { ChoosesText result (chosen_word file.old.text line keyword.entry) }
    ensures same { file.new.text ≡ file.old.text }
{
    match keyword {
        KeywordChoice::Any(word) => Ok(String::from_str(alloc, word)?),
        KeywordChoice::Done(word) if is_open(file, word) => Err(Refusal::NotDone),
        KeywordChoice::Done(word) => Ok(String::from_str(alloc, word)?),
        KeywordChoice::FirstDone => done_word(alloc, file, line),
    }
}

// Whether a word is a keyword of a file and none of its done ones.
fn is_open(file: &File<Whole>, word: &str) -> bool
    ensures value { result ≡ is_open_word (file_settings file.now.text) word.now }
{
    match file.settings().keyword_place(word.as_bytes()) {
        Some(place) => !file.settings().is_done(place),
        None => false,
    }
}

// What completing by a word changes of a text, which is the first part of a file's.
fn plan_by(
    alloc: Global,
    file: &mut File<Whole>,
    text: &str,
    act: &Completion<'_>,
    word: &str,
) -> Result<OwnedChange, Refusal>
    requires whole { file.old.text ≡ text.now ++ act.now.behind.now }
    ensures value { Makes result text.now (amended_by act.now text.now file.old.text (Ok word.now)) }
{
    let len = file.text().len();
    let change = complete(alloc, &mut Meter::new(), file, act.line, word, act.moment)?;
    if len - change.del as usize + change.ins.len() > MAX_BYTES {
        return Err(Refusal::Fault(Fault::Plain(Code::Size)));
    }
    if (text.len() as u64) < change.at + change.del {
        return Err(Refusal::Fault(Fault::Plain(Code::Heading)));
    }
    Ok(change)
}
