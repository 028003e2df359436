//! Why an act wasn't done, in words.

use crate::heading::HeadingText;
use org_act::{Refusal, Unamended};
use org_amend::Unreadable;
use org_base::{Code, Fault, Meter};
use org_class::read_settings;
use org_client::push_clock_minute;
use org_settings::Settings;
use org_text::{Text, Whole};
use orgq_messages::{CHANGED, out_of_memory, say_of, say_unsaved};
use std::alloc::{AllocError, Global};
use std::str;

/// Says why an act on the heading of a line wasn't done.
pub fn say_unamended<R: AllocGlobal + Eprint>(
    rt: &R,
    heading: &HeadingText,
    line: u64,
    why: &Unamended,
) {
    match why {
        Unamended::Refused(refusal) => say_refusal(rt, heading, line, *refusal),
        Unamended::Unsaved(unsaved) => say_unsaved(rt, heading.name.as_str(), unsaved),
    }
}

/// Says that several headings of a file aren't changed since that on a line is refused.
pub fn say_unchanged<R: AllocGlobal + Eprint>(rt: &R, heading: &HeadingText, line: u64) {
    match format!(in rt.alloc(); "line {line} is refused, so none of its headings is changed") {
        Ok(text) => say_of(rt, heading.name.as_str(), text.as_str()),
        Err(_) => {
            let _ = out_of_memory(rt);
        }
    }
}

fn say_refusal<R: AllocGlobal + Eprint>(rt: &R, heading: &HeadingText, line: u64, why: Refusal) {
    match refusal_text(rt.alloc(), heading, line, why) {
        Ok(Some(text)) => say_of(rt, heading.name.as_str(), text.as_str()),
        Ok(None) | Err(_) => {
            let _ = out_of_memory(rt);
        }
    }
}

// What is said of a refusal; none where memory is refused.
fn refusal_text(
    alloc: Global,
    heading: &HeadingText,
    line: u64,
    why: Refusal,
) -> Result<Option<String>, Fault> {
    let word = heading.act.word();
    match why {
        Refusal::NotDone => {
            let done = keyword_list(alloc, heading, true)?;
            Ok(Some(format!(in alloc; "no done keyword {word}; it has {done}")?))
        }
        Refusal::NoDone => Ok(Some(String::from_str(alloc, NO_DONE)?)),
        Refusal::ClockRuns => Ok(Some(String::from_str(alloc, "a clock of this heading runs")?)),
        Refusal::NoClock => Ok(Some(String::from_str(alloc, "no clock of this heading runs")?)),
        Refusal::EndsEarly(from) => Ok(Some(early_text(alloc, from)?)),
        Refusal::Misread => Ok(Some(String::from_str(alloc, MISREAD)?)),
        Refusal::NoDate => Ok(Some(String::from_str(alloc, "it has no such date to go on from")?)),
        Refusal::Edited => Ok(Some(String::from_str(alloc, CHANGED)?)),
        Refusal::Unreadable(Unreadable::Keyword) => fault_text(alloc, heading, line, Code::Keyword),
        Refusal::Unreadable(why) => Ok(Some(String::from_str(alloc, why_unreadable(why))?)),
        Refusal::Fault(fault) => fault_text(alloc, heading, line, fault.code()),
    }
}

fn early_text(alloc: Global, from: u64) -> Result<String, AllocError> {
    let mut text = String::from_str(alloc, "its clock begins at ")?;
    push_clock_minute(&mut text, from)?;
    text.push_str(", which is later")?;
    Ok(text)
}

const NO_DONE: &str = "the keywords of this heading have no done one";

const MISREAD: &str =
    "what stands behind its stamps would be read as something else; nothing was written";

fn why_unreadable(why: Unreadable) -> &'static str {
    match why {
        Unreadable::Keyword => "the keyword is none of its own",
        Unreadable::Priority => "no such priority: a letter A to Z, or a number 0 to 64",
        Unreadable::Property => {
            "no such property: a name is one word without + at its end, and a value one line"
        }
        Unreadable::Tags => "no such tag: a tag has letters, digits, _, @, # and %",
        Unreadable::Title => {
            "the title would be read as something else: it is empty, or has a keyword, a priority, COMMENT, tags or an end of a line"
        }
        Unreadable::Dates => "the dates can't stand on one line",
        Unreadable::Body => {
            "the body would be read as something else: it has a heading, a setting, planning, a drawer or a clock"
        }
    }
}

fn fault_text(
    alloc: Global,
    heading: &HeadingText,
    line: u64,
    code: Code,
) -> Result<Option<String>, Fault> {
    match code {
        Code::Memory => Ok(None),
        Code::Heading => Ok(Some(format!(in alloc; "no heading at line {line}")?)),
        Code::Keyword => {
            let (word, all) = (heading.act.word(), keyword_list(alloc, heading, false)?);
            Ok(Some(format!(in alloc; "no keyword {word}; it has {all}")?))
        }
        code => Ok(Some(String::from_str(alloc, why_code(code))?)),
    }
}

fn why_code(code: Code) -> &'static str {
    match code {
        Code::Hours => "its repeater counts hours, and the stamp has no time, or two",
        Code::Date => "the next date would lie behind 9999-12-31",
        Code::Size => "it would have more than 64 MiB",
        code => code.name(),
    }
}

// The keywords of the heading's file, with spaces between them; of these the done ones alone, if that is wanted.
fn keyword_list(alloc: Global, heading: &HeadingText, is_done: bool) -> Result<String, Fault> {
    let whole = Whole::of_string(alloc, heading.whole(alloc)?)?;
    let settings = read_settings(alloc, &mut Meter::new(), &whole)?;
    Ok(list_of(alloc, &settings, is_done)?)
}

fn list_of(alloc: Global, settings: &Settings, is_done: bool) -> Result<String, AllocError> {
    let mut list = String::new(alloc);
    for place in 0..settings.keyword_count() {
        if settings.is_done(place) || !is_done {
            push_word(&mut list, settings.keyword_word(place))?;
        }
    }
    Ok(list)
}

fn push_word(list: &mut String, word: &[u8]) -> Result<(), AllocError> {
    if !list.as_str().is_empty() {
        list.push_str(" ")?;
    }
    list.push_str(str::from_utf8(word).unwrap_or(""))?;
    Ok(())
}
