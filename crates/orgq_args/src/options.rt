//! What the arguments ask for.

use clap::ArgMatches;
use org_answer::Form;
use org_base::{Fault, Profile, Texts};
use org_client::Template;
use orgq_messages::Problem;
use std::alloc::{AllocError, Global};
use std::collections::BTreeSet;

/// The form that the options name: of several the first in this order counts, but `--format` stands alone.
pub fn form<'a>(matches: &ArgMatches<'a>) -> Result<Form<'a>, Problem> {
    if matches.get_flag("json") && matches.get_flag("csv") {
        return Err(Problem::TwoForms);
    }
    let Some(text) = matches.get_str("format") else {
        return Ok(named_form(matches));
    };
    if named_form(matches) != Form::Plain {
        return Err(Problem::FormatBeside);
    }
    match Template::read(text) {
        Some(template) => Ok(Form::Template(template)),
        None => Err(Problem::Format),
    }
}

/// Whether short ids stand in front of rows.
pub fn has_ids(matches: &ArgMatches<'_>) -> bool {
    matches.get_flag("ids")
}

/// The form without a template.
pub fn named_form<'a>(matches: &ArgMatches<'a>) -> Form<'a> {
    if matches.get_flag("csv") {
        Form::Csv
    } else if matches.get_flag("json") {
        Form::Json
    } else if matches.get_flag("places") {
        Form::Places
    } else {
        Form::Plain
    }
}

/// Whether colours are asked for; None where the word is none of those that there are.
pub fn is_colored(word: Option<&str>, on_terminal: bool, is_unwanted: bool) -> Option<bool> {
    match word.unwrap_or("auto") {
        "auto" => Some(on_terminal && !is_unwanted),
        "always" => Some(true),
        "never" => Some(false),
        _ => None,
    }
}

/// The profile of a number: the second of 2, and else the first.
pub fn profile(number: u32) -> Profile {
    if number == 2 {
        Profile::Two
    } else {
        Profile::One
    }
}

/// The words of `--properties`, which are for objects of JSON alone.
pub fn property_words<'a, 'b>(
    matches: &'b ArgMatches<'a>,
) -> Result<Option<&'b [&'a str]>, Problem> {
    let Some(words) = matches.get_strs("properties") else {
        return Ok(None);
    };
    let is_named = words.iter().all(|word| are_names(word));
    if !is_named || named_form(matches) != Form::Json {
        return Err(Problem::Properties);
    }
    Ok(Some(words))
}

// Whether a word has names with commas between them.
fn are_names(word: &str) -> bool {
    word.split(',').all(|name| !name.is_empty())
}

/// The names in such words, with commas between them, each once.
pub fn property_names(alloc: Global, words: Option<&[&str]>) -> Result<Texts, Fault> {
    let mut known = BTreeSet::new(alloc);
    let mut names = Texts::new(alloc);
    for word in words.unwrap_or(&[]) {
        for name in word.split(',') {
            push_name(alloc, &mut names, &mut known, name)?;
        }
    }
    Ok(names)
}

fn push_name(
    alloc: Global,
    names: &mut Texts,
    known: &mut BTreeSet<String>,
    name: &str,
) -> Result<(), Fault> {
    if known.contains(name) {
        return Ok(());
    }
    known.insert(String::from_str(alloc, name)?)?;
    names.push(name.as_bytes())
}

/// Refuses what is for rows alone, where a command has none.
pub fn without_rows(matches: &ArgMatches<'_>) -> Result<(), Problem> {
    if matches.get_str("format").is_some() || matches.get_strs("properties").is_some() {
        return Err(Problem::RowsAlone);
    }
    Ok(())
}

/// The options of a clock table, as the text that tables are asked for by, with the expression that holds of the headings that count,
/// if it isn't empty.
pub fn clock_options(
    alloc: Global,
    own: &ArgMatches<'_>,
    expression: &str,
) -> Result<String, AllocError> {
    let level = own.get_one::<u32>("level").unwrap_or(2);
    // Its days are read apart.
    let mut text = format!(in alloc; "block=today maxlevel={level}")?;
    if let Some(step) = own.get_str("step") {
        write!(text, " step={step}")?;
    }
    if own.get_flag("effort") {
        text.push_str(" effort")?;
    }
    if !expression.is_empty() {
        write!(text, " match={expression}")?;
    }
    Ok(text)
}

/// Why a word is refused that may begin with a hyphen: two in front are those of an option, which its command doesn't have.
pub fn refused_word(word: &str, otherwise: Problem) -> Problem {
    let Some(option) = word.strip_prefix("--") else {
        return otherwise;
    };
    match option.split('=').next() {
        Some("limit") => Problem::LimitOf,
        Some("sort" | "group-by") => Problem::OrderOf,
        _ => Problem::Option,
    }
}
