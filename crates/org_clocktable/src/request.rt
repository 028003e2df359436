//! What the text of options asks for.
ghost use Rattle.std.specs.Prelude.{◌≡◌, ◌<◌, ◌^◌, drop, length, option_copied};
ghost use Rattle.std.specs.Option.{option_map};
ghost use Rattle.org_cal.specs.Blocks.{block_of};
ghost use Rattle.org_cal.specs.Periods.{days_of};
ghost use Rattle.org_clocktable.specs.Request.{as_text, asked_by, asked_of, expression_from, word_at};

use crate::options::{Draft, read_options, word_len};
use org_cal::{Day, Period, Step};
use std::marker::Model;

// What a text asks for, its expression as it is written.
#[derive(Drop)]
pub(crate) struct TableRequest<'a> {
    pub period: Period,
    pub most: u32,
    pub file: Option<&'a [u8]>,
    pub step: Step,
    pub with_effort: bool,
    pub expression: Option<&'a str>,
}

impl<'a> Model for TableRequest<'a> {
    ghost use Rattle.std.specs.Prelude.{ℕ, List, option_copied};
    ghost use Rattle.org_clocktable.specs.Request.{TableRequest as RequestView};

    ghost Value = { RequestView (List ℕ) };

    ghost view = { λ a. record { days = (a.period.first, a.period.last); most = a.most; file = option_copied a.file; step = a.step; with_effort = a.with_effort; expression = option_copied a.expression } };
}

impl<'a> TableRequest<'a> {
    // What a text asks for on a day; None where it isn't in the grammar of options.
    pub(crate) fn read(text: &'a [u8], today: Day) -> Option<TableRequest<'a>>
        requires short { length text.now < 2 ^ 32 }
        ensures value { result ≡ asked_of text.now today }
    {
        let options = read_options(text)?;
        TableRequest::of(text, today, &options)
    }

    // What options of a text ask for.
    fn of(text: &'a [u8], today: Day, options: &Draft) -> Option<TableRequest<'a>>
        ensures value { result ≡ asked_by text.now today options.now }
    {
        let expression = expression_at(text, options.match_at)?;
        let block_at = options.block_at?;
        let period = period_at(text, block_at, today)?;
        let most = options.level?;
        Some(TableRequest {
            period,
            most: u32::from(most),
            file: file_at(text, options.file_at),
            step: options.step.unwrap_or(Step::Whole),
            with_effort: options.effort,
            expression,
        })
    }
}

// The text from a place on.
fn rest_at(text: &[u8], at: usize) -> &[u8]
    ensures value { result.now ≡ drop at text.now }
{
    if at >= text.len() {
        return &[];
    }
    &text[at..]
}

// The word that stands at a place.
fn word_at(text: &[u8], at: usize) -> &[u8]
    ensures value { result.now ≡ word_at text.now at }
{
    let rest = rest_at(text, at);
    &rest[..word_len(rest)]
}

// The block of time whose name stands at a place.
fn period_at(text: &[u8], at: usize, today: Day) -> Option<Period>
    ensures value { option_map days_of result ≡ block_of (word_at text.now at) today }
{
    match Period::of_block(word_at(text, at), today) {
        Ok(period) => Some(period),
        Err(_) => None,
    }
}

// The name of a file that stands at a place, if there is one.
fn file_at(text: &[u8], at: Option<usize>) -> Option<&[u8]>
    ensures value { option_copied result ≡ option_map (word_at text.now) at }
{
    let at = at?;
    Some(word_at(text, at))
}

// The expression from a place on, if there is one; None where it is no text.
fn expression_at(text: &[u8], at: Option<usize>) -> Option<Option<&str>>
    ensures value { option_map (λ e. option_copied e) result ≡ expression_from text.now at }
{
    match at {
        Some(at) => {
            let expression = as_text(rest_at(text, at))?;
            Some(Some(expression))
        }
        None => Some(None),
    }
}

fn as_text(bytes: &[u8]) -> Option<&str>
    ensures value { option_copied result ≡ as_text bytes.now }
{
    match str::from_utf8(bytes) {
        Ok(text) => Some(text),
        Err(_) => None,
    }
}
