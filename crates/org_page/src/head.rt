//! The head of a page, and its end.
ghost use Rattle.std.specs.Prelude.{◌≡◌};
ghost use Rattle.org_page.specs.Drafts.{KeepsTitles};
ghost use Rattle.org_page.specs.Fronts.{is_page};

use crate::draft::Lent::{Number, Pair, Tag, Text, Time, With};
use crate::draft::{Draft, with};
use crate::page::Page;
use crate::style::STYLE;
use std::alloc::AllocError;

// With what each page begins, which no other file is likely to.
const BEGIN: &str =
    "<!DOCTYPE html>\n<html lang=\"en\">\n<head>\n<meta charset=\"utf-8\">\n<meta name=\"generator\" content=\"orgq page\">\n";

/// Whether a text begins as a page does.
pub fn is_page(text: &[u8]) -> bool
    ensures value { result ≡ is_page text.now }
{
    text.starts_with(BEGIN.as_bytes())
}

/// Begins a page.
pub(crate) fn put_head(draft: &mut Draft, page: &Page) -> Result<(), AllocError>
    ensures titles { KeepsTitles result draft.old draft.new }
{
    put_metas(draft, page.title.as_str())?;
    draft.put(&[
        Text("\n"),
        Tag("body"),
        Text("\n"),
        Pair("a", with("class", "skip"), with("href", "#today")),
        Text("To today"),
        Tag("/a"),
        Text("\n"),
        Tag("header"),
        Tag("h1"),
        Text(page.title.as_str()),
        Text(" "),
        Tag("small"),
        Text("Week "),
        Number(u64::from(page.week)),
        Text(", "),
        Time(page.today.minute),
        Tag("/small"),
        Tag("/h1"),
    ])?;
    put_parts(draft, !page.late.is_empty())
}

// What a page may fetch and run: nothing but its own style.
const POLICY: &str = "default-src 'none'; style-src 'unsafe-inline'";

fn put_metas(draft: &mut Draft, title: &str) -> Result<(), AllocError>
    ensures titles { KeepsTitles result draft.old draft.new }
{
    draft.put(&[
        Tag("!DOCTYPE html"),
        Text("\n"),
        With("html", "lang", "en"),
        Text("\n"),
        Tag("head"),
        Text("\n"),
        With("meta", "charset", "utf-8"),
        Text("\n"),
        Pair(
            "meta",
            with("name", "generator"),
            with("content", "orgq page"),
        ),
        Text("\n"),
        Pair(
            "meta",
            with("name", "viewport"),
            with("content", "width=device-width, initial-scale=1"),
        ),
        Text("\n"),
        Pair(
            "meta",
            with("http-equiv", "Content-Security-Policy"),
            with("content", POLICY),
        ),
        Text("\n"),
        Tag("title"),
        Text(title),
        Tag("/title"),
        Text("\n"),
        Tag("style"),
        Text("\n"),
        Text(STYLE),
        Tag("/style"),
        Text("\n"),
        Tag("/head"),
    ])
}

// Puts links to the parts of the page, and begins these.
fn put_parts(draft: &mut Draft, has_late: bool) -> Result<(), AllocError>
    ensures titles { KeepsTitles result draft.old draft.new }
{
    draft.put(&[With("nav", "aria-label", "Parts"), Tag("ul")])?;
    put_part(draft, "#today", "Today")?;
    if has_late {
        put_part(draft, "#late", "Late")?;
    }
    put_part(draft, "#coming", "Coming")?;
    put_part(draft, "#month", "Month")?;
    put_part(draft, "#clock", "Clocked")?;
    put_part(draft, "#open", "Open")?;
    draft.put(&[
        Tag("/ul"),
        Tag("/nav"),
        Tag("/header"),
        Text("\n"),
        Tag("main"),
    ])
}

fn put_part(draft: &mut Draft, link: &'static str, words: &'static str) -> Result<(), AllocError>
    ensures titles { KeepsTitles result draft.old draft.new }
{
    draft.put(&[
        Tag("li"),
        With("a", "href", link),
        Text(words),
        Tag("/a"),
        Tag("/li"),
    ])
}

/// Ends a page.
pub(crate) fn put_end(draft: &mut Draft, footer: &str) -> Result<(), AllocError>
    ensures titles { KeepsTitles result draft.old draft.new }
{
    draft.put(&[
        Tag("/main"),
        Text("\n"),
        Tag("footer"),
        Text(footer),
        Tag("/footer"),
        Text("\n"),
        Tag("/body"),
        Text("\n"),
        Tag("/html"),
        Text("\n"),
    ])
}
