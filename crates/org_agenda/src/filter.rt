//! Which headings a list shows.
ghost use Rattle.std.specs.Prelude.{◌≡◌, [], bytes_eq, option_copied, IfOk, IsOkUnless, OnOk};
ghost use Rattle.std.specs.List.{list_any};
ghost use Rattle.org_base.specs.Codes.{memory_fault};
ghost use Rattle.org_base.specs.Results.{Gives};
ghost use Rattle.org_agenda.specs.Facts.{AreKnownBefore, AreKnownBehind, AreTagMatchesAt, IsKnownAt, StandsThere, holds_at, is_listed_at};
ghost use Rattle.org_agenda.specs.Headings.{has_open_keyword};
ghost use Rattle.org_agenda.specs.Lists.{is_named};
ghost use Rattle.org_agenda.specs.TagMatches.{AreKnown, innermost_matches};

use crate::facts::HeadingFacts;
use crate::tag_matches::TagMatches;
use org_base::{Fault, Texts};
use org_cal::Moment;
use org_entry::is_finished;
use org_inherit::Inherit;
use org_match::Matcher;
use org_settings::Settings;
use std::alloc::{AllocError, Global};
use std::marker::Model;

// Which headings a list shows.
#[derive(Drop)]
pub(crate) enum Condition<'a> {
    // Those with a keyword that isn't done.
    Open,
    // Those with one of these keywords.
    Named(&'a Texts),
    // Those of which the expression holds at the moment.
    Matching(TimedMatch<'a>),
}

// An expression, and the moment at which it is asked.
#[derive(Drop)]
pub(crate) struct TimedMatch<'a> {
    pub matcher: Matcher<'a>,
    pub moment: Moment,
}

// A choice of headings, seen as what it chooses.
#[derive(Drop)]
pub(crate) struct Filter<'a> {
    pub wanted: Condition<'a>,
}

impl<'a> Model for Filter<'a> {
    ghost use Rattle.org_agenda.specs.Lists.{Listing};
    ghost use Rattle.org_agenda.specs.Chosen.{listing_of};

    ghost Value = { Listing };

    ghost view = { λ c. listing_of c.wanted };
}

impl<'a> Filter<'a> {
    // What has to be known of a file's tags, before its first entry.
    pub(crate) fn tag_matches(
        &mut self,
        alloc: Global,
        inherit: &Inherit<'_>,
    ) -> Result<TagMatches, AllocError>
        ensures value { IfOk result (λ known. AreKnown self.old inherit.now 0 known) }
        ensures unchanged { self.new ≡ self.old }
    {
        match &mut self.wanted {
            Condition::Open | Condition::Named(_) => Ok(TagMatches::new(alloc)),
            Condition::Matching(question) => TagMatches::of(alloc, &mut question.matcher, inherit),
        }
    }

    // Goes on to a heading, which is the next one, in what is known of tags.
    pub(crate) fn enter(
        &mut self,
        alloc: Global,
        known: &mut TagMatches,
        facts: &HeadingFacts<'_, '_>,
    ) -> Result<(), AllocError>
        requires heading { StandsThere facts.now }
        requires known { AreKnownBefore self.old facts.now known.old }
        ensures ok { OnOk result (AreKnownBehind self.old facts.now known.new) }
        ensures own { OnOk result (IsKnownAt self.old facts.now (innermost_matches known.new [])) }
        ensures unchanged { self.new ≡ self.old }
    {
        match &mut self.wanted {
            Condition::Open | Condition::Named(_) => Ok(()),
            Condition::Matching(question) => known.enter(alloc, &mut question.matcher, facts),
        }
    }

    // Whether the list shows the heading, unless it is hidden.
    pub(crate) fn shows(
        &mut self,
        alloc: Global,
        facts: &HeadingFacts<'_, '_>,
        known: &[bool],
    ) -> Result<bool, Fault>
        requires known { IsKnownAt self.old facts.now known.now }
        ensures value { Gives result (is_listed_at self.old facts.now) }
        ensures unchanged { self.new ≡ self.old }
        ensures memory { IsOkUnless result memory_fault }
    {
        match &mut self.wanted {
            Condition::Open => Ok(has_open_keyword(
                facts.heading.inherit.settings(),
                facts.heading.keyword(),
            )),
            Condition::Named(words) => Ok(is_named(words, facts.heading.keyword())),
            Condition::Matching(question) => matches(alloc, question, facts, known),
        }
    }
}

fn matches(
    alloc: Global,
    question: &mut TimedMatch<'_>,
    facts: &HeadingFacts<'_, '_>,
    known: &[bool],
) -> Result<bool, Fault>
    requires known { AreTagMatchesAt question.old.matcher facts.now known.now }
    ensures value { Gives result (holds_at question.old.matcher question.old.moment facts.now) }
    ensures unchanged { question.new ≡ question.old }
    ensures memory { IsOkUnless result memory_fault }
{
    question
        .matcher
        .test_with(alloc, facts, &question.moment, known)
}

fn has_open_keyword(settings: &Settings, keyword: Option<&[u8]>) -> bool
    ensures { result ≡ has_open_keyword settings.now (option_copied keyword.entry) }
{
    keyword.is_some() && !is_finished(settings, keyword)
}

fn is_named(words: &Texts, keyword: Option<&[u8]>) -> bool
    ensures { result ≡ is_named words.now (option_copied keyword.entry) }
{
    match keyword {
        Some(keyword) => is_among(words, keyword),
        None => false,
    }
}

fn is_among(words: &Texts, keyword: &[u8]) -> bool
    ensures { result ≡ list_any (bytes_eq keyword.now) words.now }
{
    for place in 0..words.count() {
        if keyword == words.get(place) {
            return true;
        }
    }
    false
}
