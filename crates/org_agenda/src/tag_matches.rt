//! What is known of the tags of a file's headings before an expression is asked of them.
ghost use Rattle.std.specs.Prelude.{◌≡◌, ◌<◌, [], ◌∷◌, ◌++◌, length, nat_le, take, IfOk, OnOk};
ghost use Rattle.org_agenda.specs.Facts.{AreTagMatchesAt, AreTagMatchesBefore, AreTagMatchesBehind, StandsThere};
ghost use Rattle.org_agenda.specs.TagMatches.{AreTagMatchesAbove, innermost_matches, IsClosed, with_entry_at};
ghost use Rattle.org_inherit.specs.Tags.{own_tags, tags_in};
ghost use Rattle.org_outline.specs.Levels.{levels};
ghost use Rattle.org_outline.specs.Parents.{up_to_parent};
ghost use Rattle.org_outline.specs.Places.{behind};

use crate::facts::HeadingFacts;
use org_base::Span;
use org_entry::Entry;
use org_inherit::Inherit;
use org_match::{Matcher, TagList, TermMatches};
use org_outline::Outline;
use std::alloc::{AllocError, Global};
use std::marker::Model;

// An expression's matches on the file's tags, and on all tags of the headings that entries still to come may stand
// below, the innermost last. A heading's matches are those of its parent and those on its own tags, so that inherited
// tags aren't gone over again. Where it has no own tags they are its parent's, which stand once. So there are no more
// of them than the outline has levels that are open.
#[derive(Drop)]
pub(crate) struct TagMatches {
    levels: Vec<LevelMatches>,
}

// The matches on all tags of the heading at a place; where there is none, those on the file's.
#[derive(Drop)]
pub(crate) struct LevelMatches {
    pub heading: Option<usize>,
    pub list: TermMatches,
}

impl LevelMatches {
    // Whether they are those of one of the first so many entries, or of the file.
    fn is_within(&self, up_to: usize) -> bool
        ensures value { result ≡ nat_le (behind self.now.heading) up_to }
    {
        match self.heading {
            Some(place) => place < up_to,
            None => true,
        }
    }
}

impl Model for TagMatches {
    ghost use Rattle.std.specs.Prelude.{List};
    ghost use Rattle.org_agenda.specs.declared.tag_matches.LevelMatches.{LevelMatches};

    ghost Value = { List LevelMatches };

    ghost view = { λ v. v.levels.items };
}

// How many entries there are up to the parent of the one at a place, with it; 0 where it has none.
fn up_to_parent(outline: &Outline, place: usize) -> usize
    requires within { place < length outline.now }
    ensures value { result ≡ up_to_parent (levels outline.now) place }
{
    match outline.parent(place) {
        Some(parent) => parent + 1,
        None => 0,
    }
}

impl TagMatches {
    // No matches, those on the file's tags neither.
    pub(crate) fn new(alloc: Global) -> TagMatches
        ensures { result ≡ [] }
    {
        TagMatches {
            levels: Vec::new(alloc),
        }
    }

    // An expression's matches on the tags of a file, before its first entry.
    pub(crate) fn of(
        alloc: Global,
        matcher: &mut Matcher<'_>,
        inherit: &Inherit<'_>,
    ) -> Result<TagMatches, AllocError>
        ensures value { IfOk result (λ known. AreTagMatchesAbove matcher.old inherit.now 0 known) }
        ensures unchanged { matcher.new ≡ matcher.old }
    {
        let file = matcher.tags_found(alloc, &[], inherit.settings().file_tags())?;
        let mut known = TagMatches::new(alloc);
        known.push(None, file)?;
        Ok(known)
    }

    // The innermost matches, those of the heading that was entered last; none where there are none.
    pub(crate) fn innermost_matches(&self) -> &[bool]
        ensures { result.now ≡ innermost_matches self.now [] }
    {
        match self.levels.last() {
            Some(level) => level.list.as_slice(),
            None => &[],
        }
    }

    // Puts the matches of a heading after the others; where there is none, those of the file.
    fn push(&mut self, heading: Option<usize>, list: TermMatches) -> Result<(), AllocError>
        ensures { OnOk result (self.new ≡ self.old ++ record { heading = heading; list = list } ∷ []) }
    {
        self.levels.push(LevelMatches { heading, list })?;
        Ok(())
    }

    // How many of them stay where the levels after so many entries are closed.
    fn count_open(&self, up_to: usize) -> usize
        ensures { IsClosed self.now (take result self.now) up_to }
    {
        let mut kept = self.levels.len();
        while kept > 0 {
            if self.levels[kept - 1].is_within(up_to) {
                return kept;
            }
            kept -= 1;
        }
        0
    }

    // Closes the levels after so many entries: their matches are dropped.
    fn close(&mut self, up_to: usize)
        ensures { IsClosed self.old self.new up_to }
    {
        let kept = self.count_open(up_to);
        self.levels.truncate(kept);
    }

    // Goes on to a heading, which is the next one. Its matches are the innermost then.
    pub(crate) fn enter(
        &mut self,
        alloc: Global,
        matcher: &mut Matcher<'_>,
        facts: &HeadingFacts<'_, '_>,
    ) -> Result<(), AllocError>
        requires heading { StandsThere facts.now }
        requires known { AreTagMatchesBefore matcher.old facts.now self.old }
        ensures ok { OnOk result (AreTagMatchesBehind matcher.old facts.now self.new) }
        ensures own { OnOk result (AreTagMatchesAt matcher.old facts.now (innermost_matches self.new [])) }
        ensures unchanged { matcher.new ≡ matcher.old }
    {
        let outline = facts.heading.inherit.outline();
        let up_to = up_to_parent(outline, facts.heading.place);
        self.close(up_to);
        if !matcher.asks_tags() {
            return Ok(());
        }
        self.add(alloc, matcher, outline, facts.heading.place)
    }

    // Puts those of the entry at a place after the others, the innermost of which are its parent's.
    fn add(
        &mut self,
        alloc: Global,
        matcher: &mut Matcher<'_>,
        outline: &Outline,
        place: usize,
    ) -> Result<(), AllocError>
        requires within { place < length outline.now }
        ensures ok { OnOk result (self.new ≡ with_entry_at self.old outline.now place matcher.old) }
        ensures unchanged { matcher.new ≡ matcher.old }
    {
        let tags = OwnTags::of(outline.entry(place));
        if tags.tag_count() == 0 {
            return Ok(());
        }
        let own = matcher.tags_found(alloc, self.innermost_matches(), &tags)?;
        self.push(Some(place), own)
    }
}

// An entry's own tags, lent.
#[derive(Drop)]
struct OwnTags<'a> {
    entry: &'a Entry,
    spans: &'a [Span],
}

impl<'a> OwnTags<'a> {
    // Those of an entry.
    fn of(entry: &'a Entry) -> OwnTags<'a>
        ensures value { tags_in result.entry.now.text result.spans.now ≡ own_tags entry.now }
    {
        let spans = match &entry.head {
            Some(head) => head.tags.as_slice(),
            None => &[],
        };
        OwnTags { entry, spans }
    }
}

impl TagList for OwnTags<'_> {
    ghost list = { λ t. tags_in t.entry.now.text t.spans.now };

    fn tag_count(&self) -> usize {
        self.spans.len()
    }

    fn tag(&self, place: usize) -> &[u8] {
        self.entry.part(self.spans[place])
    }
}
