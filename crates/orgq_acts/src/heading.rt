//! A heading that is changed, with the text of its file.

use org_act::{
    Addition, ClockAct, ClockStep, Completion, DateShift, HeadAct, KeywordChoice, Planning,
    PropertyAct, Refusal, Rewriting, text_in_turn, traced_completions, traced_notes,
    traced_plannings, traced_removals, traced_shifts,
};
use org_amend::{HeadChange, PropertyChange, TagChange, TypedDate};
use org_base::Fault;
use org_cal::Moment;
use org_stamp::PlanningKeyword;
use orgq_args::{
    HeadingPlace, Look, Wish, WishedAct, WishedHeading, WishedKeyword, WishedProperty, WishedTags,
    WishedTrace, lend,
};
use orgq_files::{LeftOut, line_behind, read_text, real_path};
use std::alloc::{AllocError, Global};
use std::rt::Files;

/// A heading of a file, the text of that, and what is asked of it.
#[derive(Debug, Drop)]
pub struct HeadingText {
    /// The file's name.
    pub name: String,
    /// The path by which it is told from others.
    pub path: String,
    /// The heading's line. Lines count from 1.
    pub line: u64,
    /// The file's text.
    pub text: String,
    /// What is read after the text and never written: a line of keywords, or nothing.
    pub behind: String,
    pub act: WishedAct,
    /// When it is done.
    pub moment: Moment,
    pub look: Look,
    /// What is logged.
    pub trace: WishedTrace,
}

impl HeadingText {
    // The heading at a place of a text, which is that of the file of a path.
    fn new(
        alloc: Global,
        place: &HeadingPlace,
        wish: &Wish,
        path: String,
        text: String,
    ) -> Result<HeadingText, Fault> {
        let behind = match &wish.keywords {
            Some(words) => line_behind(alloc, text.as_str(), words.as_str())?,
            None => String::new(alloc),
        };
        Ok(HeadingText {
            name: String::from_str(alloc, place.name.as_str())?,
            path,
            line: place.line,
            text,
            behind,
            act: wish.act.copy(alloc)?,
            moment: wish.moment,
            look: wish.look,
            trace: wish.trace.copy(alloc)?,
        })
    }

    /// The act that completes it, or gives it another keyword.
    fn completion<'a>(&'a self, keyword: KeywordChoice<'a>) -> Completion<'a> {
        Completion {
            line: self.line,
            keyword,
            moment: self.moment,
            behind: self.behind.as_str(),
        }
    }

    /// The text that is made of the file's where the headings on some lines change as is asked, with what is logged of it. The
    /// lowest line comes first.
    pub fn traced_text<R: AllocGlobal>(&self, rt: &R, lines: &[u64]) -> Result<String, Refusal> {
        match &self.act {
            WishedAct::Keyword(keyword) => self.completed_text(rt, lines, keyword),
            WishedAct::Planning(keyword, date) => self.planned_text(rt, lines, *keyword, *date),
            WishedAct::Shift(keyword, distance) => self.shifted_text(
                rt,
                lines,
                DateShift {
                    keyword: *keyword,
                    distance: distance.as_str(),
                },
            ),
            WishedAct::Tags(tags) => self.tagged_text(rt, lines, tags),
            WishedAct::Priority(Some(priority)) => {
                self.head_text(rt, lines, HeadChange::Priority(Some(priority.as_str())))
            }
            WishedAct::Priority(None) => self.head_text(rt, lines, HeadChange::Priority(None)),
            WishedAct::Property(property) => self.given_text(rt, lines, property),
            WishedAct::Note(_) => traced_notes(
                rt.alloc(),
                self.text.as_str(),
                lines,
                &self.trace.trace(self.moment),
            ),
            WishedAct::Addition(_) | WishedAct::Clock(_) => Err(Refusal::Misread),
        }
    }

    fn shifted_text<R: AllocGlobal>(
        &self,
        rt: &R,
        lines: &[u64],
        shift: DateShift<'_>,
    ) -> Result<String, Refusal> {
        traced_shifts(
            rt.alloc(),
            self.text.as_str(),
            lines,
            &shift,
            &self.trace.trace(self.moment),
        )
    }

    fn tagged_text<R: AllocGlobal>(
        &self,
        rt: &R,
        lines: &[u64],
        tags: &WishedTags,
    ) -> Result<String, Refusal> {
        let removed = lend(rt.alloc(), tags.removed.as_slice())?;
        let added = lend(rt.alloc(), tags.added.as_slice())?;
        let change = TagChange {
            removed: removed.as_slice(),
            added: added.as_slice(),
        };
        self.head_text(rt, lines, HeadChange::Tags(change))
    }

    fn head_text<R: AllocGlobal>(
        &self,
        rt: &R,
        lines: &[u64],
        change: HeadChange<'_>,
    ) -> Result<String, Refusal> {
        text_in_turn(
            rt.alloc(),
            self.text.as_str(),
            &self.head_act(change),
            lines,
        )
    }

    fn given_text<R: AllocGlobal>(
        &self,
        rt: &R,
        lines: &[u64],
        property: &WishedProperty,
    ) -> Result<String, Refusal> {
        let act = PropertyAct {
            line: self.line,
            change: PropertyChange {
                name: property.name.as_str(),
                value: property.text(),
            },
        };
        text_in_turn(rt.alloc(), self.text.as_str(), &act, lines)
    }

    /// The act that changes its own line.
    fn head_act<'a>(&'a self, change: HeadChange<'a>) -> HeadAct<'a> {
        HeadAct {
            line: self.line,
            change,
            behind: self.behind.as_str(),
        }
    }

    fn completed_text<R: AllocGlobal>(
        &self,
        rt: &R,
        lines: &[u64],
        keyword: &WishedKeyword,
    ) -> Result<String, Refusal> {
        match keyword.choice() {
            Some(choice) => traced_completions(
                rt.alloc(),
                self.text.as_str(),
                lines,
                &self.completion(choice),
                &self.trace.trace(self.moment),
            ),
            None => traced_removals(
                rt.alloc(),
                self.text.as_str(),
                lines,
                &self.head_act(HeadChange::NoKeyword),
                &self.trace.trace(self.moment),
            ),
        }
    }

    fn planned_text<R: AllocGlobal>(
        &self,
        rt: &R,
        lines: &[u64],
        keyword: PlanningKeyword,
        date: Option<TypedDate>,
    ) -> Result<String, Refusal> {
        traced_plannings(
            rt.alloc(),
            self.text.as_str(),
            lines,
            &self.planning(keyword, date),
            &self.trace.trace(self.moment),
        )
    }

    /// The act that gives the file a text which was made of its own.
    pub fn rewriting<'a>(&'a self, new: &'a str) -> Rewriting<'a> {
        Rewriting {
            old: self.text.as_str(),
            new,
        }
    }

    /// The act that does a step to its clock.
    pub fn clocking(&self, step: ClockStep) -> ClockAct {
        ClockAct {
            line: self.line,
            step,
        }
    }

    /// The act that gives it a date under a planning keyword, or takes the stamps there away.
    fn planning(&self, keyword: PlanningKeyword, date: Option<TypedDate>) -> Planning {
        Planning {
            line: self.line,
            keyword,
            date,
        }
    }

    /// The act that writes another heading, with these tags.
    pub fn addition<'a>(&'a self, added: &'a WishedHeading, tags: &'a [&'a str]) -> Addition<'a> {
        Addition {
            under: added.under,
            entry: added.entry(tags),
            behind: self.behind.as_str(),
        }
    }

    /// The text, and what is read after it.
    pub fn whole(&self, alloc: Global) -> Result<String, AllocError> {
        self.with_behind(alloc, self.text.as_str())
    }

    /// Another text of its file, and what is read after it.
    pub fn with_behind(&self, alloc: Global, text: &str) -> Result<String, AllocError> {
        let mut whole = String::from_str(alloc, text)?;
        whole.push_str(self.behind.as_str())?;
        Ok(whole)
    }

    /// Whether it still has the text in which it was found, if it was looked for.
    pub fn is_as_found(&self, place: &HeadingPlace) -> bool {
        match &place.found_in {
            Some(found) => found.as_str().strip_prefix(self.text.as_str())
                == Some(self.behind.as_str()),
            None => true,
        }
    }
}

/// The heading at a place, with the text that its file has now.
pub fn read_heading<R: AllocGlobal + Files>(
    rt: &R,
    place: &HeadingPlace,
    wish: &Wish,
) -> Result<HeadingText, LeftOut> {
    let text = read_text(rt, place.name.as_str())?;
    let path = real_path(rt, place.name.as_str())?;
    Ok(HeadingText::new(rt.alloc(), place, wish, path, text)?)
}
