//! Where a clock that begins is written.
ghost use Rattle.std.specs.Prelude.{◌≡◌, ◌&&◌, ◌+◌, ◌≤◌, ◌<◌, ◌^◌, IfOk, IsOkUnless, None, is_some, length};
ghost use Rattle.std.specs.List.{list_all};
ghost use Rattle.org_amend.specs.Places.{clock_place, drawer_in, front_in, is_front, is_name_byte, is_named, opens, or_opened, place_at};
ghost use Rattle.org_amend.specs.Searches.{ended_drawer};
ghost use Rattle.org_class.specs.Drawers.{is_drawer_end};
ghost use Rattle.org_base.specs.Codes.{memory_fault};
ghost use Rattle.org_base.specs.Results.{Gives};

use crate::search::{Search, search_lines};
use org_base::words::{same_word, trim};
use org_base::{Fault, Span};
use org_class::{Class, is_drawer_end};
use org_text::Text;
use std::alloc::Global;

/// Where the line of a clock that begins goes. Places count bytes of the text.
#[derive(Clone, Copy, Debug, PartialEq, Eq)]
pub enum ClockPlace {
    /// First in the section's `LOGBOOK` drawer, which this line opens.
    InDrawer(Span),
    /// Into a drawer that is made there, under the heading, its planning line and its properties.
    UnderFront(u32),
}

// Which drawers are looked for.
#[derive(Clone, Copy)]
pub(crate) enum DrawerName {
    // Those of clocks, `LOGBOOK`.
    Logbook,
    // Any.
    Any,
}

/// Where the line of a clock that begins goes in a section of a text; the classes are those of the section's lines.
pub fn clock_place<T: Text>(
    alloc: Global,
    text: &T,
    section: Span,
    classes: &[Class],
) -> Result<ClockPlace, Fault>
    requires within { section.at + section.len ≤ length (T.content text.now) }
    ensures value { Gives result (clock_place (T.content text.now) section classes.now) }
    ensures within { IfOk result (λ place. place_at place ≤ section.at + section.len) }
    ensures memory { IsOkUnless result memory_fault }
{
    match drawer_of(alloc, text, section, classes, DrawerName::Logbook)? {
        Some(drawer) => Ok(ClockPlace::InDrawer(drawer)),
        None => Ok(ClockPlace::UnderFront(front_end(alloc, text, section, classes)?)),
    }
}

// The opening line of the first drawer of such a name that ends.
pub(crate) fn drawer_of<T: Text>(
    alloc: Global,
    text: &T,
    section: Span,
    classes: &[Class],
    name: DrawerName,
) -> Result<Option<Span>, Fault>
    requires within { section.at + section.len ≤ length (T.content text.now) }
    ensures value { Gives result (drawer_in name (T.content text.now) section classes.now) }
    ensures memory { IsOkUnless result memory_fault }
{
    let start = DrawerSoFar {
        name,
        opening: None,
        is_ended: false,
    };
    let known = search_lines(alloc, text, section, classes, start)?;
    Ok(known.drawer())
}

// The drawer that is open among the lines so far, if one is, and whether it ended.
#[derive(Clone, Copy)]
struct DrawerSoFar {
    name: DrawerName,
    opening: Option<Span>,
    is_ended: bool,
}

impl DrawerSoFar {
    // The drawer, if it ended.
    fn drawer(self) -> Option<Span>
        ensures value { result ≡ ended_drawer self }
    {
        if self.is_ended { self.opening } else { None }
    }
}

impl Search for DrawerSoFar {
    ghost use Rattle.org_amend.specs.Searches.{drawer_after, is_ended};

    ghost known_after = { drawer_after };

    ghost ends = { is_ended };

    fn after(self, class: Option<Class>, at: u32, line: &[u8]) -> DrawerSoFar {
        if ends(self.opening, line) {
            return DrawerSoFar {
                is_ended: true,
                ..self
            };
        }
        DrawerSoFar {
            opening: or_opened(self.name, self.opening, class, at, line),
            ..self
        }
    }

    fn is_over(self) -> bool {
        self.is_ended
    }
}

// Whether a line ends the drawer that is open, if one is.
fn ends(drawer: Option<Span>, line: &[u8]) -> bool
    ensures value { result ≡ is_some drawer && is_drawer_end line.now }
{
    drawer.is_some() && is_drawer_end(line)
}

// The opening line of the drawer that is open, or this line, if it opens one.
fn or_opened(
    name: DrawerName,
    drawer: Option<Span>,
    class: Option<Class>,
    at: u32,
    line: &[u8],
) -> Option<Span>
    requires fits { at + length line.now < 2 ^ 32 }
    ensures value { result ≡ or_opened name drawer class at line.now }
{
    if drawer.is_some() {
        return drawer;
    }
    if class == Some(Class::Plain) && opens(name, line) {
        Some(Span {
            at,
            len: line.len() as u32,
        })
    } else {
        None
    }
}

// Whether a line opens a drawer of such a name.
fn opens(name: DrawerName, line: &[u8]) -> bool
    ensures value { result ≡ opens name line.now }
{
    let word = trim(line);
    match name {
        DrawerName::Logbook => same_word(word, b":LOGBOOK:"),
        DrawerName::Any => is_named(word),
    }
}

// Whether a word is `:NAME:`, with a name that isn't empty.
fn is_named(word: &[u8]) -> bool
    ensures value { result ≡ is_named word.now }
{
    let len = word.len();
    len >= 3 && word[0] == b':' && word[len - 1] == b':' && are_name_bytes(&word[1..len - 1])
}

fn are_name_bytes(name: &[u8]) -> bool
    ensures value { result ≡ list_all is_name_byte name.now }
{
    name.iter().all(|byte| is_name_byte(*byte))
}

fn is_name_byte(byte: u8) -> bool
    ensures value { result ≡ is_name_byte byte }
{
    !matches!(byte, b':' | b' ' | b'\t' | b'\r' | b'\n')
}

// Where the heading, its planning line and its property drawer end.
fn front_end<T: Text>(
    alloc: Global,
    text: &T,
    section: Span,
    classes: &[Class],
) -> Result<u32, Fault>
    requires within { section.at + section.len ≤ length (T.content text.now) }
    ensures value { Gives result (front_in (T.content text.now) section classes.now) }
    ensures memory { IsOkUnless result memory_fault }
{
    let start = FrontSoFar {
        end: section.at,
        is_over: false,
    };
    let known = search_lines(alloc, text, section, classes, start)?;
    Ok(known.end)
}

// Where the front ends among the lines so far, and whether it goes on.
#[derive(Clone, Copy)]
struct FrontSoFar {
    end: u32,
    is_over: bool,
}

impl Search for FrontSoFar {
    ghost use Rattle.org_amend.specs.Searches.{front_after, is_past};

    ghost known_after = { front_after };

    ghost ends = { is_past };

    fn after(self, class: Option<Class>, at: u32, line: &[u8]) -> FrontSoFar {
        if is_front(class) {
            FrontSoFar {
                end: at + line.len() as u32,
                is_over: false,
            }
        } else {
            FrontSoFar {
                is_over: true,
                ..self
            }
        }
    }

    fn is_over(self) -> bool {
        self.is_over
    }
}

pub(crate) fn is_front(class: Option<Class>) -> bool
    ensures value { result ≡ is_front class }
{
    matches!(
        class,
        Some(Class::Heading | Class::Planning | Class::DrawerOpen | Class::Node | Class::DrawerEnd)
    )
}
