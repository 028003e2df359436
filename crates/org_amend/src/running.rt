//! The clock that runs in a section.
ghost use Rattle.std.specs.Prelude.{◌≡◌, ◌+◌, ◌≤◌, ◌<◌, ◌^◌, IfOk, IfSome, IsOkUnless, length, nat_le, slice_get};
ghost use Rattle.org_amend.specs.Clocks.{from_stamp, minute_at, running_in, running_line, running_of, since, stamp_end, stamp_len};
ghost use Rattle.org_amend.specs.Within.{IsWithin};
ghost use Rattle.org_base.specs.Codes.{memory_fault};
ghost use Rattle.org_base.specs.Results.{Gives};
ghost use Rattle.org_stamp.specs.Pair.{past_spaces};

use crate::search::{Search, search_lines};
use org_base::{Fault, Span};
use org_cal::{Minute, Moment};
use org_class::Class;
use org_drawer::read_clock;
use org_stamp::{leading_spaces, read_single};
use org_text::Text;
use std::alloc::Global;

/// A clock that runs. Places count bytes of the text.
#[derive(Clone, Copy, Debug, PartialEq, Eq)]
pub struct RunningClock {
    /// Where its line begins.
    pub at: u32,
    /// How long its line is, with its line feed.
    pub len: u32,
    /// Where its stamp ends.
    pub end: u32,
    /// The minute in which it began.
    pub from: Minute,
}

impl RunningClock {
    /// Whether it began at a moment or before it.
    pub fn has_begun(&self, moment: Moment) -> bool
        ensures value { result ≡ nat_le self.now.from (minute_at moment) }
    {
        self.from.number() <= moment.minute().number()
    }
}

/// The first running clock of a section of a text; the classes are those of the section's lines.
pub fn running_clock<T: Text>(
    alloc: Global,
    text: &T,
    section: Span,
    classes: &[Class],
) -> Result<Option<RunningClock>, Fault>
    requires within { section.at + section.len ≤ length (T.content text.now) }
    ensures value { Gives result (running_in (T.content text.now) section classes.now) }
    ensures within { IfOk result (λ found. IfSome found (IsWithin section)) }
    ensures memory { IsOkUnless result memory_fault }
{
    let known = search_lines(alloc, text, section, classes, FirstRunning { found: None })?;
    Ok(known.found)
}

// The first running clock among the lines so far.
#[derive(Clone, Copy)]
struct FirstRunning {
    found: Option<RunningClock>,
}

impl Search for FirstRunning {
    ghost use Rattle.org_amend.specs.Searches.{is_found, running_after};

    ghost known_after = { running_after };

    ghost ends = { is_found };

    fn after(self, class: Option<Class>, at: u32, line: &[u8]) -> FirstRunning {
        FirstRunning {
            found: running_of(class, at, line),
        }
    }

    fn is_over(self) -> bool {
        self.found.is_some()
    }
}

// The clock of a line of that class at a place, if it runs.
fn running_of(class: Option<Class>, at: u32, line: &[u8]) -> Option<RunningClock>
    requires fits { at + length line.now < 2 ^ 32 }
    ensures value { result ≡ running_of class at line.now }
{
    if class != Some(Class::Clock) {
        return None;
    }
    let clock = read_clock(line)?;
    if clock.to.is_some() {
        return None;
    }
    Some(RunningClock {
        at,
        len: line.len() as u32,
        end: at + stamp_end(line) as u32,
        from: clock.from,
    })
}

// Where the stamp of a clock line ends, of a range the first one.
fn stamp_end(line: &[u8]) -> usize
    ensures value { result ≡ stamp_end line.now }
    ensures within { result ≤ length line.now }
{
    let rest = from_stamp(line);
    line.len() - rest.len() + stamp_len(rest)
}

// How long the stamp at the front is, of a range the first one.
fn stamp_len(bytes: &[u8]) -> usize
    ensures value { result ≡ stamp_len bytes.now }
    ensures within { result ≤ length bytes.now }
{
    match read_single(bytes, 0) {
        Some((_, len)) => len,
        None => 0,
    }
}

// What a clock line has from its stamp on.
fn from_stamp(line: &[u8]) -> &[u8]
    ensures value { result.now ≡ from_stamp line.now }
    ensures within { length result.now ≤ length line.now }
{
    let text = past_spaces(line);
    past_spaces(&text[text.len().min(6)..])
}

fn past_spaces(bytes: &[u8]) -> &[u8]
    ensures value { result.now ≡ past_spaces bytes.now }
    ensures within { length result.now ≤ length bytes.now }
{
    &bytes[leading_spaces(bytes)..]
}
