//! What is written where a heading gets a keyword.
ghost use Rattle.std.specs.Prelude.{◌≡◌};
ghost use Rattle.org_log.specs.Decisions.{again_decision, decide, first_line_kind, is_closed, is_new, is_note, looks, once_decision, or_again, or_noted, or_repeated, repeats_of};

use crate::entry::Repeats;
use crate::how::How;

// Which line is written.
#[derive(Clone, Copy, Debug, PartialEq, Eq)]
pub(crate) enum LineKind {
    Nothing,
    // From the old keyword to the one that is asked for.
    State,
    // The same of a task that comes again, where no keyword asks for it: a keyword that isn't there is an empty one.
    Repeated,
    // From that one to the first of the sequence, as a task comes again.
    Reopened,
    Closing,
}

// What is wanted of a heading's change.
#[derive(Clone, Copy)]
pub(crate) struct Wanted {
    // Of a heading that is done.
    pub(crate) done: Option<How>,
    // Of a task that comes again.
    pub(crate) repeat: Option<How>,
    // Whether any keyword asks for something.
    pub(crate) has_marks: bool,
    // What the new keyword asks for where it is entered, or else the old one where it is left.
    pub(crate) state: Option<How>,
    // What is asked for where a task comes again, and gets the first keyword of its sequence.
    pub(crate) again: Option<How>,
}

// What changes for a heading.
#[derive(Clone, Copy)]
pub(crate) struct Step {
    // Whether the new keyword is a done one.
    pub(crate) is_done: bool,
    // Whether the old one is.
    pub(crate) was_done: bool,
    // Whether the old one is an open one.
    pub(crate) was_open: bool,
    // Whether there is an old one.
    pub(crate) had_keyword: bool,
    // Whether the task comes again when it is done.
    pub(crate) repeats: bool,
    // Whether a note is given.
    pub(crate) has_note: bool,
}

// What is written.
#[derive(Clone, Copy, PartialEq, Eq)]
pub(crate) struct Decision {
    pub(crate) is_closed: bool,
    pub(crate) is_reopened: bool,
    pub(crate) repeats: Repeats,
    pub(crate) line: LineKind,
}

// What is written where a heading changes so and this is wanted.
pub(crate) fn decide(step: &Step, wanted: &Wanted) -> Decision
    ensures value { result ≡ decide step.now wanted.now }
{
    let kind = or_noted(step, first_line_kind(wanted, is_closed(step, wanted)));
    if step.is_done && step.repeats {
        again_decision(step, wanted, kind)
    } else {
        once_decision(step, wanted, kind)
    }
}

// Whether the heading is done, and was not before.
fn is_new(step: &Step) -> bool
    ensures value { result ≡ is_new step.now }
{
    step.is_done && !step.was_done
}

// Whether something of the file asks for more than tasks that come again.
pub(crate) fn looks(wanted: &Wanted) -> bool
    ensures value { result ≡ looks wanted.now }
{
    wanted.has_marks || wanted.done.is_some()
}

// Whether the heading gets `CLOSED:`, unless its task comes again.
fn is_closed(step: &Step, wanted: &Wanted) -> bool
    ensures value { result ≡ is_closed step.now wanted.now }
{
    is_new(step) && wanted.done.is_some()
}

// Whether a note is asked for.
fn is_note(how: Option<How>) -> bool
    ensures value { result ≡ is_note how }
{
    matches!(how, Some(How::Note))
}

// The line that keywords ask for, or else `lognotedone`.
fn first_line_kind(wanted: &Wanted, is_closed: bool) -> LineKind
    ensures value { result ≡ first_line_kind wanted.now is_closed }
{
    if looks(wanted) && wanted.state.is_some() {
        LineKind::State
    } else if is_closed && is_note(wanted.done) {
        LineKind::Closing
    } else {
        LineKind::Nothing
    }
}

// The same, or a line for the note that is given.
fn or_noted(step: &Step, kind: LineKind) -> LineKind
    ensures value { result ≡ or_noted step.now kind }
{
    match kind {
        LineKind::Nothing if step.has_note => LineKind::State,
        kind => kind,
    }
}

// Whether `LAST_REPEAT` is written of a task that comes again.
fn repeats_of(wanted: &Wanted) -> Repeats
    ensures value { result ≡ repeats_of wanted.now }
{
    if wanted.repeat.is_some() {
        Repeats::Always
    } else {
        Repeats::WithClock
    }
}

// The line of a task that comes again, by what is asked for when it is done.
fn or_again(step: &Step, wanted: &Wanted, kind: LineKind) -> LineKind
    ensures value { result ≡ or_again step.now wanted.now kind }
{
    if wanted.again.is_some() && step.had_keyword {
        LineKind::Reopened
    } else {
        or_repeated(wanted, kind)
    }
}

fn or_repeated(wanted: &Wanted, kind: LineKind) -> LineKind
    ensures value { result ≡ or_repeated wanted.now kind }
{
    match kind {
        LineKind::Nothing if wanted.repeat.is_some() => LineKind::Repeated,
        kind => kind,
    }
}

// What is written of a task that comes again.
fn again_decision(step: &Step, wanted: &Wanted, kind: LineKind) -> Decision
    ensures value { result ≡ again_decision step.now wanted.now kind }
{
    Decision {
        is_closed: false,
        is_reopened: true,
        repeats: repeats_of(wanted),
        line: or_again(step, wanted, kind),
    }
}

// What is written of another heading.
fn once_decision(step: &Step, wanted: &Wanted, kind: LineKind) -> Decision
    ensures value { result ≡ once_decision step.now wanted.now kind }
{
    Decision {
        is_closed: is_closed(step, wanted),
        is_reopened: looks(wanted) && (!step.is_done && !step.was_open),
        repeats: Repeats::Not,
        line: kind,
    }
}
