//! The commands that change clocks: one begins, and the one that runs ends or is taken away.

use crate::acts::{change_at, heading_at};
use crate::amending::report_refusal;
use crate::found::named_heading;
use crate::heading::HeadingText;
use crate::one_match::{Search, one_match};
use crate::running::{Running, RunningPlace, find_beside, find_running};
use crate::switching::switch_at;
use clap::ArgMatches;
use org_act::{Act, ClockAct, ClockStep, with_change};
use org_answer::Form;
use org_cal::Moment;
use orgq_args::{HeadingPlace, Wish, WishedAct, named_form, read_wish};
use orgq_files::{file_number, real_path, refuse_words};
use orgq_messages::{BAD_ARGUMENTS, NO_MATCH, Problem, UNTOLD, out_of_memory, say};
use std::alloc::{AllocError, Global};
use std::fs::File;
use std::rt::{Env, Files};
use std::time::Clock;

// What is asked: by all words, by those of the act, at which moment, and whether control characters are written so that they
// can be seen.
#[derive(Clone, Copy)]
struct Asked<'a, 'b> {
    matches: &'b ArgMatches<'a>,
    own: &'b ArgMatches<'a>,
    moment: Moment,
    is_seen: bool,
}

impl Asked<'_, '_> {
    // The wish for a step.
    fn wish(&self, alloc: Global, step: ClockStep) -> Result<Wish, Problem> {
        let has_format = self.matches.get_str("format").is_some();
        if has_format || matches!(named_form(self.matches), Form::Json | Form::Csv) {
            return Err(Problem::ClockForm);
        }
        let asked = WishedAct::Clock(step);
        let mut wish = read_wish(alloc, self.matches, self.own, asked, self.moment)?;
        wish.look.is_seen = self.is_seen;
        Ok(wish)
    }
}

/// Does what an act of `clock` asks for, and gives the exit status; none where no act is asked for.
pub fn clock_act<
    'a,
    'b,
    R: AllocGlobal + Clock + Env + Files<File = File> + Input + Print + Eprint + Clone + Drop,
>(
    rt: &R,
    matches: &'b ArgMatches<'a>,
    clock: &'b ArgMatches<'a>,
    moment: Moment,
    is_seen: bool,
) -> Result<Option<u8>, Problem> {
    let Some((name, own)) = clock.subcommand() else {
        return Ok(None);
    };
    let asked = Asked {
        matches,
        own,
        moment,
        is_seen,
    };
    match name {
        "in" => Ok(Some(begin(rt, &asked)?)),
        "out" => Ok(Some(end(rt, &asked, ClockStep::Out(asked.moment))?)),
        "cancel" => Ok(Some(end(rt, &asked, ClockStep::Cancel)?)),
        _ => Ok(None),
    }
}

// Ends the clock that runs, or takes it away.
fn end<R: AllocGlobal + Clock + Env + Files<File = File> + Input + Print + Eprint + Clone + Drop>(
    rt: &R,
    asked: &Asked<'_, '_>,
    step: ClockStep,
) -> Result<u8, Problem> {
    let wish = asked.wish(rt.alloc(), step)?;
    match find_running(rt, asked.matches, &wish)? {
        Running::None => {
            say(rt, "no clock runs");
            Ok(NO_MATCH)
        }
        Running::One(clock) => Ok(change_at(rt, &clock.heading, &wish)),
        Running::Ended(status) => Ok(status),
    }
}

// Begins a clock, where none runs or the one that does is to end.
fn begin<R: AllocGlobal + Clock + Env + Files<File = File> + Input + Print + Eprint + Clone + Drop>(
    rt: &R,
    asked: &Asked<'_, '_>,
) -> Result<u8, Problem> {
    refuse_words(rt.alloc(), asked.matches)?;
    let wish = asked.wish(rt.alloc(), ClockStep::In(asked.moment))?;
    match find_heading(rt, asked, &wish)? {
        Search::One(place) => begin_at(rt, asked, place, &wish),
        Search::Ended(status) => Ok(status),
    }
}

// The heading that is named.
fn find_heading<R: AllocGlobal + Files + Env + Input + Print + Eprint + Clone + Drop>(
    rt: &R,
    asked: &Asked<'_, '_>,
    wish: &Wish,
) -> Result<Search, Problem> {
    if let Some(word) = typed_word(asked.own)? {
        return named_heading(rt, asked.matches, word, wish.look);
    }
    let expression = asked.own.get_str("match").unwrap_or("");
    one_match(rt, asked.matches, expression, wish)
}

// The same at a place.
fn begin_at<
    R: AllocGlobal + Clock + Env + Files<File = File> + Input + Print + Eprint + Clone + Drop,
>(rt: &R, asked: &Asked<'_, '_>, place: HeadingPlace, wish: &Wish) -> Result<u8, Problem> {
    let mut place = place;
    match find_beside(rt, asked.matches, &mut place, wish)? {
        Running::None => Ok(change_at(rt, &place, wish)),
        Running::One(clock) if !asked.own.get_flag("switch") => Ok(refuse_second(rt, &clock)),
        Running::One(clock) => switch(rt, asked, &clock, &mut place, wish),
        Running::Ended(status) => Ok(status),
    }
}

// The word for a place; none where an expression stands for it.
fn typed_word<'a>(own: &ArgMatches<'a>) -> Result<Option<&'a str>, Problem> {
    match own.get_str("PLACE") {
        Some(_) if own.get_str("match").is_some() => Err(Problem::PlaceBeside),
        Some(word) => Ok(Some(word)),
        None if own.get_str("match").is_some() => Ok(None),
        None => Err(Problem::Place),
    }
}

// Says that a clock runs, and gives the exit status.
fn refuse_second<R: AllocGlobal + Eprint>(rt: &R, clock: &RunningPlace) -> u8 {
    match format!(in rt.alloc(); "a clock runs at {}: --switch ends it", clock.words) {
        Ok(text) => {
            say(rt, text.as_str());
            BAD_ARGUMENTS
        }
        Err(_) => out_of_memory(rt),
    }
}

// Ends the clock that runs and begins another, in one file by one write. Where the other can't begin, none is ended; where it
// stands in another file and then fails, that the first has ended is said.
fn switch<R: AllocGlobal + Clock + Env + Files<File = File> + Print + Eprint>(
    rt: &R,
    asked: &Asked<'_, '_>,
    clock: &RunningPlace,
    place: &mut HeadingPlace,
    wish: &Wish,
) -> Result<u8, Problem> {
    if let Some(status) = check_place(rt, place, wish) {
        return Ok(status);
    }
    let ends = asked.wish(rt.alloc(), ClockStep::Out(asked.moment))?;
    if !wish.is_dry && is_one_file(rt, place.name.as_str(), clock.heading.name.as_str())? {
        place.found_in = ended_text(rt.alloc(), &clock.heading, asked.moment)?;
        return Ok(switch_at(rt, &clock.heading, &ends, place, wish));
    }
    let ended = change_at(rt, &clock.heading, &ends);
    if !is_changed(ended) {
        return Ok(ended);
    }
    let begun = change_at(rt, place, wish);
    if wish.is_dry || is_changed(begun) {
        return Ok(begun.max(ended));
    }
    say_ended(rt, clock);
    Ok(UNTOLD)
}

// Whether a file was changed, by the exit status.
fn is_changed(status: u8) -> bool {
    status == 0 || status == UNTOLD
}

// Says why a clock can't begin at a place, and gives the exit status; none where it can.
fn check_place<R: AllocGlobal + Files + Print + Eprint>(
    rt: &R,
    place: &HeadingPlace,
    wish: &Wish,
) -> Option<u8> {
    match heading_at(rt, place, wish) {
        Ok(heading) => check_heading(rt, &heading),
        Err(status) => Some(status),
    }
}

// The same of a heading.
fn check_heading<R: AllocGlobal + Eprint>(rt: &R, heading: &HeadingText) -> Option<u8> {
    match &heading.act {
        WishedAct::Clock(step) => report_refusal(rt, heading, &heading.clocking(*step)),
        _ => None,
    }
}

// Whether two names lead to one file.
fn is_one_file<R: AllocGlobal + Files>(
    rt: &R,
    name: &str,
    other: &str,
) -> Result<bool, AllocError> {
    if name == other {
        return Ok(true);
    }
    if let (Some(number), Some(other)) = (file_number(rt, name), file_number(rt, other)) {
        return Ok(number == other);
    }
    let path = real_path(rt, name)?;
    let other = real_path(rt, other)?;
    Ok(path.as_str() == other.as_str())
}

// The text in which a running clock was found, with the clock ended.
fn ended_text(
    alloc: Global,
    heading: &HeadingPlace,
    moment: Moment,
) -> Result<Option<String>, AllocError> {
    let Some(found) = &heading.found_in else {
        return Ok(None);
    };
    let end = ClockAct {
        line: heading.line,
        step: ClockStep::Out(moment),
    };
    let Ok(change) = end.plan(alloc, found.as_str()) else {
        return Ok(None);
    };
    Ok(String::from_utf8(with_change(alloc, found.as_bytes(), &change)?).ok())
}

// Says that a clock has ended, and none has begun.
fn say_ended<R: AllocGlobal + Eprint>(rt: &R, clock: &RunningPlace) {
    match format!(in rt.alloc();
        "the clock at {} has ended, and none has begun",
        clock.words
    ) {
        Ok(text) => say(rt, text.as_str()),
        Err(_) => {
            let _ = out_of_memory(rt);
        }
    }
}
