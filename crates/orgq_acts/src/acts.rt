//! The commands that change files: a heading gets another keyword, another date, other tags, another priority, a property or a
//! note, its clock begins or ends, or another heading is written.

use crate::all_matches::{Found, all_matches};
use crate::amending::{Ending, carry_out_change, report_unamended, try_out};
use crate::clock_act::clock_act;
use crate::found::{named_heading, named_headings};
use crate::heading::{HeadingText, read_heading};
use crate::one_match::{Search, one_match};
use crate::several::change_all;
use clap::ArgMatches;
use org_act::Unamended;
use org_cal::{Day, Moment};
use org_save::{Disk, Opened, open};
use orgq_args::{
    ActWords, HeadingPlace, Look, TypedPlace, Wish, WishedAct, added_place, captured_heading,
    changes_parts, date_words, done_keyword, keyword_words, lend, part_words, planning_keyword,
    read_body, read_wish, set_keyword, set_words, typed_words, wished_note, wished_part,
    wished_planning,
};
use orgq_files::{INPUT, LeftOut, read_input, refuse_words};
use orgq_messages::{
    CHANGED, LEFT_OUT, Problem, UNWRITTEN, out_of_memory, report_unfit, say_of, say_saved,
};
use std::alloc::Global;
use std::fs::File;
use std::rt::{Env, Files};
use std::slice;
use std::time::Clock;

/// Does what a command that changes a file asks for, and gives the exit status; none where the command is another.
pub fn act<
    R: AllocGlobal + Clock + Env + Files<File = File> + Input + Print + Eprint + Clone + Drop,
>(rt: &R, matches: &ArgMatches<'_>, moment: Moment, is_seen: bool) -> Result<Option<u8>, Problem> {
    match matches.subcommand() {
        Some(("add", own)) => Ok(Some(add(rt, matches, own, moment, is_seen)?)),
        Some(("clock", own)) => clock_act(rt, matches, own, moment, is_seen),
        _ => change_named(rt, matches, moment, is_seen),
    }
}

// Changes headings in place.
fn change_named<
    R: AllocGlobal + Clock + Env + Files<File = File> + Input + Print + Eprint + Clone + Drop,
>(rt: &R, matches: &ArgMatches<'_>, moment: Moment, is_seen: bool) -> Result<Option<u8>, Problem> {
    let Some((name, own)) = matches.subcommand() else {
        return Ok(None);
    };
    if !changes_headings(name) {
        return Ok(None);
    }
    let words = typed_words(rt.alloc(), own)?;
    let named = named_words(name, own, words.as_slice())?;
    if name == "note" && is_input(named.wanted) {
        return note_of_input(rt, matches, own, named.places, (moment, is_seen));
    }
    let asked = wished_act(rt.alloc(), name, own, named.wanted, moment.day)?;
    refuse_words(rt.alloc(), matches)?;
    let mut wish = read_wish(rt.alloc(), matches, own, asked, moment)?;
    wish.look.is_seen = is_seen;
    Ok(Some(by_wish(rt, matches, own, named.places, &wish)?))
}

// Whether words stand for standard input.
fn is_input(words: &[&str]) -> bool {
    match words {
        [word] => *word == INPUT,
        _ => false,
    }
}

// Gives a heading the note that standard input says, at a moment, with control characters so that they can be seen, if that is
// wanted.
fn note_of_input<
    R: AllocGlobal + Clock + Env + Files<File = File> + Input + Print + Eprint + Clone + Drop,
>(
    rt: &R,
    matches: &ArgMatches<'_>,
    own: &ArgMatches<'_>,
    places: &[&str],
    asked: (Moment, bool),
) -> Result<Option<u8>, Problem> {
    refuse_words(rt.alloc(), matches)?;
    let text = match read_input(rt) {
        Ok(text) => text,
        Err(LeftOut::Memory) => return Ok(Some(out_of_memory(rt))),
        Err(LeftOut::Because(why)) => {
            say_of(rt, "standard input", why);
            return Ok(Some(LEFT_OUT));
        }
    };
    let mut wish = read_wish(rt.alloc(), matches, own, wished_note(text)?, asked.0)?;
    wish.look.is_seen = asked.1;
    Ok(Some(by_wish(rt, matches, own, places, &wish)?))
}

// Whether a command changes headings in place.
fn changes_headings(name: &str) -> bool {
    matches!(name, "done" | "set") || planning_keyword(name).is_some() || changes_parts(name)
}

// The headings among the words of a command, and what they get.
fn named_words<'a, 'b>(
    name: &str,
    own: &ArgMatches<'a>,
    words: &'b [&'a str],
) -> Result<ActWords<'a, 'b>, Problem> {
    match planning_keyword(name) {
        Some(_) => date_words(own, words),
        None if name == "set" => set_words(own, words),
        None if name == "done" => keyword_words(own, words),
        None => part_words(name, own, words),
    }
}

// What a command wishes of headings, by the words for it.
fn wished_act<'a>(
    alloc: Global,
    name: &str,
    own: &ArgMatches<'a>,
    wanted: &[&'a str],
    today: Day,
) -> Result<WishedAct, Problem> {
    match planning_keyword(name) {
        Some(keyword) => wished_planning(alloc, wanted, keyword, today),
        None if name == "set" => Ok(WishedAct::Keyword(set_keyword(alloc, own, wanted)?)),
        None if name == "done" => Ok(WishedAct::Keyword(done_keyword(alloc, own, wanted)?)),
        None => wished_part(alloc, name, own, wanted),
    }
}

// Does what `add` asks for.
fn add<R: AllocGlobal + Clock + Env + Files<File = File> + Input + Print + Eprint + Clone + Drop>(
    rt: &R,
    matches: &ArgMatches<'_>,
    own: &ArgMatches<'_>,
    moment: Moment,
    is_seen: bool,
) -> Result<u8, Problem> {
    refuse_words(rt.alloc(), matches)?;
    let look = Look {
        has_place: true,
        is_quiet: matches.get_flag("quiet"),
        is_seen,
    };
    match added_place(rt.alloc(), matches, own)? {
        TypedPlace::At(place) => add_at(rt, matches, own, &place, (moment, is_seen)),
        TypedPlace::AtWithId(..) | TypedPlace::Id(_) => {
            let word = own.get_str("under").unwrap_or("");
            match named_heading(rt, matches, word, look)? {
                Search::One(place) => add_at(rt, matches, own, &place, (moment, is_seen)),
                Search::Ended(status) => Ok(status),
            }
        }
    }
}

// The same at a place, at a moment, with control characters so that they can be seen, if that is wanted.
fn add_at<R: AllocGlobal + Clock + Env + Files<File = File> + Input + Print + Eprint>(
    rt: &R,
    matches: &ArgMatches<'_>,
    own: &ArgMatches<'_>,
    place: &HeadingPlace,
    asked: (Moment, bool),
) -> Result<u8, Problem> {
    let (moment, is_seen) = asked;
    let mut heading = captured_heading(rt.alloc(), own, place, moment.day)?;
    match read_body(rt, own) {
        Ok(body) => heading.body = body,
        Err(LeftOut::Memory) => return Ok(out_of_memory(rt)),
        Err(LeftOut::Because(why)) => {
            say_of(rt, "standard input", why);
            return Ok(LEFT_OUT);
        }
    }
    let asked = WishedAct::Addition(heading);
    let mut wish = read_wish(rt.alloc(), matches, own, asked, moment)?;
    wish.look.is_seen = is_seen;
    Ok(change_at(rt, place, &wish))
}

// Finds the headings that are meant, and changes them.
fn by_wish<
    R: AllocGlobal + Clock + Env + Files<File = File> + Input + Print + Eprint + Clone + Drop,
>(
    rt: &R,
    matches: &ArgMatches<'_>,
    own: &ArgMatches<'_>,
    places: &[&str],
    wish: &Wish,
) -> Result<u8, Problem> {
    let has_all = own.get_flag("all");
    match own.get_str("match") {
        None if has_all => Err(Problem::All),
        None => at_places(rt, matches, places, wish),
        Some(expression) if has_all => by_all_matches(rt, matches, expression, wish),
        Some(expression) => by_one_match(rt, matches, expression, wish),
    }
}

// Changes the headings that words name.
fn at_places<
    R: AllocGlobal + Clock + Env + Files<File = File> + Input + Print + Eprint + Clone + Drop,
>(rt: &R, matches: &ArgMatches<'_>, places: &[&str], wish: &Wish) -> Result<u8, Problem> {
    match places {
        [] => Err(Problem::Place),
        [word] => match named_heading(rt, matches, word, wish.look)? {
            Search::One(place) => Ok(change_at(rt, &place, wish)),
            Search::Ended(status) => Ok(status),
        },
        words => match named_headings(rt, matches, words, wish.look)? {
            Found::All(headings) => change_all(rt, &headings, wish),
            Found::Ended(status) => Ok(status),
        },
    }
}

// Changes the one heading of which an expression holds.
fn by_one_match<
    R: AllocGlobal + Clock + Env + Files<File = File> + Input + Print + Eprint + Clone + Drop,
>(rt: &R, matches: &ArgMatches<'_>, expression: &str, wish: &Wish) -> Result<u8, Problem> {
    match one_match(rt, matches, expression, wish)? {
        Search::One(place) => Ok(change_at(rt, &place, wish)),
        Search::Ended(status) => Ok(status),
    }
}

// Changes all headings of which an expression holds.
fn by_all_matches<
    R: AllocGlobal + Clock + Env + Files<File = File> + Input + Print + Eprint + Clone + Drop,
>(rt: &R, matches: &ArgMatches<'_>, expression: &str, wish: &Wish) -> Result<u8, Problem> {
    match all_matches(rt, matches, expression, wish)? {
        Found::All(headings) => change_all(rt, &headings, wish),
        Found::Ended(status) => Ok(status),
    }
}

/// Changes the heading at a place.
pub fn change_at<R: AllocGlobal + Clock + Env + Files<File = File> + Print + Eprint>(
    rt: &R,
    place: &HeadingPlace,
    wish: &Wish,
) -> u8 {
    if wish.is_dry {
        return try_at(rt, place, wish);
    }
    match open(rt, place.name.as_str()) {
        Ok(mut opened) => change_opened(rt, place, wish, &mut opened),
        Err(why) => report_unfit(rt, place.name.as_str(), &why),
    }
}

// Says what changing it would do. Nothing is opened for writing.
fn try_at<R: AllocGlobal + Files + Print + Eprint>(
    rt: &R,
    place: &HeadingPlace,
    wish: &Wish,
) -> u8 {
    match heading_at(rt, place, wish) {
        Ok(heading) => try_heading(rt, &heading),
        Err(status) => status,
    }
}

fn change_opened<R: AllocGlobal + Clock + Env + Files<File = File> + Print + Eprint>(
    rt: &R,
    place: &HeadingPlace,
    wish: &Wish,
    opened: &mut Opened<'_, R>,
) -> u8 {
    match heading_at(rt, place, wish) {
        Ok(heading) => change_heading(rt, &heading, &mut opened.disk),
        Err(status) => status,
    }
}

fn try_heading<R: AllocGlobal + Print + Eprint>(rt: &R, heading: &HeadingText) -> u8 {
    match &heading.act {
        WishedAct::Addition(added) => match lend(rt.alloc(), added.tags.as_slice()) {
            Ok(tags) => try_out(rt, heading, &heading.addition(added, tags.as_slice())),
            Err(_) => out_of_memory(rt),
        },
        WishedAct::Clock(step) => try_out(rt, heading, &heading.clocking(*step)),
        _ => try_traced(rt, heading),
    }
}

// Says what would change of a heading, with what is logged of it.
fn try_traced<R: AllocGlobal + Print + Eprint>(rt: &R, heading: &HeadingText) -> u8 {
    match heading.traced_text(rt, slice::from_ref(&heading.line)) {
        Ok(new) => try_out(rt, heading, &heading.rewriting(new.as_str())),
        Err(why) => report_unamended(rt, heading, Unamended::Refused(why)),
    }
}

// Changes a heading in place, with what is logged of it.
fn change_traced<R: AllocGlobal + Clock + Env + Files<File = File> + Print + Eprint>(
    rt: &R,
    heading: &HeadingText,
    disk: &mut Disk<'_, R>,
) -> Ending {
    match heading.traced_text(rt, slice::from_ref(&heading.line)) {
        Ok(new) => carry_out_change(rt, disk, heading, &heading.rewriting(new.as_str())),
        Err(why) => Ending {
            status: report_unamended(rt, heading, Unamended::Refused(why)),
            saved: None,
        },
    }
}

fn change_heading<R: AllocGlobal + Clock + Env + Files<File = File> + Print + Eprint>(
    rt: &R,
    heading: &HeadingText,
    disk: &mut Disk<'_, R>,
) -> u8 {
    let ending = match &heading.act {
        WishedAct::Addition(added) => match lend(rt.alloc(), added.tags.as_slice()) {
            Ok(tags) => carry_out_change(
                rt,
                disk,
                heading,
                &heading.addition(added, tags.as_slice()),
            ),
            Err(_) => return out_of_memory(rt),
        },
        WishedAct::Clock(step) => carry_out_change(rt, disk, heading, &heading.clocking(*step)),
        _ => change_traced(rt, heading, disk),
    };
    if let Some(saved) = ending.saved {
        say_saved(rt, heading.name.as_str(), saved, disk.rescue());
    }
    ending.status
}

/// The heading at a place, with the text that its file has now. Where that can't be read, or isn't the one in which the heading
/// was found, it is said, and the exit status comes.
pub fn heading_at<R: AllocGlobal + Files + Eprint>(
    rt: &R,
    place: &HeadingPlace,
    wish: &Wish,
) -> Result<HeadingText, u8> {
    match read_heading(rt, place, wish) {
        Ok(heading) if heading.is_as_found(place) => Ok(heading),
        Ok(_) => {
            say_of(rt, place.name.as_str(), CHANGED);
            Err(UNWRITTEN)
        }
        Err(LeftOut::Memory) => Err(out_of_memory(rt)),
        Err(LeftOut::Because(why)) => {
            say_of(rt, place.name.as_str(), why);
            Err(LEFT_OUT)
        }
    }
}
