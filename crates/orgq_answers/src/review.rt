//! The commands that list projects and habits.
ghost use Rattle.org_client.specs.Files.{AreRead};

use crate::call::Call;
use crate::options::{RowOptions, without_days};
use crate::projects::{asked_projects, named_expression};
use clap::ArgMatches;
use org_answer::{Arrangement, GroupedLine, GroupedLines, PrintOptions, headings_of_lines};
use org_base::Fault;
use org_client::{Efforts, FileSet, LoadReport, RowIds};
use org_inherit::Inherits;
use org_layout::Line;
use org_match::Match;
use org_review::{
    Facts, Picked, ProjectChoice, ReviewLook, Shades, habits_of, picked_lines, projects_of,
    review_bytes,
};
use org_text::Whole;
use orgq_args::property_names;
use orgq_messages::{Problem, report_problem};
use std::alloc::{AllocError, Global};

// What is listed.
#[derive(Clone, Copy)]
enum Asked<'a> {
    Projects(ProjectChoice<'a>),
    // Habits, with signs that any terminal has or others.
    Habits(bool),
}

/// Prints the projects or habits that the command's own words ask for, and gives the exit status.
pub fn print_review(
    rt: &HostRuntime,
    matches: &ArgMatches<'_>,
    call: &mut Call,
    options: &RowOptions<'_, '_, '_>,
    look: &PrintOptions<'_, '_>,
) -> Result<u8, Problem> {
    match matches.subcommand() {
        Some(("projects", own)) => print_projects(
            rt,
            matches,
            own,
            call,
            &Reviewed { options, look },
        ),
        Some(("habits", own)) => {
            let asked = Asked::Habits(own.get_flag("ascii"));
            print_chosen(rt, matches, call, &Chosen { asked, options }, look)
        }
        _ => Err(Problem::Option),
    }
}

// What chooses rows, and how they are printed.
#[derive(Clone, Copy)]
struct Reviewed<'a, 'b, 'c, 'd, 'e, 'f, 'g> {
    options: &'d RowOptions<'a, 'b, 'c>,
    look: &'g PrintOptions<'e, 'f>,
}

fn print_projects(
    rt: &HostRuntime,
    matches: &ArgMatches<'_>,
    own: &ArgMatches<'_>,
    call: &mut Call,
    reviewed: &Reviewed<'_, '_, '_, '_, '_, '_, '_>,
) -> Result<u8, Problem> {
    let which = asked_projects(own)?;
    let project = match named_expression(rt.alloc(), matches, "project") {
        Ok(project) => project,
        Err(problem) => return Ok(report_named(rt, matches, problem, "project")),
    };
    let next = match named_expression(rt.alloc(), matches, "next-action") {
        Ok(next) => next,
        Err(problem) => return Ok(report_named(rt, matches, problem, "next-action")),
    };
    let (project, next) = (project.as_ref(), next.as_ref());
    let choice = ProjectChoice {
        which,
        project,
        next,
        moment: reviewed.options.moment,
    };
    let asked = Asked::Projects(choice);
    let chosen = Chosen {
        asked,
        options: reviewed.options,
    };
    print_chosen(rt, matches, call, &chosen, reviewed.look)
}

fn report_named(rt: &HostRuntime, matches: &ArgMatches<'_>, problem: Problem, name: &str) -> u8 {
    report_problem(rt, problem, matches.get_str(name).unwrap_or(""))
}

// What is listed, and what chooses among it.
#[derive(Clone, Copy)]
struct Chosen<'a, 'b, 'c, 'd, 'e> {
    asked: Asked<'e>,
    options: &'d RowOptions<'a, 'b, 'c>,
}

// Prints what is chosen of what is listed, and gives the exit status. What may be refused is read before memory is taken.
fn print_chosen(
    rt: &HostRuntime,
    matches: &ArgMatches<'_>,
    call: &mut Call,
    chosen: &Chosen<'_, '_, '_, '_, '_>,
    look: &PrintOptions<'_, '_>,
) -> Result<u8, Problem> {
    without_days(matches)?;
    let efforts = chosen.options.efforts()?;
    let shades = shades_of(rt, chosen.options, look.is_colored)?;
    match chosen.options.expressions(rt) {
        Ok(expressions) => {
            let given = Given {
                expressions: expressions.as_slice(),
                efforts,
                look,
                shades,
            };
            print_given(rt, matches, call, chosen, &given)
        }
        Err(status) => Ok(status),
    }
}

// What the options of a call give: which expressions and efforts choose, and how rows are printed.
#[derive(Clone, Copy)]
struct Given<'a, 'b, 'c, 'd> {
    expressions: &'d [Match],
    efforts: Option<Efforts>,
    look: &'c PrintOptions<'a, 'b>,
    shades: Shades,
}

// On which day it is said, and on what background letters have colours, if they have any.
fn shades_of(
    rt: &HostRuntime,
    options: &RowOptions<'_, '_, '_>,
    is_colored: bool,
) -> Result<Shades, Problem> {
    let background = if is_colored {
        Some(options.day.background(rt)?)
    } else {
        None
    };
    Ok(Shades {
        today: options.moment.day,
        background,
    })
}

fn print_given(
    rt: &HostRuntime,
    matches: &ArgMatches<'_>,
    call: &mut Call,
    chosen: &Chosen<'_, '_, '_, '_, '_>,
    given: &Given<'_, '_, '_, '_>,
) -> Result<u8, Problem> {
    let moment = chosen.options.moment;
    let picked = Picked {
        expressions: given.expressions,
        efforts: given.efforts,
        moment,
        arrangement: Arrangement {
            keys: chosen.options.ordering.keys.as_slice(),
            by: chosen.options.ordering.by,
            today: moment.day,
        },
    };
    let seen = Seen {
        look: given.look,
        shades: given.shades,
    };
    let files = call.files(rt, matches)?;
    let left_out = files.left_out;
    let lines = asked_bytes(rt.alloc(), &files.file_set, &chosen.asked, &picked, &seen)?;
    Ok(call.print_lines(rt, matches, lines.as_slice(), left_out))
}

// How rows are printed.
#[derive(Clone, Copy)]
struct Seen<'a, 'b, 'c> {
    look: &'c PrintOptions<'a, 'b>,
    shades: Shades,
}

// What is printed of files.
fn asked_bytes(
    alloc: Global,
    file_set: &FileSet<Whole>,
    asked: &Asked<'_>,
    picked: &Picked<'_>,
    seen: &Seen<'_, '_, '_>,
) -> Result<Vec<u8>, Fault> {
    let inherits = file_set.inherits()?;
    let of = FilesRead {
        file_set,
        inherits: &inherits,
    };
    match asked {
        Asked::Projects(choice) => project_bytes(alloc, &of, choice, picked, seen),
        Asked::Habits(is_ascii) => habit_bytes(alloc, &of, *is_ascii, picked, seen),
    }
}

// Files, and what their headings inherit.
#[derive(Clone, Copy)]
struct FilesRead<'a, 'b, 'c> {
    file_set: &'a FileSet<Whole>,
    inherits: &'c Inherits<'b>,
}

fn project_bytes(
    alloc: Global,
    of: &FilesRead<'_, '_, '_>,
    choice: &ProjectChoice<'_>,
    picked: &Picked<'_>,
    seen: &Seen<'_, '_, '_>,
) -> Result<Vec<u8>, Fault>
    requires read { AreRead of.now.inherits.now }
{
    let projects = projects_of(alloc, of.inherits, choice)?;
    let rows = projects.rows.clone()?;
    let lines = picked_lines(alloc, of.inherits, rows, picked)?;
    let facts = Facts::Projects(&projects);
    let shown = ReviewLook {
        facts,
        shades: seen.shades,
        by: picked.arrangement.by,
        look: seen.look,
    };
    bytes_of(alloc, of, &lines, &shown)
}

fn habit_bytes(
    alloc: Global,
    of: &FilesRead<'_, '_, '_>,
    is_ascii: bool,
    picked: &Picked<'_>,
    seen: &Seen<'_, '_, '_>,
) -> Result<Vec<u8>, Fault> {
    let habits = habits_of(alloc, of.file_set, of.inherits, picked.moment, is_ascii)?;
    let rows = habits.rows.clone()?;
    let lines = picked_lines(alloc, of.inherits, rows, picked)?;
    let facts = Facts::Habits(&habits);
    let shown = ReviewLook {
        facts,
        shades: seen.shades,
        by: picked.arrangement.by,
        look: seen.look,
    };
    bytes_of(alloc, of, &lines, &shown)
}

// The bytes of rows, with what their forms tell beside them.
fn bytes_of(
    alloc: Global,
    of: &FilesRead<'_, '_, '_>,
    lines: &GroupedLines,
    shown: &ReviewLook<'_, '_, '_, '_>,
) -> Result<Vec<u8>, Fault> {
    let properties = property_names(alloc, shown.look.properties)?;
    let files = LoadReport::new(alloc, of.file_set, of.inherits, properties, false)?;
    let files = files.with_ids(ids_of(alloc, of, lines, shown.look)?);
    review_bytes(alloc, &files, lines, shown)
}

// The short ids of the headings of rows, if these tell them.
fn ids_of(
    alloc: Global,
    of: &FilesRead<'_, '_, '_>,
    lines: &GroupedLines,
    look: &PrintOptions<'_, '_>,
) -> Result<RowIds, Fault> {
    if !look.tells_ids() {
        return Ok(RowIds::none(alloc));
    }
    let own = own_lines(alloc, lines)?;
    let headings = headings_of_lines(alloc, own.as_slice())?;
    RowIds::of(alloc, of.file_set, of.inherits, headings.as_slice())
}

fn own_lines(alloc: Global, lines: &GroupedLines) -> Result<Vec<Line>, AllocError> {
    let mut own = Vec::new(alloc);
    for line in lines.lines() {
        if let GroupedLine::Own(line) = line {
            own.push(*line)?;
        }
    }
    Ok(own)
}
