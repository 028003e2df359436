//! What the options of a call say of the rows that are shown.

use clap::ArgMatches;
use org_answer::{DayCanvas, PrintOptions};
use org_cal::Moment;
use org_client::Efforts;
use org_match::Match;
use orgq_args::{DayOptions, Filters, Ordering};
use orgq_messages::{Problem, report_problem};

/// What chooses among the rows of an answer, how they stand, how a day comes, and the moment at which it is asked.
#[derive(Clone, Copy)]
pub struct RowOptions<'a, 'b, 'c> {
    pub filters: &'c Filters<'a, 'b>,
    pub ordering: &'c Ordering,
    pub day: DayOptions,
    pub moment: Moment,
}

impl<'a, 'b, 'c> RowOptions<'a, 'b, 'c> {
    /// The expression that headings are to meet, as it was typed; an empty one where none was.
    pub fn filter(&self) -> &'a str {
        self.filters.expression.unwrap_or("")
    }

    /// The efforts that headings are to have, if any are asked for.
    pub fn efforts(&self) -> Result<Option<Efforts>, Problem> {
        self.filters.efforts()
    }

    /// The expressions that headings are to meet; the exit status where one is refused, which is said.
    pub fn expressions(&self, rt: &HostRuntime) -> Result<Vec<Match>, u8> {
        match self.filters.expressions(rt.alloc()) {
            Ok(expressions) => Ok(expressions),
            Err(problem) => Err(report_problem(rt, problem, self.filter())),
        }
    }
}

/// Refuses days where they are named in front of a command that has none.
pub fn without_days(matches: &ArgMatches<'_>) -> Result<(), Problem> {
    match matches.get_one::<u32>("days") {
        Some(_) => Err(Problem::DaysOf),
        None => Ok(()),
    }
}

/// How rows of a list of this name are printed, on this where a day is to be drawn.
pub fn look_of<'a, 'b>(
    look: &PrintOptions<'a, 'b>,
    list: &'static str,
    canvas: Option<DayCanvas>,
) -> PrintOptions<'a, 'b> {
    PrintOptions {
        form: look.form,
        is_colored: look.is_colored,
        is_seen: look.is_seen,
        has_ids: look.has_ids,
        has_days: look.has_days,
        properties: look.properties,
        list,
        limit: look.limit,
        is_last: look.is_last,
        canvas,
    }
}
