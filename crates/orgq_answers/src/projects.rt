//! Which projects are asked for.

use clap::ArgMatches;
use org_answer::read_expression;
use org_match::Match;
use org_review::Which;
use orgq_messages::Problem;
use std::alloc::Global;

/// Which headings the words of the command ask for.
pub fn asked_projects(own: &ArgMatches<'_>) -> Result<Which, Problem> {
    let (all, stuck) = (own.get_flag("all"), own.get_flag("stuck"));
    match (own.get_flag("blocked"), stuck, all) {
        (true, false, false) => Ok(Which::Blocked),
        (true, _, _) => Err(Problem::BlockedBeside),
        (false, true, true) => Ok(Which::AllStuck),
        (false, true, false) => Ok(Which::Stuck),
        (false, false, true) => Ok(Which::All),
        (false, false, false) => Ok(Which::Topmost),
    }
}

/// The expression of an option of a name, if it is named, which is read.
pub fn named_expression(
    alloc: Global,
    matches: &ArgMatches<'_>,
    name: &str,
) -> Result<Option<Match>, Problem> {
    match matches.get_str(name) {
        Some(text) => Ok(Some(read_expression(alloc, text)?)),
        None => Ok(None),
    }
}
