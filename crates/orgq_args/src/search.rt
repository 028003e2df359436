//! What the command that looks for words asks.

use clap::ArgMatches;
use org_base::Code;
use org_search::{Refusal, Search, refusal_of};
use orgq_messages::Problem;
use std::alloc::Global;

/// What the words of the command look for.
pub fn read_search(alloc: Global, own: &ArgMatches<'_>) -> Result<Search, Problem> {
    let words = own.get_strs("WORD").unwrap_or(&[]);
    if let Some(refusal) = refusal_of(words) {
        return Err(problem_of(refusal));
    }
    match Search::read(alloc, words) {
        Ok(search) => Ok(search),
        Err(fault) if fault.code() == Code::Regexp => Err(Problem::Pattern),
        Err(fault) => Err(Problem::Fault(fault)),
    }
}

// How a refusal is said.
fn problem_of(refusal: Refusal) -> Problem {
    match refusal {
        Refusal::NoWord => Problem::NoWord,
        Refusal::ManyWords => Problem::ManyWords,
        Refusal::EmptyWord => Problem::EmptyWord,
        Refusal::LineFeed => Problem::LineFeed,
    }
}
