//! How the rows of an answer are to stand.

use clap::ArgMatches;
use org_client::{GroupBy, SortBy, SortKey};
use orgq_messages::Problem;
use std::alloc::{AllocError, Global};

/// By which keys rows stand, the first one first, and in which groups.
#[derive(Debug, Drop)]
pub struct Ordering {
    pub keys: Vec<SortBy>,
    pub by: Option<GroupBy>,
}

impl Ordering {
    /// Whether rows stand as the view has them.
    pub fn is_of_view(&self) -> bool {
        self.keys.is_empty() && self.by.is_none()
    }
}

// The words of the options.
#[derive(Clone, Copy)]
struct OrderWords<'a> {
    sort: Option<&'a str>,
    group_by: Option<&'a str>,
}

impl<'a> OrderWords<'a> {
    fn of(matches: &ArgMatches<'a>) -> OrderWords<'a> {
        OrderWords {
            sort: matches.get_str("sort"),
            group_by: matches.get_str("group-by"),
        }
    }

    // These, and of others what these lack.
    fn or(&self, others: &OrderWords<'a>) -> OrderWords<'a> {
        OrderWords {
            sort: self.sort.or(others.sort),
            group_by: self.group_by.or(others.group_by),
        }
    }

    fn is_empty(&self) -> bool {
        self.sort.is_none() && self.group_by.is_none()
    }
}

/// Whether words name an order or groups.
pub fn has_order(matches: &ArgMatches<'_>) -> bool {
    !OrderWords::of(matches).is_empty()
}

/// How rows are to stand: as a command's own words say, and those in front of it.
pub fn read_ordering(alloc: Global, matches: &ArgMatches<'_>) -> Result<Ordering, Problem> {
    let words = order_words(matches)?;
    let by = match words.group_by {
        Some(word) => Some(GroupBy::of_name(word).ok_or(Problem::GroupBy)?),
        None => None,
    };
    let keys = match words.sort {
        Some(words) => read_keys(alloc, words)?,
        None => Vec::new(alloc),
    };
    Ok(Ordering { keys, by })
}

// The words that count: those of the command itself, and those in front of it.
fn order_words<'a>(matches: &ArgMatches<'a>) -> Result<OrderWords<'a>, Problem> {
    let front = OrderWords::of(matches);
    match matches.subcommand() {
        None => Ok(front),
        Some(("agenda", own)) if own.get_flag("grid") => {
            in_picture(OrderWords::of(own).or(&front))
        }
        Some(("agenda" | "habits" | "next" | "projects" | "todo" | "match", own)) => {
            Ok(OrderWords::of(own).or(&front))
        }
        Some(_) if !front.is_empty() => Err(Problem::OrderOf),
        Some(_) => Ok(front),
    }
}

// A picture has its own order.
fn in_picture<'a>(words: OrderWords<'a>) -> Result<OrderWords<'a>, Problem> {
    if words.is_empty() {
        Ok(words)
    } else {
        Err(Problem::GridOrder)
    }
}

// Keys with commas between them, each with a minus in front where it goes down.
fn read_keys(alloc: Global, words: &str) -> Result<Vec<SortBy>, Problem> {
    let mut keys: Vec<SortBy> = Vec::new(alloc);
    for word in words.split(',') {
        let by = read_key(word)?;
        if keys.iter().any(|known| known.key == by.key) {
            return Err(Problem::SortTwice);
        }
        keys.push(by).map_err(AllocError::from)?;
    }
    Ok(keys)
}

fn read_key(word: &str) -> Result<SortBy, Problem> {
    let (name, is_down) = match word.strip_prefix('-') {
        Some(name) => (name, true),
        None => (word, false),
    };
    match SortKey::of_name(name) {
        Some(key) => Ok(SortBy { key, is_down }),
        None => Err(Problem::Sort),
    }
}
