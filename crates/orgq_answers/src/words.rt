//! The command that lists keywords or tags.

use clap::ArgMatches;
use org_answer::{WordKind, word_lines, words_of};
use org_base::Texts;
use org_client::FileSet;
use org_text::Whole;
use orgq_args::named_form;
use orgq_files::{Reading, load_all, paths};
use orgq_messages::{Problem, print_all, status_of};

/// Prints the words of the files that the arguments name, each once, and gives the exit status; control characters so that
/// they can be seen, if that is wanted.
pub fn print_words(
    rt: &HostRuntime,
    matches: &ArgMatches<'_>,
    kind: WordKind,
    is_seen: bool,
) -> Result<u8, Problem> {
    let mut file_set: FileSet<Whole> = FileSet::new(rt.alloc(), Texts::new(rt.alloc()));
    let paths = paths(rt, matches, &[])?;
    let left_out = load_all(rt, &mut file_set, paths.as_slice(), &Reading::of(matches))?;
    let words = words_of(rt.alloc(), &file_set, kind)?;
    let status = status_of(words.count() > 0, left_out);
    if matches.get_flag("quiet") {
        return Ok(status);
    }
    let lines = word_lines(rt.alloc(), &words, named_form(matches), is_seen)?;
    Ok(print_all(rt, lines.as_slice(), status))
}
