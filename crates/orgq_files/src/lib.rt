//! Which files `orgq` is asked about, and what they say: those that are named, else those of the environment, the config or the
//! list; each is read once.
//!
//! A file that can't be read is said and left out. Options of the config count where the command line names none, and keywords
//! that are named count for the files that have none of their own.
//!
//! ```
//! let paths = paths(rt, matches, own.get_strs("FILE").unwrap_or(&[]))?;
//! let left_out = load_all(rt, &mut files, paths.as_slice(), &Reading::of(matches))?;
//! ```
//!
//! Lines of `orgq_answers/src/check.rt`. Tests: `tests/orgq.sh`.
#![tactic(auto)]

mod checked;
mod config;
mod file_list;
mod files;
mod findings;
mod keywords;
pub mod laws;
mod setting;
mod sources;
mod view_files;

pub use checked::CheckedFiles;
pub use config::{Config, Unread, no_config, read_config};
pub use file_list::{FileList, INPUT, listed_word, path_of, read_list};
pub use files::{
    FileNumber, FileSink, LeftOut, Named, file_number, push_paths, read_input, read_text,
    read_whole, real_path,
};
pub use findings::{Report, report_of};
pub use keywords::{line_behind, say_unknown};
pub use setting::{Choice, NamedChoices, Setting, words_with};
pub use sources::{Asked, Reading, asked_files, is_path, load_all, paths, refuse_words, texts};
pub use view_files::{ViewFile, read_view_files};
