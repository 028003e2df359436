//! What rows say.

use crate::stand::Stand;
use std::alloc::Global;

/// What a keyword means for its heading: the first of its sequence, one that is worked at, or another.
#[derive(Clone, Copy, Debug, PartialEq, Eq)]
pub enum KeywordKind {
    First,
    Now,
    Other,
}

/// What a row says: the parts of its heading, the last heading above, the effort as hours and minutes, and of a deadline that
/// comes near the day in words. What isn't there is empty.
#[derive(Debug, Drop)]
pub struct Words {
    pub category: String,
    pub keyword: String,
    pub keyword_kind: KeywordKind,
    pub is_done: bool,
    pub priority: String,
    pub title: String,
    pub path: String,
    pub effort: String,
    pub tags: String,
    pub date: String,
}

impl Words {
    /// No words.
    pub fn new(alloc: Global) -> Words {
        Words {
            category: String::new(alloc),
            keyword: String::new(alloc),
            keyword_kind: KeywordKind::Other,
            is_done: false,
            priority: String::new(alloc),
            title: String::new(alloc),
            path: String::new(alloc),
            effort: String::new(alloc),
            tags: String::new(alloc),
            date: String::new(alloc),
        }
    }

    /// The title, or what stands in place of an empty one.
    pub(crate) fn title(&self) -> &str {
        if self.title.is_empty() {
            return "(no title)";
        }
        self.title.as_str()
    }
}

/// The rows of a day in the order of the agenda: how each stands, and what it says, by the same place.
#[derive(Debug, Drop)]
pub struct DayRows {
    pub stands: Vec<Stand>,
    pub words: Vec<Words>,
}
