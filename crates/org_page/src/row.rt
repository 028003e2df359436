//! Rows as a page shows them.
/// How a row stands on its day.
#[derive(Clone, Copy, Debug, PartialEq, Eq)]
pub enum Stand {
    /// It is of the day.
    Own,
    /// It is due on the day.
    Due,
    /// It is planned for the day.
    Planned,
    /// The day is one of a range: which one, from 1, and of how many.
    Range(u32, u32),
    /// Its day passed so many days ago.
    Late(u32),
    /// It is due in so many days.
    Soon(u32),
}

/// When a row begins and ends, in minutes of the day.
#[derive(Clone, Copy, Debug, PartialEq, Eq)]
pub struct Hours {
    pub start: u16,
    pub end: Option<u16>,
}

/// Where the stamp of a row stands: the number of its file, and its place there.
#[derive(Clone, Copy, Debug, PartialEq, Eq)]
pub struct StampPlace {
    pub file: usize,
    pub at: usize,
}

/// A row: how it stands, when, and of which stamp; its keyword, its priority and its tags, each empty where it has none; its
/// title, and whether that is of a heading that is done; where its link leads; the name of its file with a line; and the number
/// of its file's color.
#[derive(Debug, Drop)]
pub struct Row {
    pub stand: Stand,
    pub time: Option<Hours>,
    pub stamp: StampPlace,
    pub keyword: String,
    pub priority: String,
    pub words: String,
    pub is_done: bool,
    pub tags: String,
    pub link: String,
    pub place: String,
    pub color: usize,
}

/// The class of a file's color.
pub(crate) fn color_class(color: usize) -> &'static str {
    class_of(&COLORS, color)
}

/// The class of a color, from those of all colors.
pub(crate) fn class_of(classes: &[&'static str; 6], color: usize) -> &'static str {
    classes[color % classes.len()]
}

/// How many colors files have; from the next file on they come again.
pub const COLORS: [&str; 6] = ["c0", "c1", "c2", "c3", "c4", "c5"];
