//! Special names.
ghost use Rattle.std.specs.Prelude.{◌≡◌};

use org_base::words::same_word;
use org_stamp::PlanningKeyword;

// What a special name names (Org manual 9.6, "Special Properties").
#[derive(Clone, Copy)]
pub(crate) enum Special {
    // `CATEGORY`: the category.
    Category,
    // `FILE`: the file's name.
    File,
    // `ALLTAGS`: all tags of a heading.
    AllTags,
    // What a heading's own lines say.
    Own(HeadingValue),
}

// What a heading's own lines say.
#[derive(Clone, Copy)]
pub(crate) enum HeadingValue {
    // `TODO`: the keyword.
    Keyword,
    // `PRIORITY`: X of the cookie `[#X]`, else the file's default.
    Priority,
    // `LEVEL`: the number of stars, in decimal.
    Level,
    // `ITEM`: the title.
    Title,
    // `TAGS`: the own tags.
    Tags,
    // `SCHEDULED`, `DEADLINE`, `CLOSED`: the stamp as it is written; of a range the first one.
    Stamp(PlanningKeyword),
}

impl Special {
    ghost use Rattle.org_inherit.specs.Special.{special_named};

    // What a name names, if it is a special one. Letter case doesn't count.
    pub(crate) fn of_name(name: &[u8]) -> Option<Special>
        ensures value { result ≡ special_named name.now }
    {
        if same_word(name, b"CATEGORY") {
            Some(Special::Category)
        } else if same_word(name, b"FILE") {
            Some(Special::File)
        } else if same_word(name, b"ALLTAGS") {
            Some(Special::AllTags)
        } else {
            HeadingValue::of_name(name).map(Special::Own)
        }
    }
}

impl HeadingValue {
    ghost use Rattle.org_inherit.specs.Special.{heading_value_named};

    // What a name names of a heading's own lines.
    fn of_name(name: &[u8]) -> Option<HeadingValue>
        ensures value { result ≡ heading_value_named name.now }
    {
        if same_word(name, b"TODO") {
            Some(HeadingValue::Keyword)
        } else if same_word(name, b"PRIORITY") {
            Some(HeadingValue::Priority)
        } else if same_word(name, b"LEVEL") {
            Some(HeadingValue::Level)
        } else if same_word(name, b"ITEM") {
            Some(HeadingValue::Title)
        } else if same_word(name, b"TAGS") {
            Some(HeadingValue::Tags)
        } else if same_word(name, b"SCHEDULED") {
            Some(HeadingValue::Stamp(PlanningKeyword::Scheduled))
        } else if same_word(name, b"DEADLINE") {
            Some(HeadingValue::Stamp(PlanningKeyword::Deadline))
        } else if same_word(name, b"CLOSED") {
            Some(HeadingValue::Stamp(PlanningKeyword::Closed))
        } else {
            None
        }
    }
}
