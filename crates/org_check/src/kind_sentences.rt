//! The sentences of the kinds: what is wrong, and the remedy.

pub(crate) const NO_SUCH_DATE: &str = "no timestamp, since there is no such day";

pub(crate) const NO_SUCH_TIME: &str =
    "no timestamp, since a time is 0:00 to 23:59, as 9:30 or 9:30-11:00";

pub(crate) const BAD_REPEATER: &str =
    "no timestamp; last stand at most one repeater and one warning, as +1w -3d";

pub(crate) const SHORT_DATE: &str =
    "no timestamp, since a date has four, two and two digits, as 2024-02-09";

pub(crate) const UNCLOSED_STAMP: &str =
    "no timestamp, since its own bracket doesn't close it in this line";

pub(crate) const SPACE_IN_STAMP: &str =
    "no timestamp, since what looks like a space in it is another character, as U+00A0; write \
    spaces";

pub(crate) const UNREAD_STAMP: &str =
    "no timestamp; after the date come, each optional and in this order, the day's name, a \
    time, a repeater and a warning";

pub(crate) const UNREAD_INACTIVE_STAMP: &str = "no timestamp";

pub(crate) const QUOTED_STAMP: &str = "no timestamp, as part of a link, of code or of an example";

pub(crate) const WRONG_DAY_NAME: &str = "the name isn't that of this day; the date counts";

pub(crate) const REVERSED_RANGE: &str =
    "shows on no day, since it ends before it begins; swap its days";

pub(crate) const REVERSED_TIMES: &str = "it ends before it begins; swap its times";

pub(crate) const RANGE_WITH_REPEATER: &str = "the range shows once; its repeater says nothing";

pub(crate) const ZERO_REPEATER: &str = "a repeater of 0 repeats nothing";

pub(crate) const NEAR_RANGE: &str =
    "two timestamps, each on its own day; in a range two dashes stand between them, and nothing \
    else";

pub(crate) const DIARY_SEXP: &str = "an expression of the diary isn't evaluated; write a timestamp";

pub(crate) const STAMP_IN_DRAWER: &str = "shows on no day; write it under the drawer, as text";

pub(crate) const STAMP_IN_BLOCK: &str = "shows on no day; write it before the block or after it";

pub(crate) const STAMP_IN_COMMENT: &str = "shows on no day, in a comment";

pub(crate) const STAMP_IN_EXAMPLE: &str = "shows on no day, in an example";

pub(crate) const STRAY_PLANNING: &str = "no planning line, and its stamps show on their days alone";

pub(crate) const PLANNING_WITHOUT_STAMP: &str =
    "no planning line; after the word comes a timestamp, as <2024-02-09 Fri>";

pub(crate) const PLANNING_UNREAD: &str = "no planning line, since its timestamp is none";

pub(crate) const NEAR_PLANNING: &str =
    "no planning, and its stamp shows on its day alone; write DEADLINE: or SCHEDULED: with the \
    timestamp into a line directly under the heading";

pub(crate) const HIDDEN_PLANNING: &str =
    "shows on no day, since its heading or one above it has COMMENT or the tag ARCHIVE; take \
    that away";

pub(crate) const PLANNING_CASE: &str =
    "no planning, and its stamp shows on its day alone; write the word in capitals";

pub(crate) const INACTIVE_PLANNING: &str = "shows on no day, in square brackets; write < and >";

pub(crate) const PLANNING_REST: &str =
    "not read; a planning line holds nothing but SCHEDULED:, DEADLINE: and CLOSED: with a \
    timestamp each";

pub(crate) const REPEATED_PLANNING: &str =
    "the same word stands before it in this line, and the last counts alone";

pub(crate) const PLANNING_IN_HEADING: &str =
    "no planning, and its stamp shows on its day alone; write it into the line under the \
    heading";

pub(crate) const PLANNING_RANGE: &str = "planning has one day, and of a range the first counts";

pub(crate) const REPEATER_ON_DONE: &str =
    "the heading is done for each day that comes; set its keyword back, or take the repeater \
    away";

pub(crate) const STRAY_DRAWER: &str =
    "none of its properties is read; write it directly under its heading or the planning line";

pub(crate) const DRAWER_LINE: &str =
    "no property of the drawer is read, since this line isn't `:NAME: VALUE'";

pub(crate) const UNCLOSED_DRAWER: &str = "none of its properties is read, since it has no :END:";

pub(crate) const UNREAD_EFFORT: &str =
    "no effort, and counts 0; write H:MM, or a number with min, h, d, w, m or y";

pub(crate) const REPEATED_PROPERTY: &str =
    "the drawer has this property already, and the first counts; add to it by `:NAME+: VALUE'";

pub(crate) const SPECIAL_PROPERTY: &str =
    "match expressions take this name for what the heading says itself; give the property \
    another name";

pub(crate) const UNCLOSED_BLOCK: &str =
    "no block, since its end doesn't come before the next line that begins with stars and a \
    space; write its end, or a comma before those stars";

pub(crate) const STRAY_BLOCK_END: &str = "no block begins for it";

pub(crate) const SETTING_IN_BLOCK: &str = "no setting, in a block";

pub(crate) const BYTE_ORDER_MARK: &str =
    "a byte order mark stands in front, and makes the first line neither a heading nor a \
    setting; save the file without it";

pub(crate) const SETTING_WITHOUT_COLON: &str =
    "no setting; write a colon after its name, as in #+TODO:";

pub(crate) const SECOND_CATEGORY: &str =
    "not read, since the first #+CATEGORY: counts; give a heading the property CATEGORY";

pub(crate) const COMMA_IN_KEYWORDS: &str =
    "the comma is part of the keyword; write spaces alone between keywords";

pub(crate) const MISSING_BAR: &str =
    "a done keyword, as the last of a line without a bar; write a bar and the done ones after \
    it";

pub(crate) const UNREAD_SETTING: &str =
    "not read, and what that file sets counts for nothing here; write its #+TODO: line into \
    this one";

pub(crate) const KEYWORD_OF_OTHER_FILE: &str =
    "a keyword of another file and none of this one; add it to #+TODO:";

pub(crate) const MISSING_KEYWORD: &str = "no keyword of this file; add it to #+TODO:";

pub(crate) const NEAR_KEYWORD: &str =
    "nearly a keyword of this file, and none; write it in its own letters, with a space after \
    it";

pub(crate) const WORD_IN_CAPITALS: &str =
    "stands in capitals in front of several headings, and is no keyword; if it is meant as one, \
    add it to #+TODO:";

pub(crate) const ODD_SPACE: &str =
    "a character that only looks like a space, as U+00A0, makes the line neither a heading nor \
    planning; write a space";

pub(crate) const HEADING_WITHOUT_SPACE: &str = "no heading; write a space after the stars";

pub(crate) const INDENTED_HEADING: &str = "no heading; write its stars at the front of the line";

pub(crate) const KEYWORD_AFTER_COOKIE: &str = "no keyword here; write it before the priority";

pub(crate) const UNREAD_PRIORITY: &str = "no priority; write [#A] to [#Z] or [#0] to [#64]";

pub(crate) const UNREAD_TAGS: &str = "no tags; they have letters, digits and _@#% alone";

pub(crate) const UNREAD_CLOCK: &str =
    "no clock, and counts 0; write inactive stamps, as CLOCK: [2024-02-09 Fri \
    09:00]--[2024-02-09 Fri 10:00]";

pub(crate) const CLOCK_CASE: &str = "no clock, and counts 0; write CLOCK: in capitals";

pub(crate) const CLOCK_IN_LIST: &str = "no clock, and counts 0; write it into a line of its own";

pub(crate) const RUNNING_CLOCK: &str =
    "the clock has run for more than a day, and counts 0 until it has an end";

pub(crate) const OPEN_CLOCK: &str = "the clock runs, and counts 0 until it has an end";

pub(crate) const REVERSED_CLOCK: &str = "the clock ends before it begins, and counts 0";

pub(crate) const EMPTY_CLOCK: &str = "the clock ends when it begins, and counts 0";

pub(crate) const OVERLAPPING_CLOCKS: &str = "the clock runs while another does";

pub(crate) const CLOCK_BEFORE_HEADINGS: &str =
    "a clock before the first heading counts nowhere; write it under a heading";
