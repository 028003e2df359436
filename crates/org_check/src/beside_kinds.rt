//! The kinds of findings that stand beside the marks: what was read and says something else, and guesses.
ghost use Rattle.std.specs.Prelude.{◌≡◌};
ghost use Rattle.org_check.specs.Kinds.{beside_entry, seen};

use crate::kind_sentences;
use crate::table::Entry;

/// What was read and counts for nothing or for something else, or what may be meant otherwise.
#[derive(Clone, Copy, Debug, PartialEq, Eq, PartialOrd, Ord)]
pub enum BesideKind {
    // Stamps.
    WrongDayName,
    ReversedRange,
    ReversedTimes,
    RangeWithRepeater,
    ZeroRepeater,
    NearRange,
    DiarySexp,
    StampInDrawer,
    StampInBlock,
    StampInComment,
    StampInExample,
    // Planning.
    NearPlanning,
    HiddenPlanning,
    PlanningCase,
    InactivePlanning,
    PlanningRest,
    RepeatedPlanning,
    PlanningInHeading,
    PlanningRange,
    RepeaterOnDone,
    // Properties.
    UnreadEffort,
    RepeatedProperty,
    SpecialProperty,
    // Blocks.
    StrayBlockEnd,
    SettingInBlock,
    // Settings.
    ByteOrderMark,
    SettingWithoutColon,
    SecondCategory,
    CommaInKeywords,
    MissingBar,
    UnreadSetting,
    // Headings.
    KeywordOfOtherFile,
    MissingKeyword,
    NearKeyword,
    WordInCapitals,
    OddSpace,
    HeadingWithoutSpace,
    IndentedHeading,
    KeywordAfterCookie,
    UnreadPriority,
    UnreadTags,
    // Clocks.
    ClockCase,
    ClockInList,
    OverlappingClocks,
    ClockBeforeHeadings,
}

impl BesideKind {
    pub(crate) fn entry(self) -> Entry
        ensures value { seen result ≡ beside_entry self }
    {
        match self {
            BesideKind::WrongDayName => Entry::warning(
                "wrong-day-name",
                kind_sentences::WRONG_DAY_NAME,
            ).with_quote(),
            BesideKind::ReversedRange => Entry::error(
                "reversed-range",
                kind_sentences::REVERSED_RANGE,
            ).with_quote(),
            BesideKind::ReversedTimes => Entry::warning(
                "reversed-times",
                kind_sentences::REVERSED_TIMES,
            ).with_quote(),
            BesideKind::RangeWithRepeater => Entry::warning(
                "range-with-repeater",
                kind_sentences::RANGE_WITH_REPEATER,
            ).with_quote(),
            BesideKind::ZeroRepeater => Entry::warning(
                "zero-repeater",
                kind_sentences::ZERO_REPEATER,
            ).with_quote(),
            BesideKind::NearRange => Entry::warning(
                "near-range",
                kind_sentences::NEAR_RANGE,
            ).with_quote(),
            BesideKind::DiarySexp => Entry::error("diary-sexp", kind_sentences::DIARY_SEXP),
            BesideKind::StampInDrawer => Entry::warning(
                "stamp-in-drawer",
                kind_sentences::STAMP_IN_DRAWER,
            ).with_quote(),
            BesideKind::StampInBlock => Entry::warning(
                "stamp-in-block",
                kind_sentences::STAMP_IN_BLOCK,
            ).with_quote(),
            BesideKind::StampInComment => Entry::note(
                "stamp-in-comment",
                kind_sentences::STAMP_IN_COMMENT,
            ).rare()
                .with_quote(),
            BesideKind::StampInExample => Entry::note(
                "stamp-in-example",
                kind_sentences::STAMP_IN_EXAMPLE,
            ).rare()
                .with_quote(),
            BesideKind::NearPlanning => Entry::warning(
                "near-planning",
                kind_sentences::NEAR_PLANNING,
            ).with_quote(),
            BesideKind::HiddenPlanning => Entry::note(
                "hidden-planning",
                kind_sentences::HIDDEN_PLANNING,
            ).with_quote(),
            BesideKind::PlanningCase => Entry::error(
                "planning-case",
                kind_sentences::PLANNING_CASE,
            ),
            BesideKind::InactivePlanning => Entry::error(
                "inactive-planning",
                kind_sentences::INACTIVE_PLANNING,
            ).with_quote(),
            BesideKind::PlanningRest => Entry::error(
                "planning-rest",
                kind_sentences::PLANNING_REST,
            ),
            BesideKind::RepeatedPlanning => Entry::error(
                "repeated-planning",
                kind_sentences::REPEATED_PLANNING,
            ),
            BesideKind::PlanningInHeading => Entry::warning(
                "planning-in-heading",
                kind_sentences::PLANNING_IN_HEADING,
            ),
            BesideKind::PlanningRange => Entry::warning(
                "planning-range",
                kind_sentences::PLANNING_RANGE,
            ).with_quote(),
            BesideKind::RepeaterOnDone => Entry::note(
                "repeater-on-done",
                kind_sentences::REPEATER_ON_DONE,
            ).with_quote(),
            BesideKind::UnreadEffort => Entry::error(
                "unread-effort",
                kind_sentences::UNREAD_EFFORT,
            ).with_quote(),
            BesideKind::RepeatedProperty => Entry::warning(
                "repeated-property",
                kind_sentences::REPEATED_PROPERTY,
            ),
            BesideKind::SpecialProperty => Entry::warning(
                "special-property",
                kind_sentences::SPECIAL_PROPERTY,
            ),
            BesideKind::StrayBlockEnd => Entry::warning(
                "stray-block-end",
                kind_sentences::STRAY_BLOCK_END,
            ).with_quote(),
            BesideKind::SettingInBlock => Entry::note(
                "setting-in-block",
                kind_sentences::SETTING_IN_BLOCK,
            ).rare(),
            BesideKind::ByteOrderMark => Entry::error(
                "byte-order-mark",
                kind_sentences::BYTE_ORDER_MARK,
            ),
            BesideKind::SettingWithoutColon => Entry::error(
                "setting-without-colon",
                kind_sentences::SETTING_WITHOUT_COLON,
            ),
            BesideKind::SecondCategory => Entry::warning(
                "second-category",
                kind_sentences::SECOND_CATEGORY,
            ),
            BesideKind::CommaInKeywords => Entry::warning(
                "comma-in-keywords",
                kind_sentences::COMMA_IN_KEYWORDS,
            ).with_quote(),
            BesideKind::MissingBar => Entry::warning(
                "missing-bar",
                kind_sentences::MISSING_BAR,
            ).with_quote(),
            BesideKind::UnreadSetting => Entry::note(
                "unread-setting",
                kind_sentences::UNREAD_SETTING,
            ),
            BesideKind::KeywordOfOtherFile => Entry::error(
                "keyword-of-other-file",
                kind_sentences::KEYWORD_OF_OTHER_FILE,
            )
            .with_quote(),
            BesideKind::MissingKeyword => Entry::warning(
                "missing-keyword",
                kind_sentences::MISSING_KEYWORD,
            ).with_quote(),
            BesideKind::NearKeyword => Entry::warning(
                "near-keyword",
                kind_sentences::NEAR_KEYWORD,
            ).with_quote(),
            BesideKind::WordInCapitals => Entry::note(
                "word-in-capitals",
                kind_sentences::WORD_IN_CAPITALS,
            ).rare()
                .with_quote(),
            BesideKind::OddSpace => Entry::error("odd-space", kind_sentences::ODD_SPACE),
            BesideKind::HeadingWithoutSpace => Entry::warning(
                "heading-without-space",
                kind_sentences::HEADING_WITHOUT_SPACE,
            ),
            BesideKind::IndentedHeading => Entry::warning(
                "indented-heading",
                kind_sentences::INDENTED_HEADING,
            ),
            BesideKind::KeywordAfterCookie => Entry::error(
                "keyword-after-cookie",
                kind_sentences::KEYWORD_AFTER_COOKIE,
            ).with_quote(),
            BesideKind::UnreadPriority => Entry::warning(
                "unread-priority",
                kind_sentences::UNREAD_PRIORITY,
            ).with_quote(),
            BesideKind::UnreadTags => Entry::warning(
                "unread-tags",
                kind_sentences::UNREAD_TAGS,
            ).with_quote(),
            BesideKind::ClockCase => Entry::error("clock-case", kind_sentences::CLOCK_CASE),
            BesideKind::ClockInList => Entry::error("clock-in-list", kind_sentences::CLOCK_IN_LIST),
            BesideKind::OverlappingClocks => Entry::warning(
                "overlapping-clocks",
                kind_sentences::OVERLAPPING_CLOCKS,
            ),
            BesideKind::ClockBeforeHeadings => Entry::warning(
                "clock-before-headings",
                kind_sentences::CLOCK_BEFORE_HEADINGS,
            ),
        }
    }
}
