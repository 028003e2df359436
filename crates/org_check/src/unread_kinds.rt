//! The kinds of findings that explain a mark: why what looks planned isn't read.
ghost use Rattle.std.specs.Prelude.{◌≡◌};
ghost use Rattle.org_check.specs.Kinds.{drawer_entry, minutes_entry, planning_entry, seen, stamp_entry};

use crate::kind_sentences;
use crate::table::Entry;

/// Why what looks like a timestamp is none.
#[derive(Clone, Copy, Debug, PartialEq, Eq, PartialOrd, Ord)]
pub enum StampKind {
    NoSuchDate,
    NoSuchTime,
    BadRepeater,
    ShortDate,
    UnclosedStamp,
    SpaceInStamp,
    UnreadStamp,
    UnreadInactiveStamp,
    QuotedStamp,
}

impl StampKind {
    pub(crate) fn entry(self) -> Entry
        ensures value { seen result ≡ stamp_entry self }
    {
        match self {
            StampKind::NoSuchDate => Entry::error(
                "no-such-date",
                kind_sentences::NO_SUCH_DATE,
            ).with_quote(),
            StampKind::NoSuchTime => Entry::error(
                "no-such-time",
                kind_sentences::NO_SUCH_TIME,
            ).with_quote(),
            StampKind::BadRepeater => Entry::error(
                "bad-repeater",
                kind_sentences::BAD_REPEATER,
            ).with_quote(),
            StampKind::ShortDate => Entry::error(
                "short-date",
                kind_sentences::SHORT_DATE,
            ).with_quote(),
            StampKind::UnclosedStamp => Entry::error(
                "unclosed-stamp",
                kind_sentences::UNCLOSED_STAMP,
            ).with_quote(),
            StampKind::SpaceInStamp => Entry::error(
                "space-in-stamp",
                kind_sentences::SPACE_IN_STAMP,
            ).with_quote(),
            StampKind::UnreadStamp => Entry::error(
                "unread-stamp",
                kind_sentences::UNREAD_STAMP,
            ).with_quote(),
            StampKind::UnreadInactiveStamp => Entry::note(
                "unread-inactive-stamp",
                kind_sentences::UNREAD_INACTIVE_STAMP,
            )
            .rare()
            .with_quote(),
            StampKind::QuotedStamp => Entry::note("quoted-stamp", kind_sentences::QUOTED_STAMP)
                .rare()
                .with_quote(),
        }
    }
}

/// Why a line whose first word is a planning word is no planning line.
#[derive(Clone, Copy, Debug, PartialEq, Eq, PartialOrd, Ord)]
pub enum PlanningKind {
    StrayPlanning,
    PlanningWithoutStamp,
    PlanningUnread,
}

impl PlanningKind {
    pub(crate) fn entry(self) -> Entry
        ensures value { seen result ≡ planning_entry self }
    {
        match self {
            PlanningKind::StrayPlanning => Entry::error(
                "stray-planning",
                kind_sentences::STRAY_PLANNING,
            ),
            PlanningKind::PlanningWithoutStamp => Entry::error(
                "planning-without-stamp",
                kind_sentences::PLANNING_WITHOUT_STAMP,
            ),
            PlanningKind::PlanningUnread => Entry::note(
                "planning-unread",
                kind_sentences::PLANNING_UNREAD,
            ).rare(),
        }
    }
}

/// Why a line `:PROPERTIES:` begins no drawer.
#[derive(Clone, Copy, Debug, PartialEq, Eq, PartialOrd, Ord)]
pub enum DrawerKind {
    StrayDrawer,
    DrawerLine,
    UnclosedDrawer,
}

impl DrawerKind {
    pub(crate) fn entry(self) -> Entry
        ensures value { seen result ≡ drawer_entry self }
    {
        match self {
            DrawerKind::StrayDrawer => Entry::error("stray-drawer", kind_sentences::STRAY_DRAWER),
            DrawerKind::DrawerLine => Entry::error("drawer-line", kind_sentences::DRAWER_LINE),
            DrawerKind::UnclosedDrawer => Entry::error(
                "unclosed-drawer",
                kind_sentences::UNCLOSED_DRAWER,
            ),
        }
    }
}

/// Why a clock counts no minutes.
#[derive(Clone, Copy, Debug, PartialEq, Eq, PartialOrd, Ord)]
pub enum MinutesKind {
    RunningClock,
    OpenClock,
    ReversedClock,
    EmptyClock,
}

impl MinutesKind {
    pub(crate) fn entry(self) -> Entry
        ensures value { seen result ≡ minutes_entry self }
    {
        match self {
            MinutesKind::RunningClock => Entry::warning(
                "running-clock",
                kind_sentences::RUNNING_CLOCK,
            ),
            MinutesKind::OpenClock => Entry::note("open-clock", kind_sentences::OPEN_CLOCK).rare(),
            MinutesKind::ReversedClock => Entry::error(
                "reversed-clock",
                kind_sentences::REVERSED_CLOCK,
            ),
            MinutesKind::EmptyClock => Entry::note(
                "empty-clock",
                kind_sentences::EMPTY_CLOCK,
            ).rare(),
        }
    }
}
