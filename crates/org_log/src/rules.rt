//! What is logged, as a person or a file says it.

use crate::how::How;

/// Into which drawer log lines go.
#[derive(Clone, Copy, Debug, PartialEq, Eq)]
pub enum DrawerChoice {
    /// Into none: they stand in the text.
    Text,
    /// Into `LOGBOOK`.
    Logbook,
    /// Into the one that is named beside this.
    Named,
}

/// What is logged besides what keywords ask for.
#[derive(Clone, Copy, Debug, PartialEq, Eq)]
pub struct LogRules {
    /// Of a heading that is done.
    pub done: Option<How>,
    /// Of a task that comes again.
    pub repeat: Option<How>,
    /// Of another `SCHEDULED`.
    pub reschedule: Option<How>,
    /// Of another `DEADLINE`.
    pub redeadline: Option<How>,
    /// Where it stands.
    pub drawer: DrawerChoice,
    /// Whether the newest line comes first.
    pub is_newest_first: bool,
}

impl LogRules {
    /// Those of Org itself: a task that comes again is logged by its time, in the text, the newest line first.
    pub fn standard() -> LogRules {
        LogRules {
            done: None,
            repeat: Some(How::Time),
            reschedule: None,
            redeadline: None,
            drawer: DrawerChoice::Text,
            is_newest_first: true,
        }
    }
}

/// What a person set, which counts where a file says nothing else.
#[derive(Clone, Copy, Debug)]
pub struct LogSettings<'a> {
    pub rules: LogRules,
    /// The drawer that is meant by `DrawerChoice::Named`.
    pub drawer: &'a str,
}
