//! Words of `#+STARTUP:` lines.

use crate::how::How;
use crate::rules::{DrawerChoice, LogRules};

// The rules behind one more word of a `#+STARTUP:` line. A word that isn't about logs changes nothing; letter case doesn't count.
pub(crate) fn with_startup_word(rules: LogRules, word: &str) -> LogRules {
    if let Some(how) = how_of(word, "logdone", "lognotedone", "nologdone") {
        return LogRules { done: how, ..rules };
    }
    if let Some(how) = how_of(word, "logrepeat", "lognoterepeat", "nologrepeat") {
        return LogRules {
            repeat: how,
            ..rules
        };
    }
    with_date_word(rules, word)
}

fn with_date_word(rules: LogRules, word: &str) -> LogRules {
    if let Some(how) = how_of(
        word,
        "logreschedule",
        "lognotereschedule",
        "nologreschedule",
    ) {
        return LogRules {
            reschedule: how,
            ..rules
        };
    }
    if let Some(how) = how_of(
        word,
        "logredeadline",
        "lognoteredeadline",
        "nologredeadline",
    ) {
        return LogRules {
            redeadline: how,
            ..rules
        };
    }
    with_place_word(rules, word)
}

fn with_place_word(rules: LogRules, word: &str) -> LogRules {
    if let Some(is_drawer) = flag_of(word, "logdrawer", "nologdrawer") {
        let drawer = if is_drawer {
            DrawerChoice::Logbook
        } else {
            DrawerChoice::Text
        };
        return LogRules { drawer, ..rules };
    }
    match flag_of(word, "logstatesreversed", "nologstatesreversed") {
        Some(is_newest_first) => LogRules {
            is_newest_first,
            ..rules
        },
        None => rules,
    }
}

// What one of three words says: a time, a note, or nothing; none where it is another word.
pub(crate) fn how_of(word: &str, time: &str, note: &str, nothing: &str) -> Option<Option<How>> {
    if word.eq_ignore_ascii_case(time) {
        Some(Some(How::Time))
    } else if word.eq_ignore_ascii_case(note) {
        Some(Some(How::Note))
    } else if word.eq_ignore_ascii_case(nothing) {
        Some(None)
    } else {
        None
    }
}

// What one of two words says; none where it is another word.
fn flag_of(word: &str, yes: &str, no: &str) -> Option<bool> {
    if word.eq_ignore_ascii_case(yes) {
        Some(true)
    } else if word.eq_ignore_ascii_case(no) {
        Some(false)
    } else {
        None
    }
}
