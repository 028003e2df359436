//! How much effort is asked for.

use org_client::Efforts;
use org_drawer::{LONGEST_EFFORT, effort_minutes};
use orgq_messages::Problem;

/// The efforts that a range spells: from the first one to the second, of which one may be missing; or a single one.
pub(crate) fn read_efforts(text: Option<&str>) -> Result<Option<Efforts>, Problem> {
    let Some(text) = text else {
        return Ok(None);
    };
    let (least, most) = match text.split_once('-') {
        Some(ends) => ends,
        None => (text, text),
    };
    if least.is_empty() && most.is_empty() {
        return Err(Problem::Efforts);
    }
    let efforts = Efforts {
        least: minutes_or(least, 0)?,
        most: minutes_or(most, LONGEST_EFFORT)?,
    };
    if efforts.most < efforts.least {
        return Err(Problem::Efforts);
    }
    Ok(Some(efforts))
}

// The minutes of an effort, or these where it is missing.
fn minutes_or(text: &str, minutes: u64) -> Result<u64, Problem> {
    if text.is_empty() {
        return Ok(minutes);
    }
    effort_minutes(text.as_bytes()).ok_or(Problem::Efforts)
}
