//! Graphs of habits as texts.

use org_habit::{GraphDay, GraphDays, Urgency};
use std::alloc::AllocError;

// What a day of a graph shows.
#[derive(Clone, Copy)]
enum Sign {
    Done,
    // Nothing was asked, or it was not yet late.
    Quiet,
    // It was late.
    Late,
    // It is to be done, or may be.
    Ahead,
    // It is late today.
    LateToday,
    Blank,
}

/// Appends a graph, a sign for each of its days, and one more before today.
pub(crate) fn push_graph(
    out: &mut String,
    graph: &[GraphDay],
    days: &GraphDays,
    is_ascii: bool,
) -> Result<(), AllocError> {
    let before = days.today.number().saturating_sub(days.first.number()) as usize;
    for (place, day) in graph.iter().enumerate() {
        if place < before {
            out.push(drawn(past_sign(day), is_ascii))?;
        }
    }
    out.push(if is_ascii { '|' } else { '│' })?;
    let shown = shown_days(graph, before);
    for (place, day) in graph.iter().enumerate() {
        if before <= place && place < shown {
            out.push(drawn(coming_sign(day, place == before), is_ascii))?;
        }
    }
    Ok(())
}

// How many days stand up to the last one that shows something, of those from a place on.
fn shown_days(graph: &[GraphDay], before: usize) -> usize {
    let mut shown = before;
    for (place, day) in graph.iter().enumerate() {
        if before <= place && !is_blank(coming_sign(day, place == before)) {
            shown = place.saturating_add(1);
        }
    }
    shown
}

fn is_blank(sign: Sign) -> bool {
    matches!(sign, Sign::Blank)
}

fn past_sign(day: &GraphDay) -> Sign {
    if day.is_done {
        return Sign::Done;
    }
    match day.urgency {
        Urgency::Clear | Urgency::Ready | Urgency::Alert => Sign::Quiet,
        Urgency::Overdue => Sign::Late,
    }
}

fn coming_sign(day: &GraphDay, is_today: bool) -> Sign {
    if day.is_done {
        return Sign::Done;
    }
    match day.urgency {
        Urgency::Clear => Sign::Blank,
        Urgency::Ready | Urgency::Alert => Sign::Ahead,
        Urgency::Overdue if is_today => Sign::LateToday,
        Urgency::Overdue => Sign::Blank,
    }
}

fn drawn(sign: Sign, is_ascii: bool) -> char {
    match (sign, is_ascii) {
        (Sign::Done, false) => '●',
        (Sign::Done, true) => '*',
        (Sign::Quiet, false) => '─',
        (Sign::Quiet, true) => '-',
        (Sign::Late, false) => '╌',
        (Sign::Late, true) => '.',
        (Sign::Ahead, false) => '○',
        (Sign::Ahead, true) => 'o',
        (Sign::LateToday, false) => '×',
        (Sign::LateToday, true) => 'x',
        (Sign::Blank, _) => ' ',
    }
}
