//! How many stamps agendas examine.
use crate::kept::{new_engine, replies};
use org_base::Fault;
use org_engine::Engine;
use org_text::Whole;
use std::alloc::Global;
use std::test::Fail;

// How many stamps commands examine whose replies end so; None where they end otherwise.
fn examined_by(
    alloc: Global,
    engine: &mut Engine<Whole>,
    commands: &str,
    last: &str,
) -> Option<u64> {
    let before = engine.meter().examined();
    if !ends_so(alloc, engine, commands, last) {
        return None;
    }
    engine.meter().examined().checked_sub(before)
}

fn ends_so(alloc: Global, engine: &mut Engine<Whole>, commands: &str, last: &str) -> bool {
    match replies(alloc, engine, commands) {
        Some(shown) => shown.as_slice().ends_with(last.as_bytes()),
        None => false,
    }
}

// Whether the replies to a row's commands end as it says, and these examine as many stamps.
fn is_row(alloc: Global, engine: &mut Engine<Whole>, row: &str) -> bool {
    let (commands, rest) = row.split_once('~').unwrap_or((row, ""));
    let (count, last) = rest.split_once('~').unwrap_or((rest, "none"));
    match count.parse::<u64>() {
        Ok(count) => examined_by(alloc, engine, commands, last) == Some(count),
        Err(_) => false,
    }
}

fn wrong_in<'a>(alloc: Global, engine: &mut Engine<Whole>, rows: &'a str) -> Option<&'a str> {
    for row in rows.split('$') {
        if !is_row(alloc, engine, row) {
            return Some(row);
        }
    }
    None
}

// The first row that is wrong, over an engine without files.
fn wrong_row<'a>(alloc: Global, rows: &'a str) -> Result<Option<&'a str>, Fault> {
    let mut engine = new_engine(alloc)?;
    Ok(wrong_in(alloc, &mut engine, rows))
}

// In what follows a tilde stands between commands, how many stamps they examine and how their replies end, and a dollar sign
// between rows.

// Lists examine none. Of stamps years apart an agenda examines the one of its day, in a pinned world too.
const YEARS_APART: &str = "add a.org 55
* a
<2020-01-01>
* b
<2024-02-28>
* c
<2030-01-01 +1d>
todo
~0~view 0
$agenda 2024-02-28 1
~1~W09
  a:                      b
$pin 1
pinned 1 agenda 2024-02-28 1
~1~W09
  a:                      b
$agenda 2025-01-01 366
~0~2026-01-01 Thu W01
";

#[test]
fn one_stamp_among_years(rt: HostRuntime) -> Result<(), Fail> {
    assert_eq!(rt; wrong_row(rt.alloc(), YEARS_APART)?, None);
    Ok(())
}

// After an edit the stamps of what it touches are others; those of a heading that goes are gone, and what a session keeps has
// those that it had.
const EDITED: &str = "add a.org 55
* a
<2020-01-01>
* b
<2024-02-28>
* c
<2030-01-01 +1d>
todo
~0~view 0
$agenda 2024-02-28 1
pin 1
~1~ok 1
$edit 1 a.org 1 5 10 10
2024-02-28agenda 2024-02-28 1
~2~  a:                      a
  a:                      b
$edit 1 a.org 2 5 10 10
2020-01-01agenda 2024-02-28 1
~1~W09
  a:                      b
$edit 1 a.org 3 17 17 0
agenda 2024-02-28 1
~0~W09
$edit 1 a.org 4 0 0 17
* d
<2024-02-28>
agenda 2024-02-28 1
~1~W09
  a:                      d
$pinned 1 agenda 2024-02-28 1
~1~W09
  a:                      b
$drop a.org
agenda 2024-02-28 1
~0~W09
";

#[test]
fn stamps_behind_edits(rt: HostRuntime) -> Result<(), Fail> {
    assert_eq!(rt; wrong_row(rt.alloc(), EDITED)?, None);
    Ok(())
}

// Deadlines that warn or are late today are examined on it alone, and one that is done not even then.
const DEADLINES: &str = "add a.org 180
* TODO p
DEADLINE: <2024-03-13 Wed>
* TODO q
DEADLINE: <2024-03-14 Thu>
* TODO r
DEADLINE: <2024-02-28 Wed>
* DONE s
DEADLINE: <2024-02-27 Tue>
* TODO t
DEADLINE: <2024-02-27 Tue>
agenda 2024-01-01 1
~0~view 19
2024-01-01 Mon W01
$agenda 2024-02-28 1
~3~1 d. ago: TODO t
";

#[test]
fn deadlines_near_today(rt: HostRuntime) -> Result<(), Fail> {
    assert_eq!(rt; wrong_row(rt.alloc(), DEADLINES)?, None);
    Ok(())
}

// A range that repeats is one of its written days in the first profile, and repeats in the second.
const FIRST_PROFILE: &str = "add a.org 43
* a
<2024-01-01 +1w>--<2024-01-02 +1w>
* b
agenda 2024-02-26 1
~0~W09
";

const SECOND_PROFILE: &str = "profile 2
~0~ok 0
$add a.org 43
* a
<2024-01-01 +1w>--<2024-01-02 +1w>
* b
agenda 2024-02-26 1
~1~W09
  a:                      (1/2): a
";

#[test]
fn ranges_by_profile(rt: HostRuntime) -> Result<(), Fail> {
    assert_eq!(rt; wrong_row(rt.alloc(), FIRST_PROFILE)?, None);
    assert_eq!(rt; wrong_row(rt.alloc(), SECOND_PROFILE)?, None);
    Ok(())
}
