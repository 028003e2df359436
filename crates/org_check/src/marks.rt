//! The findings of a line that explain its marks.
ghost use Rattle.std.specs.Prelude.{◌≡◌, ◌+◌, ◌≤◌, length, IsOkUnless};
ghost use Rattle.org_base.specs.Codes.{memory_fault};
ghost use Rattle.org_check.specs.Marks.{block_marks, clock_marks, drawer_marks, indent, line_marks, minutes_marks, planning_marks};
ghost use Rattle.org_check.specs.Said.{Says};

use crate::clocks::minutes_kind;
use crate::drawers::{Ahead, look_ahead, stray_drawer};
use crate::finding::Cause;
use crate::findings::{Findings, Found};
use crate::here::Here;
use crate::kind::Kind;
use crate::planning::stray_planning;
use crate::seen::Seen;
use crate::stamps::push_unread_stamps;
use crate::unread_kinds::DrawerKind;
use crate::unread_lines::{
    counts_nothing_in, is_stray_drawer, is_stray_planning, is_unclosed_block, is_unread_clock,
};
use org_base::Fault;
use org_base::words::trim;
use org_cal::Minute;
use org_stamp::leading_spaces;
use org_text::Text;
use std::alloc::AllocError;

// What was found of a whole line, without the white space at its ends.
fn whole_line(here: Here, line: &[u8], kind: Kind, cause: Option<Cause>) -> Found
    ensures kind { result.kind ≡ kind }
    ensures place { result.place ≡ indent line.now }
{
    let place = leading_spaces(line);
    Found {
        kind,
        place,
        shown: here.part(place, trim(line).len()),
        cause,
    }
}

// Puts a line that looks like a planning line and is none.
fn push_planning(found: &mut Findings, here: Here, line: &[u8]) -> Result<(), AllocError>
    ensures said { Says result found.old found.new (planning_marks here.class here.at line.now) }
{
    if !is_stray_planning(here.class, line) {
        return Ok(());
    }
    let kind = Kind::Planning(stray_planning(here, line));
    found.push(here, whole_line(here, line, kind, here.above.first))
}

// Puts a line that looks as if a property drawer began there, and none does.
fn push_drawer<T: Text>(
    text: &T,
    here: Here,
    line: &[u8],
    seen: &mut Seen<'_>,
    found: &mut Findings,
) -> Result<(), Fault>
    requires within { here.rest.at + here.rest.len ≤ length (T.content text.now) }
    ensures said { Says result found.old found.new (drawer_marks here.class here.at line.now) }
    ensures memory { IsOkUnless result memory_fault }
{
    if !is_stray_drawer(here.class, line) {
        return Ok(());
    }
    let ahead = look_ahead(seen.alloc, text, here, seen.ahead)?;
    seen.ahead = Some(ahead);
    let (kind, cause) = stray_drawer(here, ahead);
    let whole = whole_line(here, line, Kind::Drawer(kind), cause);
    found.push(here, with_bad_line(whole, kind, ahead))?;
    Ok(())
}

// The same, where a line of the drawer is what is to be mended.
fn with_bad_line(found: Found, kind: DrawerKind, ahead: Ahead) -> Found
    ensures kind { result.kind ≡ found.kind }
    ensures place { result.place ≡ found.place }
{
    match kind {
        DrawerKind::DrawerLine => Found {
            shown: ahead.stop_line,
            ..found
        },
        _ => found,
    }
}

// Puts a line that looks as if a block began there, and none does.
fn push_block(found: &mut Findings, here: Here, line: &[u8]) -> Result<(), AllocError>
    ensures said { Says result found.old found.new (block_marks here.class here.at line.now) }
{
    if !is_unclosed_block(here.class, line) {
        return Ok(());
    }
    found.push(here, whole_line(here, line, Kind::UnclosedBlock, None))
}

// Puts a line that looks like a clock line and is none.
fn push_clock(found: &mut Findings, here: Here, line: &[u8]) -> Result<(), AllocError>
    ensures said { Says result found.old found.new (clock_marks here.class here.at line.now) }
{
    if !is_unread_clock(here.class, line) {
        return Ok(());
    }
    found.push(here, whole_line(here, line, Kind::UnreadClock, None))
}

// Puts a clock that counts nothing.
fn push_minutes(
    found: &mut Findings,
    here: Here,
    line: &[u8],
    now: Option<Minute>,
) -> Result<(), AllocError>
    ensures said { Says result found.old found.new (minutes_marks here.class here.at line.now) }
{
    if !counts_nothing_in(here.class, line) {
        return Ok(());
    }
    let kind = Kind::Minutes(minutes_kind(line, now));
    found.push(here, whole_line(here, line, kind, None))
}

// Puts a finding for each mark of a line: for whatever looks planned in it and isn't read so.
pub(crate) fn push_line_marks<T: Text>(
    text: &T,
    here: Here,
    line: &[u8],
    seen: &mut Seen<'_>,
    found: &mut Findings,
) -> Result<(), Fault>
    requires within { here.rest.at + here.rest.len ≤ length (T.content text.now) }
    ensures said { Says result found.old found.new (line_marks here.class here.at line.now) }
    ensures memory { IsOkUnless result memory_fault }
{
    push_planning(found, here, line)?;
    push_drawer(text, here, line, seen, found)?;
    push_block(found, here, line)?;
    push_clock(found, here, line)?;
    push_minutes(found, here, line, seen.about.now)?;
    push_unread_stamps(found, here, line)?;
    Ok(())
}
