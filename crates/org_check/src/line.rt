//! What a line says beside its marks.
ghost use Rattle.std.specs.Prelude.{IsOkUnless};
ghost use Rattle.org_base.specs.Codes.{memory_fault};

use crate::beside_kinds::BesideKind;
use crate::blocks::{
    is_block_end, opens_example, push_block_end, push_first_active, push_verbatim,
};
use crate::clocks::{push_clock_case, push_clock_item};
use crate::headings::{push_heading, push_heading_like};
use crate::here::{Above, Here, State};
use crate::hidden::{hidden_by, push_hidden};
use crate::near_planning::{push_near_planning, push_near_ranges};
use crate::planning::{push_heading_planning, push_planning, push_planning_case};
use crate::properties::{MetNames, push_node};
use crate::read_stamps::push_read_stamps;
use crate::seen::Seen;
use crate::settings::{push_read_setting, push_setting};
use crate::unread_lines::{has_stamps, is_unclosed_block};
use org_base::Fault;
use org_base::words::{trim, trim_start};
use org_class::{Class, leading_stars};
use org_stamp::leading_spaces;

// Puts what a line says that explains no mark; answers what is known after it.
pub(crate) fn check_line(seen: &mut Seen<'_>, here: Here, line: &[u8]) -> Result<Above, Fault>
    ensures memory { IsOkUnless result memory_fault }
{
    if has_stamps(here.class) {
        check_stamps(seen, here, line)?;
    }
    let mut above = here.above;
    match here.class {
        Class::Heading => {
            let state = check_heading(seen, here, line)?;
            return Ok(Above::of_heading(state));
        }
        Class::Planning => check_planning(seen, here, line)?,
        Class::DrawerOpen => seen.names = MetNames::new(seen.alloc),
        Class::Node => push_node(&mut seen.notes, &mut seen.names, here, line)?,
        Class::Clock => check_clock(seen, here, line)?,
        Class::Comment => {
            push_first_active(&mut seen.notes, here, BesideKind::StampInComment, line)?
        }
        Class::BlockOpen => above.in_example = opens_example(line),
        Class::Verbatim => push_verbatim(&mut seen.notes, here, line)?,
        Class::Plain | Class::Setting => check_text(seen, here, line)?,
        Class::DrawerEnd | Class::BlockEnd => {}
    }
    Ok(above.after(here.class, line, here.number))
}

fn check_stamps(seen: &mut Seen<'_>, here: Here, line: &[u8]) -> Result<(), Fault>
    ensures memory { IsOkUnless result memory_fault }
{
    if !push_read_stamps(&mut seen.notes, here, line)? {
        return Ok(());
    }
    push_near_planning(&mut seen.notes, here, line)?;
    push_near_ranges(&mut seen.notes, here, line)?;
    Ok(())
}

fn check_planning(seen: &mut Seen<'_>, here: Here, line: &[u8]) -> Result<(), Fault>
    ensures memory { IsOkUnless result memory_fault }
{
    push_planning(&mut seen.notes, here, line)?;
    push_hidden(&mut seen.notes, here, line, seen.hiding)?;
    Ok(())
}

fn check_heading(seen: &mut Seen<'_>, here: Here, line: &[u8]) -> Result<State, Fault>
    ensures memory { IsOkUnless result memory_fault }
{
    push_heading_planning(&mut seen.notes, here, line)?;
    let (state, hides) = push_heading(seen, here, line)?;
    seen.hiding = hidden_by(seen.hiding, here, leading_stars(line), hides);
    Ok(state)
}

fn check_clock(seen: &mut Seen<'_>, here: Here, line: &[u8]) -> Result<(), Fault>
    ensures memory { IsOkUnless result memory_fault }
{
    if here.above.headed {
        seen.clocks.push(here, line)?;
        return Ok(());
    }
    seen.notes.push(here.note(
        BesideKind::ClockBeforeHeadings,
        leading_spaces(line),
        trim(line).len(),
    ))?;
    Ok(())
}

// Puts what a line of text says. Most begin with a letter with which nothing begins that is looked for.
fn check_text(seen: &mut Seen<'_>, here: Here, line: &[u8]) -> Result<(), Fault>
    ensures memory { IsOkUnless result memory_fault }
{
    match trim_start(line) {
        [
            b'#' | b'*' | b'-' | b'+' | b'S' | b's' | b'D' | b'd' | b'C' | b'c',
            ..
        ] => { check_form(seen, here, line) }
        _ => Ok(()),
    }
}

// The same of a line that begins with such a letter.
fn check_form(seen: &mut Seen<'_>, here: Here, line: &[u8]) -> Result<(), Fault>
    ensures memory { IsOkUnless result memory_fault }
{
    check_blocks(seen, here, line)?;
    seen.category = push_setting(&mut seen.notes, here, line, seen.category)?;
    push_planning_case(&mut seen.notes, here, line)?;
    push_read_setting(&mut seen.notes, here, line)?;
    push_clock_item(&mut seen.notes, here, line)?;
    push_clock_case(&mut seen.notes, here, line)?;
    push_heading_like(&mut seen.notes, here, seen.about.settings, line)?;
    Ok(())
}

// Counts blocks that say that they begin, and puts an end for which none says so.
fn check_blocks(seen: &mut Seen<'_>, here: Here, line: &[u8]) -> Result<(), Fault>
    ensures memory { IsOkUnless result memory_fault }
{
    if is_unclosed_block(here.class, line) {
        seen.open_blocks = seen.open_blocks.saturating_add(1);
    } else if is_block_end(here.class, line) {
        if seen.open_blocks > 0 {
            // The end of a block that was found already, after a line that begins with a star.
            seen.open_blocks -= 1;
        } else {
            push_block_end(&mut seen.notes, here, line)?;
        }
    }
    Ok(())
}
