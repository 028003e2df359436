//! Where the headings of lines stand, in front of them.
ghost use Rattle.std.specs.Prelude.{◌≡◌, ◌∷◌, ◌++◌, [], decimal, true, OnOk};
ghost use Rattle.org_base.specs.Results.{Adds};
ghost use Rattle.org_answer.specs.Shown.{AddsClean, number_text};

use crate::line_ids::push_line_id;
use crate::show::push_seen;
use org_client::LoadReport;
use org_clocktable::Of;
use org_layout::Line;
use org_text::Text;
use std::alloc::{AllocError, Global};

/// Appends the file and the line of a row's heading; before a row of a clock table, which begins with a number, a space, so
/// that editors take no number of it as a column.
#[tactic(auto, using(crate::proofs::ShownLemmas::places_alone, crate::proofs::ShownLemmas::places_after, crate::proofs::ShownLemmas::places_nothing, crate::proofs::IdLemmas::places_with_id))]
pub fn push_place<T: Text>(
    alloc: Global,
    out: &mut Vec<u8>,
    files: &LoadReport<'_, '_, T>,
    line: &Line,
    is_seen: bool,
) -> Result<(), AllocError>
    ensures clean { is_seen ≡ true → OnOk result (AddsClean out.old.items out.new.items) }
{
    let Some((file, heading)) = heading_of(line) else {
        return Ok(());
    };
    let Some(place) = files.file_set.place(file, heading) else {
        return Ok(());
    };
    let is_spaced = matches!(line, Line::Table(_));
    if file >= files.file_set.count() {
        return push_number(alloc, out, place.line, is_spaced);
    }
    push_file_name(out, files.file_set.file(file).name(), is_seen)?;
    if files.ids().is_none() {
        return push_number(alloc, out, place.line, is_spaced);
    }
    push_number_at(alloc, out, place.line)?;
    push_line_id(out, files, line, b':')?;
    push_space(out, is_spaced)
}

// Appends a line that an id follows.
fn push_number_at(alloc: Global, out: &mut Vec<u8>, number: u32) -> Result<(), AllocError>
    ensures value { Adds result out.old out.new (58 ∷ decimal number ++ 64 ∷ []) }
{
    let text = format!(in alloc; ":{number}@")?;
    out.extend_from_slice(text.as_bytes())?;
    Ok(())
}

#[tactic(auto, using(crate::proofs::IdLemmas::spaced, crate::proofs::ShownLemmas::places_nothing))]
fn push_space(out: &mut Vec<u8>, is_spaced: bool) -> Result<(), AllocError>
    ensures clean { OnOk result (AddsClean out.old.items out.new.items) }
{
    if is_spaced {
        out.push(b' ')?;
    }
    Ok(())
}

/// Appends the name of a file as it stands in front of rows. One in which a place seems to stand is put between quotation marks,
/// so that it leads nowhere else.
#[tactic(auto, using(crate::proofs::ShownLemmas::names_bare, crate::proofs::ShownLemmas::names_quoted))]
pub fn push_file_name(out: &mut Vec<u8>, name: &str, is_seen: bool) -> Result<(), AllocError>
    ensures clean { is_seen ≡ true → OnOk result (AddsClean out.old.items out.new.items) }
{
    if !seems_placed(name) {
        return push_seen(out, name, is_seen);
    }
    out.push(b'"')?;
    push_seen(out, name, is_seen)?;
    out.push(b'"')?;
    Ok(())
}

/// Whether a colon and a digit stand in a name, so that a place seems to stand in it.
pub fn seems_placed(name: &str) -> bool {
    let mut after_colon = false;
    for byte in name.bytes() {
        if after_colon && byte.is_ascii_digit() {
            return true;
        }
        after_colon = byte == b':';
    }
    false
}

fn push_number(
    alloc: Global,
    out: &mut Vec<u8>,
    number: u32,
    is_spaced: bool,
) -> Result<(), AllocError>
    ensures { Adds result out.old out.new (number_text number is_spaced) }
{
    let text = format!(in alloc; ":{number}:")?;
    out.extend_from_slice(text.as_bytes())?;
    if is_spaced {
        out.push(b' ')?;
    }
    Ok(())
}

/// The heading of a row, by the places of its file and its entry.
pub fn heading_of(line: &Line) -> Option<(usize, usize)> {
    match line {
        Line::Row(shown) => Some((shown.row.file, shown.row.heading)),
        Line::Table(row) => match row.of {
            Of::Heading(file, place, _) => Some((file, place)),
            Of::All | Of::File(_) => None,
        },
        Line::Day(_) | Line::Step(..) => None,
    }
}
