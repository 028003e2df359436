//! Properties of a row's heading.
ghost use Rattle.std.specs.Prelude.{◌≡◌, ◌++◌, OnOk};
ghost use Rattle.org_base.specs.Results.{Gives};
ghost use Rattle.org_client.specs.Json.{pair_text};
ghost use Rattle.org_client.specs.Objects.{behind_pairs, pairs_of_found, properties_at, properties_of_found, with_value};
ghost use Rattle.org_client.specs.ViewRows.{heading_of};

use crate::one_line::OneLine;
use crate::rows::{LoadReport, ViewRow};
use org_base::{Fault, Texts};
use org_inherit::Heading;
use org_text::Text;
use std::alloc::{AllocError, Global};

/// Appends those of the properties that are asked for that a row's heading has, as an object; nothing where there are none.
pub(crate) fn push_properties<T: Text>(
    alloc: Global,
    line: &mut OneLine,
    files: &LoadReport<'_, '_, T>,
    row: &ViewRow,
) -> Result<(), Fault>
    ensures ok { OnOk result (line.new ≡ line.old ++ properties_at files.now (heading_of row.now)) }
{
    let Some((file, place)) = row.heading() else {
        return Ok(());
    };
    if let Some(heading) = Heading::find(files.inherits, file, place) {
        push_found(alloc, line, &heading, &files.properties)?;
    }
    Ok(())
}

fn push_found(
    alloc: Global,
    line: &mut OneLine,
    heading: &Heading<'_, '_>,
    asked: &Texts,
) -> Result<(), Fault>
    ensures ok { OnOk result (line.new ≡ line.old ++ properties_of_found asked.now heading.now) }
{
    let pairs = pairs_of(alloc, heading, asked)?;
    if !pairs.as_slice().is_empty() {
        line.object("properties", &pairs)?;
    }
    Ok(())
}

// The names under which a heading has values, with these, as pairs of an object.
fn pairs_of(alloc: Global, heading: &Heading<'_, '_>, asked: &Texts) -> Result<OneLine, Fault>
    ensures value { Gives result (pairs_of_found asked.now heading.now) }
{
    let mut pairs = OneLine::new(alloc);
    for place in 0..asked.count() {
        push_value(&mut pairs, heading, asked.get(place))?;
    }
    Ok(pairs)
}

fn push_value(pairs: &mut OneLine, heading: &Heading<'_, '_>, name: &[u8]) -> Result<(), Fault>
    ensures ok { OnOk result (pairs.new ≡ with_value pairs.old name.now heading.now) }
{
    let Some(value) = heading.inherit.value(heading.place, name)? else {
        return Ok(());
    };
    push_pair(pairs, name, value.as_slice())?;
    Ok(())
}

// Appends a pair, behind a comma where it isn't the first.
fn push_pair(pairs: &mut OneLine, name: &[u8], value: &[u8]) -> Result<(), AllocError>
    ensures ok { OnOk result (pairs.new ≡ behind_pairs pairs.old ++ pair_text (name.now, value.now)) }
{
    if !pairs.as_slice().is_empty() {
        pairs.push(b',')?;
    }
    pairs.push_pair(name, value)
}
