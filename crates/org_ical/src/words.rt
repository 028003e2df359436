//! What components say in words.
ghost use Rattle.org_ical.specs.Properties.{categories_lines, some_text};
ghost use Rattle.org_ical.specs.Results.{AddsLines, bytes_of};
ghost use Rattle.org_ical.specs.Words.{own_words};

use crate::property::{push_property, push_text};
use crate::value::push_values;
use std::alloc::{AllocError, Global};

/// What an event or a task says in words. An empty place or description says nothing, and isn't written.
#[derive(Debug, Drop)]
pub struct Words {
    pub summary: Vec<u8>,
    pub categories: Vec<Vec<u8>>,
    pub location: Vec<u8>,
    pub description: Vec<u8>,
}

impl Words {
    // Appends the lines of what is said.
    pub(crate) fn push(&self, alloc: Global, out: &mut Vec<u8>) -> Result<(), AllocError>
        ensures value { AddsLines result out.old out.new (own_words self.now) }
    {
        push_text(alloc, out, b"SUMMARY", self.summary.as_slice())?;
        push_categories(alloc, out, self.categories.as_slice())?;
        push_some(alloc, out, b"LOCATION", self.location.as_slice())?;
        push_some(alloc, out, b"DESCRIPTION", self.description.as_slice())
    }
}

fn push_categories(
    alloc: Global,
    out: &mut Vec<u8>,
    categories: &[Vec<u8>],
) -> Result<(), AllocError>
    ensures { AddsLines result out.old out.new (categories_lines (bytes_of categories.now)) }
{
    if categories.is_empty() {
        return Ok(());
    }
    let mut value = Vec::new(alloc);
    push_values(&mut value, categories)?;
    push_property(alloc, out, b"CATEGORIES", value.as_slice())
}

// Appends the line of a property whose value is a text, but where the text is empty.
fn push_some(alloc: Global, out: &mut Vec<u8>, name: &[u8], text: &[u8]) -> Result<(), AllocError>
    ensures { AddsLines result out.old out.new (some_text name.now text.now) }
{
    match text {
        [] => Ok(()),
        [_, ..] => push_text(alloc, out, name, text),
    }
}
