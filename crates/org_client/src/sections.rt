//! The lines of a file's sections, as they are looked at.
ghost use Rattle.std.specs.Prelude.{◌≡◌, ◌+◌, ◌≤◌, length};
ghost use Rattle.org_base.specs.Results.{Gives};
ghost use Rattle.org_client.specs.Files.{IsOwnSection};
ghost use Rattle.org_client.specs.FoundRows.{section_meets};

use crate::one_line::OneLine;
use crate::read_file::ReadFile;
use org_base::{Fault, Span};
use org_lines::Lines;
use org_search::{Scan, bare_line};
use org_text::Text;
use std::alloc::{AllocError, Global};

impl<T: Text> ReadFile<T> {
    /// Whether the section at a place holds what is looked for; past the last section no lines are looked at.
    pub(crate) fn section_meets(
        &self,
        alloc: Global,
        heading: usize,
        scan: &mut Scan<'_>,
    ) -> Result<bool, Fault>
        ensures value { Gives result (section_meets scan.old self.now heading) }
        ensures unchanged { scan.new ≡ scan.old }
    {
        scan.section_meets(alloc, self.text(), self.section_span(heading))
    }

    // Where the section at a place stands; nowhere past the last section.
    fn section_span(&self, heading: usize) -> Span
        ensures within { result.at + result.len ≤ length self.now.text }
        ensures own { IsOwnSection self.now heading result }
    {
        match self.section(heading) {
            Some((section, _)) => section,
            None => Span { at: 0, len: 0 },
        }
    }

    /// Appends the first line of the section at a place that holds something that has to be there, and gives its number.
    pub(crate) fn push_first_match(
        &self,
        alloc: Global,
        out: &mut Vec<u8>,
        heading: usize,
        scan: &mut Scan<'_>,
    ) -> Result<Option<u32>, Fault> {
        let Some((section, first)) = self.section(heading) else {
            return Ok(None);
        };
        let mut number = first;
        for line in Lines::new(alloc, self.text(), section) {
            let line = line?;
            let text = bare_line(line.bytes.as_slice());
            if scan.line_matches(text)? {
                out.extend_from_slice(text.as_bytes())?;
                return Ok(Some(number));
            }
            number = number.saturating_add(1);
        }
        Ok(None)
    }

    /// Appends an object for each such line, with commas between them.
    pub(crate) fn push_matches(
        &self,
        alloc: Global,
        out: &mut OneLine,
        heading: usize,
        scan: &mut Scan<'_>,
    ) -> Result<(), Fault> {
        let Some((section, first)) = self.section(heading) else {
            return Ok(());
        };
        let mut number = first;
        let mut is_first = true;
        for line in Lines::new(alloc, self.text(), section) {
            let line = line?;
            let text = bare_line(line.bytes.as_slice());
            if scan.line_matches(text)? {
                push_match(out, is_first, number, text)?;
                is_first = false;
            }
            number = number.saturating_add(1);
        }
        Ok(())
    }
}

// Appends the object of a line, behind a comma where it isn't the first.
fn push_match(
    out: &mut OneLine,
    is_first: bool,
    number: u32,
    text: &str,
) -> Result<(), AllocError> {
    if !is_first {
        out.push(b',')?;
    }
    out.push(b'{')?;
    out.push_quoted(b"line")?;
    out.push(b':')?;
    out.push_number(u64::from(number))?;
    out.text("text", text.as_bytes())?;
    out.push(b'}')
}
