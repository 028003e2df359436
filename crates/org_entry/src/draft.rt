//! An entry while the lines of its section are read.
ghost use Rattle.std.specs.Prelude.{◌≡◌, ◌+◌, ◌<◌, ◌≤◌, ◌^◌, length, Some, OnOk, IsOkUnless};
ghost use Rattle.org_base.specs.Codes.{memory_fault};
ghost use Rattle.org_base.specs.Results.{Gives};
ghost use Rattle.org_entry.specs.Draft.{nothing_said, with_line, into_entry, line_at, with_clock, with_heading};

use crate::details::{Details, Parts};
use crate::entry::Entry;
use crate::stamps::push_active;
use crate::text::EntryText;
use org_base::Fault;
use org_class::Class;
use org_drawer::{ClockLine, read_clock};
use org_head::{Head, part, read_head};
use org_settings::Settings;
use std::alloc::{AllocError, Global};
use std::marker::Model;

// What the lines of a section so far say.
#[derive(Drop)]
pub(crate) struct Draft {
    alloc: Global,
    text: EntryText,
    head: Option<Head>,
    parts: Parts,
}

impl Model for Draft {
    ghost use Rattle.org_entry.specs.Draft.{EntrySoFar};

    ghost Value = { EntrySoFar };

    ghost view = { λ d. record { text = d.text; head = d.head; drawer = d.parts.drawer; stamps = d.parts.stamps; clocks = d.parts.clocks } };
}

impl Draft {
    // Nothing yet.
    pub(crate) fn new(alloc: Global) -> Draft
        ensures value { result ≡ nothing_said }
    {
        Draft {
            alloc,
            text: EntryText::new(alloc),
            head: None,
            parts: Parts::none(alloc),
        }
    }

    // Adds what one more line says, which stands at a place of the section, after all lines so far.
    pub(crate) fn add(
        &mut self,
        settings: &Settings,
        class: Class,
        at: usize,
        line: &[u8],
    ) -> Result<(), Fault>
        requires behind { length self.old.text ≤ at }
        requires fits { at + length line.now < 2 ^ 32 }
        ensures ok { OnOk result (self.new ≡ with_line settings.now self.old (line_at at class line.now)) }
        ensures memory { IsOkUnless result memory_fault }
    {
        match class {
            Class::Heading => self.add_heading(settings, at, line)?,
            Class::Planning => self.text.push(line)?,
            Class::Node => self.parts.drawer.add(self.alloc, line)?,
            Class::Clock => self.add_clock(line)?,
            Class::Setting | Class::Plain => push_active(&mut self.parts.stamps, at, line)?,
            _ => {}
        }
        Ok(())
    }

    // Adds a heading line.
    fn add_heading(&mut self, settings: &Settings, at: usize, line: &[u8]) -> Result<(), Fault>
        requires behind { length self.old.text ≤ at }
        requires fits { at + length line.now < 2 ^ 32 }
        ensures ok { OnOk result (self.new ≡ with_heading settings.now self.old at line.now) }
        ensures memory { IsOkUnless result memory_fault }
    {
        let head = read_head(self.alloc, line, settings)?;
        let title = head.title;
        self.text.push(line)?;
        push_active(
            &mut self.parts.stamps,
            at + title.at as usize,
            part(line, title),
        )?;
        self.head = Some(head);
        Ok(())
    }

    // Adds a clock line.
    fn add_clock(&mut self, line: &[u8]) -> Result<(), AllocError>
        ensures ok { OnOk result (self.new ≡ with_clock self.old line.now) }
    {
        // Taken apart and put together for the prover, which has to see what a clock holds.
        if let Some(ClockLine { from, to }) = read_clock(line) {
            self.parts.clocks.push(ClockLine { from, to })?;
        }
        Ok(())
    }

    // The entry where no line is left.
    pub(crate) fn into_entry(self) -> Result<Entry, Fault>
        ensures value { Gives result (into_entry self) }
        ensures memory { IsOkUnless result memory_fault }
    {
        let Draft {
            alloc,
            text,
            head,
            parts,
        } = self;
        Ok(Entry {
            text,
            head,
            details: Details::new(alloc, parts)?,
        })
    }
}
