//! What the headings of a file are named by.
ghost use Rattle.std.specs.Prelude.{◌≡◌, IfOk, OnOk};
ghost use Rattle.org_base.specs.Results.{Gives};
ghost use Rattle.org_client.specs.HeadingNames.{AreAskedAt, AreCountedAt, GivesSumAt, PutsEntry, last_part, name_at, names_in};
ghost use Rattle.org_ids.specs.Counts.{CameThese};
ghost use Rattle.org_ids.specs.Letters.{sum_of};
ghost use Rattle.org_ids.specs.Names.{with_text};

use crate::read_file::ReadFile;
use crate::titles::beside_stamps;
use org_base::Fault;
use org_entry::Entry;
use org_ids::{NameCounts, Names, has_text, push_summed, sum_of};
use org_outline::Outline;
use org_text::Text;
use std::alloc::{AllocError, Global};
use std::marker::Model;

/// The names of the headings of a file, seen with how many sections stand before the first one.
#[derive(Drop)]
pub(crate) struct HeadingNames {
    alloc: Global,
    names: Names,
    // How many sections stand before the first heading.
    front: usize,
}

impl Model for HeadingNames {
    ghost use Rattle.org_client.specs.HeadingNames.{FileNames};

    ghost Value = { FileNames };

    ghost view = { λ n. record { names = n.names.names; front = n.front } };
}

impl HeadingNames {
    /// Those of the file of a path.
    pub(crate) fn of(
        alloc: Global,
        path: &str,
        outline: &Outline,
    ) -> Result<HeadingNames, AllocError>
        ensures value { Gives result (names_in path.now outline.now) }
    {
        let mut names = Names::new(alloc, last_part(path.as_bytes()))?;
        for place in 0..outline.count() {
            push_entry(alloc, &mut names, outline.entry(place))?;
        }
        let front = outline.count().saturating_sub(names.count());
        Ok(HeadingNames {
            alloc,
            names,
            front,
        })
    }

    // The name of the heading of the section at a place; of one without a heading it is empty.
    fn get(&self, section: usize) -> &[u8]
        ensures value { result.now ≡ name_at self.now section }
    {
        if section < self.front {
            return &[];
        }
        let place = section - self.front;
        if place >= self.names.count() {
            return &[];
        }
        self.names.get(place)
    }

    /// How often the names of the headings of some sections came.
    pub(crate) fn counts(&self, sections: &[usize]) -> Result<NameCounts, AllocError>
        ensures value { IfOk result (λ counts. AreCountedAt counts self.now sections.now) }
    {
        let mut counts = self.zero_counts(sections)?;
        self.count_all(&mut counts)?;
        Ok(counts)
    }

    // These names, none of which came yet.
    fn zero_counts(&self, sections: &[usize]) -> Result<NameCounts, AllocError>
        ensures value { IfOk result (λ counts. AreAskedAt counts self.now sections.now) }
    {
        let mut counts = NameCounts::new(self.alloc);
        for section in sections {
            counts.ask(self.get(*section))?;
        }
        Ok(counts)
    }

    // Counts the names of all headings.
    fn count_all(&self, counts: &mut NameCounts) -> Result<(), AllocError>
        ensures ok { OnOk result (CameThese counts.old counts.new self.now.names) }
    {
        for place in 0..self.names.count() {
            counts.count(self.names.get(place))?;
        }
        Ok(())
    }

    /// The sum of the heading of a section of the file, by which its short id begins.
    pub(crate) fn sum<T: Text>(
        &self,
        counts: &NameCounts,
        file: &ReadFile<T>,
        section: usize,
    ) -> Result<u64, Fault>
        ensures value { GivesSumAt result counts.now self.now file.now section }
    {
        let name = self.get(section);
        let is_repeated = counts.is_repeated(name);
        if !has_text(name, is_repeated) {
            return Ok(sum_of(name));
        }
        let text = file.own_text(self.alloc, section)?;
        Ok(self.sum_with(name, is_repeated, text.as_slice())?)
    }

    // The sum of a name with the text of its section behind it.
    fn sum_with(&self, name: &[u8], is_repeated: bool, text: &[u8]) -> Result<u64, AllocError>
        ensures value { Gives result (sum_of (with_text name.now is_repeated text.now)) }
    {
        let mut summed = Vec::new(self.alloc);
        push_summed(&mut summed, name, is_repeated, text)?;
        Ok(sum_of(summed.as_slice()))
    }
}

// Puts the heading of a section, if it has one.
fn push_entry(alloc: Global, names: &mut Names, entry: &Entry) -> Result<(), AllocError>
    ensures ok { PutsEntry result names.old names.new entry.now }
{
    let Some(head) = &entry.head else {
        return Ok(());
    };
    let id = entry.details.property(b"ID");
    let title = entry.part(head.title);
    if !title.contains(&b'<') {
        return names.push(head.level, title, id);
    }
    let beside = beside_stamps(alloc, title)?;
    names.push(head.level, beside.as_slice(), id)
}

// What stands behind the last slash of a path.
fn last_part(path: &[u8]) -> &[u8]
    ensures value { result.now ≡ last_part path.now }
{
    let mut part = path;
    for place in 0..path.len() {
        if path[place] == b'/' {
            part = &path[place + 1..];
        }
    }
    part
}
