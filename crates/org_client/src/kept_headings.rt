//! The words of the titles of files and what their planning lines say, which are kept where these are long.
ghost use Rattle.std.specs.Prelude.{◌≡◌, ◌<◌, length, IfOk, IfSome};
ghost use Rattle.org_base.specs.Results.{Gives, GivesItems};
ghost use Rattle.org_client.specs.KeptHeadings.{AreKept, planning_at, words_at};

use crate::titles::title_words;
use org_drawer::Planning;
use org_inherit::{Heading, Inherits};
use std::alloc::{AllocError, Global};
use std::marker::Model;

// What a longer heading says is kept: one whose line and planning line have more bytes.
const SHORT: usize = 255;

// A heading by its file and place, the words of its title, and what its planning line says.
#[derive(Drop)]
pub(crate) struct KeptHeading {
    file: usize,
    heading: usize,
    words: Vec<u8>,
    planning: Option<Planning>,
}

/// The words of the titles of some files, and what the planning lines below them say. Many rows may be of one heading, so
/// those of long headings are read once, before the rows are shown. Contracts see what the files say.
#[derive(Drop)]
pub struct KeptHeadings<'a, 'b> {
    inherits: &'a Inherits<'b>,
    // Of the long headings, by files and by their places.
    kept: Vec<KeptHeading>,
}

impl<'a, 'b> Model for KeptHeadings<'a, 'b> {
    ghost use Rattle.std.specs.Prelude.{List};
    ghost use Rattle.org_client.specs.KeptHeadings.{AreKept};
    ghost use Rattle.org_inherit.specs.Scope.{Scope};

    ghost Value = { List Scope };

    ghost view = { λ t. t.inherits.now };

    ghost invariant = { λ t. AreKept t.inherits.now t.kept.items };
}

impl<'a, 'b> KeptHeadings<'a, 'b> {
    /// Those of these files.
    pub fn new(
        alloc: Global,
        inherits: &'a Inherits<'b>,
    ) -> Result<KeptHeadings<'a, 'b>, AllocError>
        ensures value { Gives result inherits.now }
    {
        let kept = long_headings(alloc, inherits)?;
        Ok(KeptHeadings { inherits, kept })
    }

    /// What the files say.
    pub fn inherits(&self) -> &'a Inherits<'b>
        ensures value { result.now ≡ self.now }
    {
        self.inherits
    }

    /// The words of the title of a heading of a file, by their places; none where it isn't there.
    pub fn words(&self, alloc: Global, file: usize, heading: usize) -> Result<Vec<u8>, AllocError>
        ensures value { GivesItems result (words_at self.now file heading) }
    {
        match self.find(file, heading) {
            Some(kept) => Vec::from_slice(alloc, kept.words.as_slice()),
            None => words_at(alloc, self.inherits, file, heading),
        }
    }

    // What the planning line of a heading of a file says, by their places; nothing where it isn't there.
    pub(crate) fn planning(&self, file: usize, heading: usize) -> Option<Planning>
        ensures value { result ≡ planning_at self.now file heading }
    {
        match self.find(file, heading) {
            Some(kept) => kept.planning,
            None => planning_at(self.inherits, file, heading),
        }
    }

    // What is kept of a heading.
    fn find(&self, file: usize, heading: usize) -> Option<&KeptHeading>
        ensures words { IfSome result (λ kept. kept.now.words.items ≡ words_at self.now file heading) }
        ensures planning { IfSome result (λ kept. kept.now.planning ≡ planning_at self.now file heading) }
    {
        let place = self
            .kept
            .as_slice()
            .partition_point(|kept| is_before(kept, file, heading));
        let kept = self.kept.as_slice().get(place)?;
        if kept.file != file || kept.heading != heading {
            return None;
        }
        Some(kept)
    }
}

fn is_before(kept: &KeptHeading, file: usize, heading: usize) -> bool {
    kept.file < file || (kept.file == file && kept.heading < heading)
}

fn words_at(
    alloc: Global,
    inherits: &Inherits<'_>,
    file: usize,
    heading: usize,
) -> Result<Vec<u8>, AllocError>
    ensures value { GivesItems result (words_at inherits.now file heading) }
{
    match Heading::find(inherits, file, heading) {
        Some(heading) => title_words(alloc, heading.title()),
        None => Ok(Vec::new(alloc)),
    }
}

fn planning_at(inherits: &Inherits<'_>, file: usize, heading: usize) -> Option<Planning>
    ensures value { result ≡ planning_at inherits.now file heading }
{
    if file >= inherits.count() {
        return None;
    }
    let outline = inherits.get(file).outline();
    if heading >= outline.count() {
        return None;
    }
    outline.entry(heading).planning()
}

// Those of all long headings.
fn long_headings(alloc: Global, inherits: &Inherits<'_>) -> Result<Vec<KeptHeading>, AllocError>
    ensures value { IfOk result (λ kept. AreKept inherits.now kept.items) }
{
    let mut kept = Vec::new(alloc);
    for file in 0..inherits.count() {
        push_file(alloc, &mut kept, inherits, file)?;
    }
    Ok(kept)
}

fn push_file(
    alloc: Global,
    kept: &mut Vec<KeptHeading>,
    inherits: &Inherits<'_>,
    file: usize,
) -> Result<(), AllocError>
    requires within { file < length inherits.now }
    requires words { AreKept inherits.now kept.old.items }
    ensures words { AreKept inherits.now kept.new.items }
{
    for heading in 0..inherits.get(file).outline().count() {
        push_long(alloc, kept, inherits, file, heading)?;
    }
    Ok(())
}

fn push_long(
    alloc: Global,
    kept: &mut Vec<KeptHeading>,
    inherits: &Inherits<'_>,
    file: usize,
    heading: usize,
) -> Result<(), AllocError>
    requires words { AreKept inherits.now kept.old.items }
    ensures words { AreKept inherits.now kept.new.items }
{
    if !is_long(inherits, file, heading) {
        return Ok(());
    }
    let words = words_at(alloc, inherits, file, heading)?;
    kept.push(KeptHeading {
        file,
        heading,
        words,
        planning: planning_at(inherits, file, heading),
    })?;
    Ok(())
}

fn is_long(inherits: &Inherits<'_>, file: usize, heading: usize) -> bool {
    match Heading::find(inherits, file, heading) {
        Some(heading) => heading.entry.text.as_slice().len() > SHORT,
        None => false,
    }
}
