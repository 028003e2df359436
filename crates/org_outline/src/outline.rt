//! Entries of one text with the tree of their headings.
ghost use Rattle.std.specs.Prelude.{◌≡◌, ◌<◌, ◌≤◌, [], length, slice_index_or, slice_set, IfOk, IfErr, OnOk, OnErr, IsOkUnless};
ghost use Rattle.std.specs.List.{splice};
ghost use Rattle.org_base.specs.Codes.{memory_fault};
ghost use Rattle.org_base.specs.Results.{Gives, GivesItems};
ghost use Rattle.org_base.specs.declared.code.Code.TheVariants.{Memory};
ghost use Rattle.org_outline.specs.Levels.{levels, held_in};
ghost use Rattle.org_outline.specs.Tree.{all_ends, end_of, parent};

use crate::body::Body;
use crate::entries::Entries;
use crate::levels::level_of;
use org_base::{Code, Fault};
use org_entry::Entry;
use std::alloc::{AllocError, AllocFailed, Global};
use std::marker::Model;
use std::ops::Range;
use std::rc::Rc;

/// The entries of one text in order, with the tree that the levels of their heads give (Org Syntax, "Headings and
/// Sections"). Places count from 0. An entry without head is no heading: it has no parent and nothing below it.
#[derive(Debug, Drop)]
pub struct Outline {
    alloc: Global,
    // None has no entries, so an empty outline takes no memory.
    body: Option<Rc<Body>>,
}

impl Model for Outline {
    ghost use Rattle.std.specs.Prelude.{List};
    ghost use Rattle.org_entry.specs.declared.entry.Entry.{Entry};

    ghost Value = { List Entry };

    ghost use Rattle.org_outline.specs.Bodies.{held};

    ghost view = { λ s. held s.body };
}

/// Out of memory, with the entries that weren't put in.
#[derive(Debug, Drop)]
pub struct Refused {
    pub entries: Entries,
}

impl Refused {
    /// The refusal that a reply shows.
    pub fn fault(&self) -> Fault
        ensures value { result ≡ memory_fault }
    {
        Fault::Plain(Code::Memory)
    }
}

impl Outline {
    /// An outline without entries.
    pub fn new(alloc: Global) -> Outline
        ensures value { result ≡ [] }
    {
        Outline { alloc, body: None }
    }

    /// An outline of these entries.
    pub fn of(alloc: Global, entries: Entries) -> Result<Outline, Fault>
        ensures value { Gives result entries }
        ensures memory { IsOkUnless result memory_fault }
    {
        match share_body(alloc, entries.into_list()) {
            Ok(body) => Ok(Outline {
                alloc,
                body: Some(body),
            }),
            Err(_) => Err(Fault::Plain(Code::Memory)),
        }
    }

    /// How many entries there are.
    pub fn count(&self) -> usize
        ensures value { result ≡ length self.now }
    {
        match &self.body {
            None => 0,
            Some(body) => body.count(),
        }
    }

    /// The entry at a place.
    pub fn entry(&self, place: usize) -> &Entry
        requires { place < length self.now }
        ensures value { result.now ≡ slice_index_or self.now place result.now }
    {
        match &self.body {
            None => unreachable!(),
            Some(body) => body.entry(place),
        }
    }

    /// The place of the parent: the nearest earlier heading of a smaller level, if there is one.
    pub fn parent(&self, place: usize) -> Option<usize>
        requires { place < length self.now }
        ensures value { result ≡ parent (levels self.now) place }
    {
        let body = self.body.as_ref()?;
        body.parent(place)
    }

    /// Where the subtree ends: the place of the first later heading that isn't below the entry, else the number of
    /// entries. That of an entry without head ends right after it. It passes over the subtree, so who asks of many
    /// entries asks for [`Outline::ends`].
    pub fn end_of(&self, place: usize) -> usize
        requires { place < length self.now }
        ensures value { result ≡ end_of (levels self.now) place }
        ensures behind { place < result }
        ensures within { result ≤ length self.now }
    {
        match &self.body {
            None => 0,
            Some(body) => body.end_of(place),
        }
    }

    /// Where the subtrees of all entries end, by their places, in one pass over the entries.
    pub fn ends(&self, alloc: Global) -> Result<Vec<usize>, AllocError>
        ensures value { GivesItems result (all_ends (levels self.now)) }
    {
        match &self.body {
            None => Ok(Vec::new(alloc)),
            Some(body) => body.ends(alloc),
        }
    }

    /// An equal outline, which later changes of this one don't reach, as changes of it don't reach this one. It takes
    /// the same time whatever the number of entries.
    pub fn share(&self) -> Result<Outline, Fault>
        ensures value { Gives result self.now }
        ensures memory { IsOkUnless result memory_fault }
    {
        let body = match &self.body {
            None => None,
            Some(body) => Some(body.clone()?),
        };
        Ok(Outline {
            alloc: self.alloc,
            body,
        })
    }

    /// Puts entries in the place of those in the range. Out of memory is the only refusal: it hands the entries back,
    /// and the outline is as before. It takes a pass over all entries.
    pub fn replace(&mut self, range: Range<usize>, entries: Entries) -> Result<(), Refused>
        requires order { range.start ≤ range.end }
        requires within { range.end ≤ length self.old }
        ensures ok { OnOk result (self.new ≡ splice self.old range.start range.end entries) }
        ensures err { OnErr result (self.new ≡ self.old) }
        ensures returned { IfErr result (λ refused. refused.entries ≡ entries) }
    {
        let Some(body) = &self.body else {
            return self.fill(entries);
        };
        match shared_with(self.alloc, body, range, &entries) {
            Ok(body) => {
                self.body = Some(body);
                Ok(())
            }
            Err(_) => Err(Refused { entries }),
        }
    }

    /// Whether [`Outline::set`] would make no pass over the entries: no other outline shares these, and both entries have one
    /// level.
    pub fn is_set_at_once(&self, place: usize, entry: &Entry) -> bool
        requires { place < length self.now }
    {
        match &self.body {
            None => false,
            Some(body) => {
                Rc::strong_count(body) == 1 && level_of(body.entry(place)) == level_of(entry)
            }
        }
    }

    /// Puts an entry, which others may hold too, in the place of the one at a place. Where both have one level no other
    /// entry is looked at, unless the outline is shared with another one: then its lists are copied first. Else the table
    /// of parents is made anew by a pass over all entries. Out of memory leaves the outline as
    /// before.
    pub fn set(&mut self, place: usize, entry: &Rc<Entry>) -> Result<(), Fault>
        requires { place < length self.old }
        ensures ok { OnOk result (self.new ≡ slice_set self.old place entry.now.value) }
        ensures err { OnErr result (self.new ≡ self.old) }
        ensures memory { IsOkUnless result memory_fault }
    {
        match &mut self.body {
            None => Ok(()),
            Some(body) => Ok(set_in(self.alloc, body, place, entry)?),
        }
    }

    // Puts entries into an outline that has none.
    fn fill(&mut self, entries: Entries) -> Result<(), Refused>
        requires empty { self.old ≡ [] }
        ensures ok { OnOk result (self.new ≡ entries) }
        ensures err { OnErr result (self.new ≡ self.old) }
        ensures returned { IfErr result (λ refused. refused.entries ≡ entries) }
    {
        match share_body(self.alloc, entries.into_list()) {
            Ok(body) => {
                self.body = Some(body);
                Ok(())
            }
            Err(failed) => Err(Refused {
                entries: Entries::of_list(self.alloc, failed.value),
            }),
        }
    }
}

// The body of a list, to be shared. Out of memory hands the list back.
fn share_body(alloc: Global, list: Vec<Rc<Entry>>) -> Result<Rc<Body>, AllocFailed<Vec<Rc<Entry>>>>
    ensures value { IfOk result (λ b. b.value ≡ held_in list.items) }
    ensures returned { IfErr result (λ failed. held_in failed.value.items ≡ held_in list.items) }
{
    let body = Body::new(alloc, list)?;
    match Rc::new(alloc, body) {
        Ok(body) => Ok(body),
        Err(failed) => Err(AllocFailed {
            value: failed.value.into_list(),
        }),
    }
}

// A body's entries with others in the place of those in the range, to be shared.
fn shared_with(
    alloc: Global,
    body: &Body,
    range: Range<usize>,
    entries: &Entries,
) -> Result<Rc<Body>, AllocError>
    requires order { range.start ≤ range.end }
    requires within { range.end ≤ length body.now }
    ensures value { IfOk result (λ b. b.value ≡ splice body.now range.start range.end entries.now) }
{
    let body = body.with_range(alloc, range, entries.as_slice())?;
    Ok(Rc::new(alloc, body)?)
}

// Puts an entry, which others may hold too, in the place of the one at a place of a body that may be shared. Out of memory
// leaves the entries as before.
fn set_in(
    alloc: Global,
    body: &mut Rc<Body>,
    place: usize,
    entry: &Rc<Entry>,
) -> Result<(), AllocError>
    requires { place < length body.old.value }
    ensures ok { OnOk result (body.new.value ≡ slice_set body.old.value place entry.now.value) }
    ensures err { OnErr result (body.new.value ≡ body.old.value) }
{
    let entry = entry.clone()?;
    Rc::make_mut(body)?.set(alloc, place, entry)
}
