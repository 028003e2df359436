//! What the outline says of each entry, by its place.
ghost use Rattle.std.specs.Prelude.{◌≡◌, ◌≤◌, ◌||◌, length, IfOk};
ghost use Rattle.org_inherit.specs.Hidden.{hides, of_parent};
ghost use Rattle.org_inherit.specs.Tables.{all_passing, has_category, has_tags, has_categories, AreTables};
ghost use Rattle.org_outline.specs.Places.{behind};

use crate::categories::{Categories, own_categories};
use crate::hidden::hides;
use org_entry::Entry;
use org_outline::Outline;
use std::alloc::{AllocError, Global};

// The flags and the categories of all entries.
#[derive(Debug, Drop)]
pub(crate) struct Tables<'a> {
    pub flags: HeadingFlags,
    // None where all have the file's.
    pub categories: Option<Categories<'a>>,
}

impl<'a> Tables<'a> {
    // Those of an outline, in a file with this category.
    pub(crate) fn of(
        alloc: Global,
        outline: &'a Outline,
        file_category: &'a [u8],
    ) -> Result<Tables<'a>, AllocError>
        ensures value { IfOk result (AreTables outline.now file_category.now) }
    {
        let flags = HeadingFlags::of(alloc, outline)?;
        let categories = own_categories(alloc, outline, file_category, flags.has_categories)?;
        Ok(Tables { flags, categories })
    }
}

// Of each entry whether it is hidden and whether it has tags, own or inherited, and whether any has its own category.
#[derive(Debug, Drop)]
pub(crate) struct HeadingFlags {
    pub hidden: Vec<bool>,
    pub tagged: Vec<bool>,
    pub has_categories: bool,
}

impl HeadingFlags {
    // Those of all entries, in one pass over the outline.
    fn of(alloc: Global, outline: &Outline) -> Result<HeadingFlags, AllocError>
        ensures hidden { IfOk result (λ flags. flags.hidden.items ≡ all_passing hides outline.now) }
        ensures tagged { IfOk result (λ flags. flags.tagged.items ≡ all_passing has_tags outline.now) }
        ensures categories { IfOk result (λ flags. flags.has_categories ≡ has_categories outline.now) }
    {
        let count = outline.count();
        let mut hidden = Vec::with_capacity(alloc, count)?;
        let mut tagged = Vec::with_capacity(alloc, count)?;
        let mut has_categories = false;
        for place in 0..count {
            let entry = outline.entry(place);
            let parent = outline.parent(place);
            let hides = one_passes(hides(entry), &hidden, parent);
            let has_tags = one_passes(has_tags(entry), &tagged, parent);
            hidden.push(hides)?;
            tagged.push(has_tags)?;
            has_categories |= has_category(entry);
        }
        Ok(HeadingFlags {
            hidden,
            tagged,
            has_categories,
        })
    }
}

// Whether an entry passes a test or an ancestor of it does, from the same of the entries before it.
fn one_passes(passes: bool, before: &[bool], parent: Option<usize>) -> bool
    requires earlier { behind parent ≤ length before.now }
    ensures value { result ≡ (passes || of_parent before.now parent) }
{
    passes || of_parent(before, parent)
}

// What a table of the entries before says of a parent, if there is one.
fn of_parent(table: &[bool], parent: Option<usize>) -> bool
    requires earlier { behind parent ≤ length table.now }
    ensures value { result ≡ of_parent table.now parent }
{
    match parent {
        Some(place) => table[place],
        None => false,
    }
}

// Whether an entry has own tags.
pub(crate) fn has_tags(entry: &Entry) -> bool
    ensures value { result ≡ has_tags entry.now }
{
    match &entry.head {
        Some(head) => head.tags.count() > 0,
        None => false,
    }
}

// Whether an entry has its own category.
fn has_category(entry: &Entry) -> bool
    ensures value { result ≡ has_category entry.now }
{
    entry.details.property(b"CATEGORY").is_some()
}
