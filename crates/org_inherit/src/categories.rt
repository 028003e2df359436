//! The categories of entries.
ghost use Rattle.std.specs.Prelude.{◌≡◌, ◌<◌, [], ◌++◌, ◌∷◌, Some, length, slice_get, IfOk, OnOk};
ghost use Rattle.org_base.specs.Results.{Gives};
ghost use Rattle.org_inherit.specs.Category.{category_under, first_categories};
ghost use Rattle.org_inherit.specs.Tables.{AreCategories, has_categories};

use crate::values::nearest_value;
use org_outline::Outline;
use std::alloc::{AllocError, Global};
use std::marker::Model;

// The categories of the first entries of an outline, lent; seen as their list.
#[derive(Debug, Drop)]
pub(crate) struct Categories<'a> {
    list: Vec<&'a [u8]>,
}

impl<'a> Model for Categories<'a> {
    ghost use Rattle.std.specs.Prelude.{ℕ, List};
    ghost use Rattle.org_base.specs.Results.{lent_in};

    ghost Value = { List (List ℕ) };

    ghost view = { λ c. lent_in c.list.items };
}

impl<'a> Categories<'a> {
    // No categories, with room for so many.
    fn with_room(alloc: Global, count: usize) -> Result<Categories<'a>, AllocError>
        ensures value { Gives result [] }
    {
        let list = Vec::with_capacity(alloc, count)?;
        Ok(Categories { list })
    }

    // The category of the entry that comes next: its own value of `CATEGORY`, else its parent's category, and the file's
    // where it has no parent.
    fn next(&self, outline: &'a Outline, file_category: &'a [u8], place: usize) -> &'a [u8]
        requires within { place < length outline.now }
        requires before { self.now ≡ first_categories outline.now file_category.now place }
        ensures value { result.now ≡ category_under outline.now file_category.now place }
    {
        if let Some(own) = outline.entry(place).details.property(b"CATEGORY") {
            return own;
        }
        match outline.parent(place) {
            Some(parent) => self.get(parent),
            None => file_category,
        }
    }

    // Puts one more at the end.
    fn push(&mut self, category: &'a [u8]) -> Result<(), AllocError>
        ensures ok { OnOk result (self.new ≡ self.old ++ category.now ∷ []) }
    {
        self.list.push(category)?;
        Ok(())
    }

    // The category of the entry at a place.
    pub(crate) fn get(&self, place: usize) -> &'a [u8]
        requires { place < length self.now }
        ensures value { slice_get self.now place ≡ Some result.now }
    {
        self.list[place]
    }
}

// The categories of all entries, in a file with this category; None where no entry has its own, since all have the
// file's then.
pub(crate) fn own_categories<'a>(
    alloc: Global,
    outline: &'a Outline,
    file_category: &'a [u8],
    some_own: bool,
) -> Result<Option<Categories<'a>>, AllocError>
    requires some { some_own ≡ has_categories outline.now }
    ensures value { IfOk result (AreCategories outline.now file_category.now) }
{
    if !some_own {
        return Ok(None);
    }
    let mut categories = Categories::with_room(alloc, outline.count())?;
    for place in 0..outline.count() {
        let category = categories.next(outline, file_category, place);
        categories.push(category)?;
    }
    Ok(Some(categories))
}

// The category of the entry at a place, in a file with this one, found along the ancestors.
pub(crate) fn category_under<'a>(
    outline: &'a Outline,
    place: usize,
    file_category: &'a [u8],
) -> &'a [u8]
    requires within { place < length outline.now }
    ensures value { result.now ≡ category_under outline.now file_category.now place }
{
    match nearest_value(outline, place, b"CATEGORY") {
        Some(category) => category,
        None => file_category,
    }
}
