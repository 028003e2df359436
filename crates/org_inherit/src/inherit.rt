//! What the outline of a file says of a heading.
ghost use Rattle.std.specs.Prelude.{◌≡◌, ◌<◌, length, IsOkUnless};
ghost use Rattle.std.specs.Option.{option_copied};
ghost use Rattle.org_base.specs.Codes.{memory_fault};
ghost use Rattle.org_base.specs.Results.{Adds, Gives};
ghost use Rattle.org_inherit.specs.Category.{category};
ghost use Rattle.org_inherit.specs.Hidden.{is_hidden};
ghost use Rattle.org_inherit.specs.Scope.{scope_with};
ghost use Rattle.org_inherit.specs.Special.{special_value, value_of};
ghost use Rattle.org_inherit.specs.declared.special.Special.TheVariants.{AllTags, Own};
ghost use Rattle.org_inherit.specs.Tables.{has_tags, one_passes};
ghost use Rattle.org_inherit.specs.Tags.{all_tags, tags_text};
ghost use Rattle.org_inherit.specs.Values.{plain_value};

use crate::ancestors::{Test, lineage_passes};
use crate::categories::category_under;
use crate::category::file_category;
use crate::first_tags::FirstTags;
use crate::heading::{copy_bytes, heading_value};
use crate::special::{HeadingValue, Special};
use crate::tables::Tables;
use crate::tags::{all_tags, copy_tags, push_tags, tags_value};
use crate::values::{file_value, is_inherited, nearest_value};
use org_base::{Bytes, Fault, Texts};
use org_outline::Outline;
use org_settings::Settings;
use std::alloc::Global;
use std::marker::Model;

/// What the outline of one file says of its entries, seen as the entries, the file's settings and name, and the names
/// whose values are inherited (Org manual 9.6, "Tag Inheritance"; "Property Inheritance"). Places are those of the
/// outline, from 0.
#[derive(Debug, Drop)]
pub struct Inherit<'a> {
    alloc: Global,
    outline: &'a Outline,
    settings: &'a Settings,
    file: &'a str,
    inherited: &'a Texts,
    file_category: &'a [u8],
    // None where the ancestors are asked each time.
    tables: Option<Tables<'a>>,
}

impl<'a> Model for Inherit<'a> {
    ghost use Rattle.org_inherit.specs.Scope.{Scope, scope_with};
    ghost use Rattle.org_inherit.specs.Tables.{HasTables};

    ghost Value = { Scope };

    ghost view = { λ i. scope_with i.outline.now i.settings.now i.file.now i.inherited.now };

    ghost invariant = { λ i. HasTables (scope_with i.outline.now i.settings.now i.file.now i.inherited.now) i.file_category.now i.tables };
}

impl<'a> Inherit<'a> {
    /// What an outline says, in a file of this name with these settings, where the values of these names are inherited.
    /// It passes over the outline once.
    pub fn new(
        alloc: Global,
        outline: &'a Outline,
        settings: &'a Settings,
        file: &'a str,
        inherited: &'a Texts,
    ) -> Result<Inherit<'a>, Fault>
        ensures value { Gives result (scope_with outline.now settings.now file.now inherited.now) }
        ensures memory { IsOkUnless result memory_fault }
    {
        let file_category = file_category(outline, settings, file);
        let tables = Tables::of(alloc, outline, file_category)?;
        Ok(Inherit {
            alloc,
            outline,
            settings,
            file,
            inherited,
            file_category,
            tables: Some(tables),
        })
    }

    /// The same, found along the ancestors of a heading each time it is asked. Nothing is passed over and it takes no
    /// memory: for views that ask of few headings.
    pub fn by_ancestors(
        alloc: Global,
        outline: &'a Outline,
        settings: &'a Settings,
        file: &'a str,
        inherited: &'a Texts,
    ) -> Inherit<'a>
        ensures value { result ≡ scope_with outline.now settings.now file.now inherited.now }
    {
        Inherit {
            alloc,
            outline,
            settings,
            file,
            inherited,
            file_category: file_category(outline, settings, file),
            tables: None,
        }
    }

    /// The outline.
    pub fn outline(&self) -> &Outline
        ensures value { result.now ≡ self.now.entries }
    {
        self.outline
    }

    /// The file's settings.
    pub fn settings(&self) -> &Settings
        ensures value { result.now ≡ self.now.settings }
    {
        self.settings
    }

    /// The file's name.
    pub fn file(&self) -> &[u8]
        ensures value { result.now ≡ self.now.file }
    {
        self.file.as_bytes()
    }

    /// Whether the entry or an ancestor of it has the word `COMMENT` or the own tag `ARCHIVE` (Org manual 9.6, "Comment
    /// Lines"; "Internal Archiving"). The file's tags hide nothing.
    pub fn hidden(&self, place: usize) -> bool
        requires { place < length self.now.entries }
        ensures value { result ≡ is_hidden self.now.entries place }
    {
        match &self.tables {
            Some(tables) => tables.flags.hidden[place],
            None => lineage_passes(self.outline, place, Test::Hides),
        }
    }

    /// The file's tags, the tags of the ancestors from the outermost, and the own tags; of equal ones the first (Org
    /// manual 9.6, "Tag Inheritance").
    pub fn all_tags(&self, place: usize) -> Result<Texts, Fault>
        requires { place < length self.now.entries }
        ensures value { Gives result (all_tags self.now place) }
        ensures memory { IsOkUnless result memory_fault }
    {
        let tags = self.first_tags(place)?;
        copy_tags(self.alloc, tags.tags())
    }

    /// Appends all tags as they are written, `:a:b:`, from where they stand; of no tags nothing.
    pub fn push_tags(&self, text: &mut Vec<u8>, place: usize) -> Result<(), Fault>
        requires { place < length self.now.entries }
        ensures ok { Adds result text.old text.new (tags_text (all_tags self.now place)) }
        ensures memory { IsOkUnless result memory_fault }
    {
        let tags = self.first_tags(place)?;
        Ok(push_tags(text, tags.tags())?)
    }

    // All tags, lent.
    fn first_tags(&self, place: usize) -> Result<FirstTags<'_>, Fault>
        requires { place < length self.now.entries }
        ensures value { Gives result (all_tags self.now place) }
        ensures memory { IsOkUnless result memory_fault }
    {
        let tagged = self.has_any_tags(place);
        all_tags(
            self.alloc,
            self.settings.file_tags(),
            self.outline,
            place,
            tagged,
        )
    }

    // Whether the entry or an ancestor of it has own tags.
    fn has_any_tags(&self, place: usize) -> bool
        requires { place < length self.now.entries }
        ensures value { result ≡ one_passes has_tags self.now.entries place }
    {
        match &self.tables {
            Some(tables) => tables.flags.tagged[place],
            None => lineage_passes(self.outline, place, Test::HasTags),
        }
    }

    /// The category, lent (Org manual 9.6, "Categories"): the own property `CATEGORY`, else the nearest ancestor's, else
    /// what the file gives to the name in the drawer before its first heading or by `#+PROPERTY`, else `#+CATEGORY`, else
    /// the file's name after its last slash and without its last extension.
    pub fn category(&self, place: usize) -> &[u8]
        requires { place < length self.now.entries }
        ensures value { result.now ≡ category self.now place }
    {
        match &self.tables {
            Some(tables) => match &tables.categories {
                Some(categories) => categories.get(place),
                None => self.file_category,
            },
            None => category_under(self.outline, place, self.file_category),
        }
    }

    /// The value of a name, whose letter case doesn't count; None where it is missing. It may be empty.
    /// A special name (Org manual 9.6, "Special Properties") has its own value whatever drawers give it: `TODO` the
    /// keyword, `PRIORITY` X of the cookie `[#X]` or else the file's default, `LEVEL` the number of stars, `ITEM` the
    /// title, `CATEGORY` the category, `FILE` the file's name, `TAGS` the own tags and `ALLTAGS` all tags as `:a:b:`,
    /// and `SCHEDULED`, `DEADLINE` and `CLOSED` the stamp as it is written, of a range the first one. An entry without
    /// head has of these the category and the file's name alone.
    /// Any other name has the own value; else, if it is inherited, that of the nearest ancestor that has one, else the
    /// file's: what the drawer before the first heading gives, or `#+PROPERTY` (Org manual 9.6, "Property
    /// Inheritance").
    pub fn value(&self, place: usize, name: &[u8]) -> Result<Option<Bytes>, Fault>
        requires { place < length self.now.entries }
        ensures value { Gives result (value_of self.now place name.now) }
        ensures memory { IsOkUnless result memory_fault }
    {
        if let Some(special) = Special::of_name(name) {
            return self.special_value(place, special);
        }
        match self.plain_value(place, name) {
            Some(value) => Ok(Some(copy_bytes(self.alloc, value)?)),
            None => Ok(None),
        }
    }

    // The value of a name that isn't special.
    fn plain_value(&self, place: usize, name: &[u8]) -> Option<&[u8]>
        requires { place < length self.now.entries }
        ensures value { option_copied result ≡ plain_value self.now place name.now }
    {
        if !is_inherited(self.inherited, name) {
            return self.outline.entry(place).details.property(name);
        }
        match nearest_value(self.outline, place, name) {
            Some(value) => Some(value),
            None => file_value(self.outline, self.settings, name),
        }
    }

    // The value of a special name.
    fn special_value(&self, place: usize, special: Special) -> Result<Option<Bytes>, Fault>
        requires { place < length self.now.entries }
        ensures value { Gives result (special_value self.now place special) }
        ensures memory { IsOkUnless result memory_fault }
    {
        match special {
            Special::Category => Ok(Some(copy_bytes(self.alloc, self.category(place))?)),
            Special::File => Ok(Some(copy_bytes(self.alloc, self.file.as_bytes())?)),
            Special::AllTags => self.all_tags_value(place),
            Special::Own(value) => self.own_value(place, value),
        }
    }

    // All tags of a heading as they are written.
    fn all_tags_value(&self, place: usize) -> Result<Option<Bytes>, Fault>
        requires { place < length self.now.entries }
        ensures value { Gives result (special_value self.now place AllTags) }
        ensures memory { IsOkUnless result memory_fault }
    {
        if self.outline.entry(place).head.is_none() {
            return Ok(None);
        }
        Ok(tags_value(self.alloc, &self.all_tags(place)?)?)
    }

    // What a heading's own lines say.
    fn own_value(&self, place: usize, value: HeadingValue) -> Result<Option<Bytes>, Fault>
        requires { place < length self.now.entries }
        ensures value { Gives result (special_value self.now place (Own value)) }
        ensures memory { IsOkUnless result memory_fault }
    {
        let entry = self.outline.entry(place);
        match &entry.head {
            Some(head) => heading_value(self.alloc, self.settings, entry, head, value),
            None => Ok(None),
        }
    }
}
