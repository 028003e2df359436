//! What a line of a section is.
ghost use Rattle.std.specs.Prelude.{◌≡◌, ◌++◌, ◌∷◌, [], length, slice_get, OnOk};
ghost use Rattle.std.specs.List.{list_any};
ghost use Rattle.org_base.specs.Results.{Gives};
ghost use Rattle.org_class.specs.Classes.{is_setting_class};
ghost use Rattle.org_class.specs.declared.class.Class.TheVariants.{Heading};

use smallvec::SmallVec;
use std::alloc::{AllocError, Global};
use std::marker::Model;

/// The class of a line of a section (Org Syntax, "Headings"; "Sections"; "Planning"; "Property Drawers"; "Blocks";
/// "Comments"; "Keywords"; "Clocks").
#[derive(Clone, Copy, Debug, Default, PartialEq, Eq)]
pub enum Class {
    /// The heading line, which is the first of its section.
    Heading,
    /// The planning line, directly under the heading.
    Planning,
    /// `:PROPERTIES:`, the first line of the property drawer.
    DrawerOpen,
    /// A line of the drawer, with a property.
    Node,
    /// `:END:`, the last line of the drawer.
    DrawerEnd,
    /// A clock line.
    Clock,
    /// A line `#+KEY: VALUE`.
    Setting,
    /// A line whose first word is `#` alone.
    Comment,
    /// `#+BEGIN_X`, the first line of a block.
    BlockOpen,
    /// A line inside a block.
    Verbatim,
    /// `#+END_X`, the last line of a block.
    BlockEnd,
    /// Any other line.
    #[default]
    Plain,
}

/// The classes of a section's lines in order, seen as their list. Up to 16 of them need no memory.
#[derive(Debug, Drop)]
pub struct Classes {
    classes: SmallVec<Class, 16>,
}

impl Model for Classes {
    ghost use Rattle.std.specs.Prelude.{List};
    ghost use Rattle.org_class.specs.declared.class.Class.{Class};

    ghost Value = { List Class };

    ghost view = { λ c. c.classes.items };
}

impl Classes {
    // No classes.
    pub(crate) fn new(alloc: Global) -> Classes
        ensures value { result ≡ [] }
    {
        Classes {
            classes: SmallVec::new(alloc),
        }
    }

    // Those of a heading alone.
    pub(crate) fn of_heading(alloc: Global) -> Result<Classes, AllocError>
        ensures value { Gives result (Heading ∷ []) }
    {
        let mut classes = Classes::new(alloc);
        classes.push(Class::Heading)?;
        Ok(classes)
    }

    // Puts a class at the end.
    pub(crate) fn push(&mut self, class: Class) -> Result<(), AllocError>
        ensures ok { OnOk result (self.new ≡ self.old ++ class ∷ []) }
    {
        self.classes.push(class)?;
        Ok(())
    }

    /// How many classes there are: one for each line.
    pub fn count(&self) -> usize
        ensures value { result ≡ length self.now }
    {
        self.classes.len()
    }

    /// The class of the line at a place, from 0. None where the section has no such line.
    pub fn get(&self, place: usize) -> Option<Class>
        ensures value { result ≡ slice_get self.now place }
    {
        class_at(self.as_slice(), place)
    }

    /// Whether there is a setting line among them.
    pub fn has_setting(&self) -> bool
        ensures value { result ≡ list_any is_setting_class self.now }
    {
        has_setting(self.as_slice())
    }

    /// The classes, to go over.
    pub fn as_slice(&self) -> &[Class]
        ensures value { result.now ≡ self.now }
    {
        self.classes.as_slice()
    }
}

// The class at a place, if there is one.
pub(crate) fn class_at(classes: &[Class], place: usize) -> Option<Class>
    ensures value { result ≡ slice_get classes.now place }
{
    classes.get(place).copied()
}

// Whether there is a setting line among lines of these classes.
pub(crate) fn has_setting(classes: &[Class]) -> bool
    ensures value { result ≡ list_any is_setting_class classes.now }
{
    classes.iter().any(|class| matches!(*class, Class::Setting))
}
