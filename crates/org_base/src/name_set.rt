//! Names, found by order.
ghost use Rattle.std.specs.Prelude.{◌≡◌, ◌↔◌, ◌<◌, [], ◌∷◌, ◌++◌, ℕ, List, Some, length, position, bytes_eq, slice_get, IsTrue, IfOk, IfSome, OnOk, OnErr};
ghost use Rattle.org_base.specs.Found.{AreFound, IsNumbered, entries_of, texts_of};

use std::alloc::{AllocError, Global};
use std::collections::BTreeMap;
use std::marker::Model;

// So many names are compared one by one.
pub(crate) const FEW: usize = 8;

/// Names in the order in which they came. Contracts see the list of their bytes.
///
/// Once they are more than a few they are found by order, so that a search takes time as the logarithm of their number,
/// and no writer of a file can choose names that take longer, as names that a hash makes collide.
#[derive(Debug, Drop)]
pub struct NameSet {
    alloc: Global,
    names: Vec<Vec<u8>>,
    places: Option<BTreeMap<Vec<u8>, usize>>,
}

impl Model for NameSet {
    ghost use Rattle.std.specs.Prelude.{ℕ, List};
    ghost use Rattle.org_base.specs.Found.{AreFound, entries_of, texts_of};

    ghost Value = { List (List ℕ) };

    ghost view = { λ n. texts_of n.names.items };

    ghost invariant = { λ n. AreFound (entries_of n.places) (texts_of n.names.items) };
}

impl NameSet {
    /// No names.
    pub fn new(alloc: Global) -> NameSet
        ensures value { result ≡ [] }
    {
        NameSet {
            alloc,
            names: Vec::new(alloc),
            places: None,
        }
    }

    /// How many names there are.
    pub fn count(&self) -> usize
        ensures value { result ≡ length self.now }
    {
        self.names.len()
    }

    /// The name at a place, from 0.
    pub fn get(&self, place: usize) -> &[u8]
        requires { place < length self.now }
        ensures value { slice_get self.now place ≡ Some result.now }
    {
        self.names[place].as_slice()
    }

    /// The first place of a name.
    pub fn place(&self, name: &[u8]) -> Option<usize>
        ensures value { result ≡ position (bytes_eq name.now) self.now }
        ensures within { IfSome result (λ place. place < length self.now) }
    {
        match &self.places {
            Some(places) => places.get(name).copied(),
            None => self.place_among(name),
        }
    }

    // The first place of a name, by comparing it with each.
    fn place_among(&self, name: &[u8]) -> Option<usize>
        ensures value { result ≡ position (bytes_eq name.now) self.now }
    {
        for place in 0..self.count() {
            if name == self.get(place) {
                return Some(place);
            }
        }
        None
    }

    /// Whether they are the same names, in the same order.
    pub fn is_same(&self, other: &NameSet) -> bool
        ensures value { IsTrue result ↔ (self.now ≡ other.now) }
    {
        self.names == other.names
    }

    /// Puts a name at the end. Where memory is refused the names are as before.
    pub fn add(&mut self, name: Vec<u8>) -> Result<(), AllocError>
        ensures ok { OnOk result (self.new ≡ self.old ++ name.items ∷ []) }
        ensures err { OnErr result (self.new ≡ self.old) }
    {
        self.names.reserve(1)?;
        note_next(
            self.alloc,
            &mut self.places,
            self.names.as_slice(),
            name.as_slice(),
        )?;
        self.names.push_reserved(name);
        Ok(())
    }
}

// Gives the name this place, if it has none.
fn note(
    alloc: Global,
    places: &mut BTreeMap<Vec<u8>, usize>,
    name: &[u8],
    place: usize,
) -> Result<(), AllocError>
    ensures ok { OnOk result (IsNumbered places.old.entries places.new.entries name.now place) }
    ensures err { OnErr result (places.new.entries ≡ places.old.entries) }
{
    if places.contains_key(name) {
        return Ok(());
    }
    let name = Vec::from_slice(alloc, name)?;
    places.insert(name, place)?;
    Ok(())
}

// The first place of each name.
fn places_of(alloc: Global, names: &[Vec<u8>]) -> Result<BTreeMap<Vec<u8>, usize>, AllocError>
    ensures value { IfOk result (λ places. AreFound (Some places.entries) (texts_of names.now)) }
{
    let mut places = BTreeMap::new(alloc);
    for place in 0..names.len() {
        note(alloc, &mut places, names[place].as_slice(), place)?;
    }
    Ok(places)
}

// Gives the name that comes after these its place.
fn note_next(
    alloc: Global,
    places: &mut Option<BTreeMap<Vec<u8>, usize>>,
    names: &[Vec<u8>],
    name: &[u8],
) -> Result<(), AllocError>
    requires found { AreFound (entries_of places.old) (texts_of names.now) }
    ensures ok { OnOk result (AreFound (entries_of places.new) (texts_of names.now ++ name.now ∷ [])) }
    ensures err { OnErr result (AreFound (entries_of places.new) (texts_of names.now)) }
{
    if let Some(places) = places {
        return note(alloc, places, name, names.len());
    }
    if names.len() < FEW {
        return Ok(());
    }
    let mut all = places_of(alloc, names)?;
    note(alloc, &mut all, name, names.len())?;
    *places = Some(all);
    Ok(())
}
