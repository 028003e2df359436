//! What headings are named by.
ghost use Rattle.std.specs.Prelude.{◌≡◌, ◌<◌, [], length, option_copied, slice_get, Some, OnOk};
ghost use Rattle.org_base.specs.Results.{Gives, GivesItems};
ghost use Rattle.org_ids.specs.Names.{AddsBounded, Enters, Leaves, Puts, left_end, lower_count, named_too, names_view, one_line, own_name};

use crate::words::push_words;
use org_base::JaggedVec;
use std::alloc::{AllocError, Global};
use std::marker::Model;

/// The most bytes of a name that are summed. Where long titles stand on the way to many headings, their names would otherwise
/// take work that grows with the square of the text.
pub const MOST_BYTES: usize = 512;

// A heading on the way to another: its level, and where its title ends in the name.
#[derive(Clone, Copy, Debug)]
pub(crate) struct Above {
    level: u32,
    end: usize,
}

/// The names of a file's headings, in their order. That of a heading is the file's name and, each behind a line feed and a star,
/// the words of the titles on the way to it; or in place of all of it, behind a line feed and a colon, its property `ID`.
#[derive(Debug, Drop)]
pub struct Names {
    alloc: Global,
    // How far the file's name goes in each.
    base: usize,
    // The name of the way to the last heading, and where each title on it ends.
    way: Vec<u8>,
    above: Vec<Above>,
    names: JaggedVec<u8>,
}

impl Model for Names {
    ghost use Rattle.org_ids.specs.Names.{NamesView};

    ghost Value = { NamesView };

    ghost view = { λ n. record { base = n.base; way = n.way.items; above = n.above.items; names = n.names } };
}

impl Names {
    /// No headings, of the file of a name.
    pub fn new(alloc: Global, file: &[u8]) -> Result<Names, AllocError>
        ensures value { Gives result (names_view file.now []) }
    {
        let mut way = one_line(alloc, file)?;
        way.truncate(MOST_BYTES);
        Ok(Names {
            alloc,
            base: way.len(),
            way,
            above: Vec::new(alloc),
            names: JaggedVec::new(alloc),
        })
    }

    /// How many headings there are.
    pub fn count(&self) -> usize
        ensures value { result ≡ length self.now.names }
    {
        self.names.count()
    }

    /// The name of the heading at a place.
    pub fn get(&self, place: usize) -> &[u8]
        requires { place < length self.now.names }
        ensures value { slice_get self.now.names place ≡ Some result.now }
    {
        self.names.get(place)
    }

    /// Puts the next heading: its level, its title without active stamps, and its own property `ID`.
    pub fn push(&mut self, level: u32, title: &[u8], id: Option<&[u8]>) -> Result<(), AllocError>
        ensures ok { Puts result self.old self.new level title.now (option_copied id.entry) }
    {
        self.enter(level, title)?;
        match id {
            Some(id) => self.push_by_id(id),
            None => self.names.push(self.way.as_slice()),
        }
    }

    // Goes on to a heading.
    fn enter(&mut self, level: u32, title: &[u8]) -> Result<(), AllocError>
        ensures ok { Enters result self.old self.new level title.now }
    {
        self.leave(level);
        push_bounded(&mut self.way, b"\n*")?;
        push_words(self.alloc, &mut self.way, title)?;
        self.above.push(Above {
            level,
            end: self.way.len(),
        })?;
        Ok(())
    }

    // Goes back to the last heading on the way that has a lower level.
    fn leave(&mut self, level: u32)
        ensures value { Leaves self.old self.new level }
    {
        let left = left_on(self.above.as_slice(), self.base, level);
        self.above.truncate(left.count);
        self.way.truncate(left.end);
    }

    // Puts the name by an ID, unless it says nothing.
    fn push_by_id(&mut self, id: &[u8]) -> Result<(), AllocError>
        ensures ok { OnOk result (self.new ≡ named_too self.old (own_name self.old.way (one_line id.now))) }
    {
        let line = one_line(self.alloc, id)?;
        if line.is_empty() {
            return self.names.push(self.way.as_slice());
        }
        let mut name = Vec::from_slice(self.alloc, b"\n:")?;
        push_bounded(&mut name, line.as_slice())?;
        self.names.push(name.as_slice())
    }
}

// How many headings on a way are left, and where the title of the last of them ends.
#[derive(Clone, Copy)]
struct Left {
    count: usize,
    end: usize,
}

// Those in front that have lower levels; before the first of them a name has its file alone.
fn left_on(above: &[Above], base: usize, level: u32) -> Left
    ensures count { result.count ≡ lower_count level above.now }
    ensures end { result.end ≡ left_end level base above.now }
{
    let mut end = base;
    for place in 0..above.len() {
        if above[place].level >= level {
            return Left { count: place, end };
        }
        end = above[place].end;
    }
    Left {
        count: above.len(),
        end,
    }
}

// Bytes without line feeds.
fn one_line(alloc: Global, bytes: &[u8]) -> Result<Vec<u8>, AllocError>
    ensures value { GivesItems result (one_line bytes.now) }
{
    let mut out = Vec::new(alloc);
    for byte in bytes {
        if *byte != b'\n' {
            out.push(*byte)?;
        }
    }
    Ok(out)
}

/// Appends bytes as far as a name goes.
pub(crate) fn push_bounded(out: &mut Vec<u8>, bytes: &[u8]) -> Result<(), AllocError>
    ensures ok { AddsBounded result out.old out.new bytes.now }
{
    if out.len() >= MOST_BYTES {
        out.truncate(MOST_BYTES);
        return Ok(());
    }
    let room = MOST_BYTES - out.len();
    let (front, _) = bytes.split_at(room.min(bytes.len()));
    out.extend_from_slice(front)?;
    Ok(())
}
