//! Headings that are asked about, by their files.
ghost use Rattle.std.specs.Prelude.{◌≡◌, ◌<◌, [], IfOk, OnOk, get_or, length, replicate};
ghost use Rattle.org_base.specs.Results.{Gives};
ghost use Rattle.org_client.specs.RowIds.{AreAsked, with_heading, with_section};

use crate::row_ids::{HeadingAt, has_key};
use std::alloc::{AllocError, Global};
use std::marker::Model;

// The sections of headings by their files, those of one file in the order in which they came.
#[derive(Drop)]
pub(crate) struct Asked {
    lists: Vec<Vec<usize>>,
}

impl Model for Asked {
    ghost use Rattle.std.specs.Prelude.{List, ℕ, map};

    ghost Value = { List (List ℕ) };

    ghost view = { λ a. map (λ v. v.items) a.lists.items };
}

impl Asked {
    // Those of some headings that have numbers, of so many files.
    pub(crate) fn of(
        alloc: Global,
        files: usize,
        headings: &[HeadingAt],
    ) -> Result<Asked, AllocError>
        ensures value { IfOk result (AreAsked files headings.now) }
    {
        let mut asked = Asked::new(alloc, files)?;
        for heading in headings {
            asked.put(*heading)?;
        }
        Ok(asked)
    }

    // None, of so many files.
    fn new(alloc: Global, files: usize) -> Result<Asked, AllocError>
        ensures value { Gives result (replicate files []) }
    {
        let mut lists = Vec::with_capacity(alloc, files)?;
        for _file in 0..files {
            lists.push(Vec::new(alloc))?;
        }
        Ok(Asked { lists })
    }

    // Puts a heading behind those of its file, if the file is there and it has a number.
    fn put(&mut self, heading: HeadingAt) -> Result<(), AllocError>
        ensures ok { OnOk result (self.new ≡ with_heading self.old heading) }
    {
        if heading.file >= self.lists.len() || !has_key(heading) {
            return Ok(());
        }
        self.add(heading.file, heading.heading)
    }

    fn add(&mut self, file: usize, section: usize) -> Result<(), AllocError>
        requires within { file < length self.old }
        ensures ok { OnOk result (self.new ≡ with_section self.old file section) }
    {
        self.lists[file].push(section)?;
        Ok(())
    }

    // How many files there are.
    pub(crate) fn count(&self) -> usize
        ensures value { result ≡ length self.now }
    {
        self.lists.len()
    }

    // The sections of a file.
    pub(crate) fn sections(&self, file: usize) -> &[usize]
        requires within { file < length self.now }
        ensures value { result.now ≡ get_or self.now file [] }
    {
        self.lists[file].as_slice()
    }
}
