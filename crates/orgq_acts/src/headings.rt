//! Headings of files, each file once.

use orgq_args::HeadingPlace;
use std::alloc::{AllocError, Global};
use std::collections::BTreeMap;

/// Headings of one file.
#[derive(Debug, Drop)]
pub struct FileHeadings {
    /// The one that was named first.
    pub first: HeadingPlace,
    /// The lines of all of them.
    pub lines: Vec<u64>,
}

/// Headings of files, which stand in the order in which they were named first.
#[derive(Debug, Drop)]
pub struct Headings {
    files: Vec<FileHeadings>,
    // The place of each file by the path that tells it from others.
    by_path: BTreeMap<Vec<u8>, usize>,
}

impl Headings {
    /// None.
    pub fn new(alloc: Global) -> Headings {
        Headings {
            files: Vec::new(alloc),
            by_path: BTreeMap::new(alloc),
        }
    }

    /// The files.
    pub fn files(&self) -> &[FileHeadings] {
        self.files.as_slice()
    }

    /// How many headings there are; one that was named twice counts once after `sort`.
    pub fn count(&self) -> usize {
        let mut count = 0usize;
        for file in self.files() {
            count = count.saturating_add(file.lines.len());
        }
        count
    }

    /// Puts a heading on a line of the file that a path tells from others, and says whether that file is there.
    pub fn put(&mut self, path: &str, line: u64) -> Result<bool, AllocError> {
        let Some(place) = self.by_path.get(path.as_bytes()).copied() else {
            return Ok(false);
        };
        if let Some(file) = self.files.get_mut(place) {
            file.lines.push(line)?;
        }
        Ok(true)
    }

    /// Puts a heading, the first one of its file.
    pub fn put_first(
        &mut self,
        alloc: Global,
        path: &str,
        first: HeadingPlace,
    ) -> Result<(), AllocError> {
        let path = Vec::from_slice(alloc, path.as_bytes())?;
        self.by_path.insert(path, self.files.len())?;
        self.push_file(alloc, first)
    }

    fn push_file(&mut self, alloc: Global, first: HeadingPlace) -> Result<(), AllocError> {
        let lines = Vec::from_slice(alloc, &[first.line])?;
        self.files.push(FileHeadings { first, lines })?;
        Ok(())
    }

    /// The one of the last file that was named first there.
    pub fn into_first(self) -> Option<HeadingPlace> {
        let mut files = self.files;
        match files.pop() {
            Some(
                FileHeadings {
                    first,
                    lines: _lines,
                },
            ) => Some(first),
            None => None,
        }
    }

    /// Brings the headings of each file into order, each once, the lowest first.
    pub fn sort(&mut self) {
        for file in self.files.iter_mut() {
            file.lines.sort_unstable();
            file.lines.dedup();
            file.lines.reverse();
        }
    }
}
