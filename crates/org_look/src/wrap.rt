//! Rows that are broken into lines.

use crate::entry::{Entry, Stand};
use crate::fill::weight;
use crate::sheet::Tone;
use std::alloc::{AllocError, Global};
use unicode_width::UnicodeWidthStr;

// Lines that are being filled: those that are full, the last one, and how much of its columns it takes.
#[derive(Drop)]
struct Wrap {
    lines: Vec<String>,
    line: String,
    used: usize,
    columns: usize,
}

/// The lines of rows, each with its colour.
#[derive(Debug, Drop)]
pub struct Labels {
    pub texts: Vec<String>,
    pub tones: Vec<Tone>,
}

/// The labels of the rows that the cell of a day holds, broken into lines at spaces, and within a word that is longer than a
/// line. A row goes on behind one space.
pub fn broken_labels(
    alloc: Global,
    entries: &[Entry],
    columns: usize,
) -> Result<Labels, AllocError> {
    let mut labels = Labels {
        texts: Vec::new(alloc),
        tones: Vec::new(alloc),
    };
    for entry in entries {
        if entry.stand == Stand::Own {
            labels.push_lines(entry.tone, broken(alloc, entry.label.as_str(), columns)?)?;
        }
    }
    Ok(labels)
}

impl Labels {
    fn push_lines(&mut self, tone: Tone, lines: Vec<String>) -> Result<(), AllocError> {
        for line in lines {
            self.texts.push(line)?;
            self.tones.push(tone)?;
        }
        Ok(())
    }
}

/// A text in lines of so many columns.
pub fn broken(alloc: Global, text: &str, columns: usize) -> Result<Vec<String>, AllocError> {
    let mut wrap = Wrap {
        lines: Vec::new(alloc),
        line: String::new(alloc),
        used: 0,
        columns,
    };
    for word in text.split(' ') {
        wrap.push_word(alloc, word)?;
    }
    wrap.end_line(alloc)?;
    let Wrap {
        lines,
        line: _,
        used: _,
        columns: _,
    } = wrap;
    Ok(lines)
}

impl Wrap {
    fn push_word(&mut self, alloc: Global, word: &str) -> Result<(), AllocError> {
        let width = word.width();
        if self.used > 0 && self.used.saturating_add(width) >= self.columns {
            self.end_line(alloc)?;
        }
        if self.used == 0 && width > self.columns {
            return self.push_long(alloc, word);
        }
        if self.used > 0 {
            self.line.push(' ')?;
            self.used = self.used.saturating_add(1);
        }
        self.line.push_str(word)?;
        self.used = self.used.saturating_add(width);
        Ok(())
    }

    // Appends a word to an empty line, and goes on in further lines where it is longer.
    fn push_long(&mut self, alloc: Global, word: &str) -> Result<(), AllocError> {
        for c in word.chars() {
            let weight = weight(c);
            if self.used > 0 && self.used.saturating_add(weight) > self.columns {
                self.end_line(alloc)?;
            }
            self.line.push(c)?;
            self.used = self.used.saturating_add(weight);
        }
        Ok(())
    }

    fn end_line(&mut self, alloc: Global) -> Result<(), AllocError> {
        let mut line = String::new(alloc);
        if !self.lines.is_empty() {
            line.push(' ')?;
        }
        line.push_str(self.line.as_str())?;
        self.line.clear();
        self.used = 0;
        self.lines.push(line)?;
        Ok(())
    }
}
