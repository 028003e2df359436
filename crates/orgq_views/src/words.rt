//! Words as a shell cuts them: by blanks, and by quotation marks of both kinds.

use crate::refusal::BadLine;
use std::alloc::{AllocError, Global};
use std::mem;

// What quotes a character.
#[derive(Clone, Copy)]
enum Quote {
    Nothing,
    Single,
    Double,
    // A backslash between double quotation marks stands before it.
    Backslash,
}

// The words so far, and the one that is being read.
#[derive(Drop)]
struct Words {
    alloc: Global,
    words: Vec<String>,
    word: String,
    // Whether that one has begun, which a quotation mark alone does.
    is_begun: bool,
    // Whether a part of it is quoted.
    is_quoted: bool,
    quote: Quote,
}

const OPEN: &str = "a quotation mark isn't closed";

const SIGN: &str = "a view has no pipes; words with such signs stand in quotation marks";

/// The words of a line. Between double quotation marks a backslash stands before one, or before another backslash.
pub(crate) fn words_of(alloc: Global, line: &str) -> Result<Vec<String>, BadLine> {
    let mut words = Words::new(alloc);
    for c in line.chars() {
        words.take(c)?;
    }
    if !matches!(words.quote, Quote::Nothing) {
        return Err(BadLine::Because(OPEN));
    }
    words.end_word()?;
    Ok(words.words)
}

impl Words {
    fn new(alloc: Global) -> Words {
        Words {
            alloc,
            words: Vec::new(alloc),
            word: String::new(alloc),
            is_begun: false,
            is_quoted: false,
            quote: Quote::Nothing,
        }
    }

    // Takes one more character.
    fn take(&mut self, c: char) -> Result<(), BadLine> {
        match (self.quote, c) {
            (Quote::Nothing, ' ' | '\t') => self.end_word(),
            (Quote::Nothing, '\'') => {
                self.open(Quote::Single);
                Ok(())
            }
            (Quote::Nothing, '"') => {
                self.open(Quote::Double);
                Ok(())
            }
            (Quote::Single, '\'') | (Quote::Double, '"') => {
                self.quote = Quote::Nothing;
                Ok(())
            }
            (Quote::Double, '\\') => {
                self.quote = Quote::Backslash;
                Ok(())
            }
            _ => Ok(self.push(c)?),
        }
    }

    // Begins a quoted part.
    fn open(&mut self, quote: Quote) {
        self.quote = quote;
        self.is_begun = true;
        self.is_quoted = true;
    }

    // Appends a character to the word; a backslash too where it stands before a character for which it isn't needed.
    fn push(&mut self, c: char) -> Result<(), AllocError> {
        if matches!(self.quote, Quote::Backslash) {
            self.quote = Quote::Double;
            if c != '"' && c != '\\' {
                self.word.push('\\')?;
            }
        }
        self.is_begun = true;
        self.word.push(c)
    }

    // Puts the word behind the others, if one has begun.
    fn end_word(&mut self) -> Result<(), BadLine> {
        if !self.is_begun {
            return Ok(());
        }
        let word = mem::replace(&mut self.word, String::new(self.alloc));
        if !self.is_quoted && is_sign(word.as_str()) {
            return Err(BadLine::Because(SIGN));
        }
        self.is_begun = false;
        self.is_quoted = false;
        self.words.push(word)?;
        Ok(())
    }
}

// Whether a word means something else to a shell.
fn is_sign(word: &str) -> bool {
    matches!(word, "|" | "||" | ">" | ">>" | "<" | "&" | "&&" | ";")
}
