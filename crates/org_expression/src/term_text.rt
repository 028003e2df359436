//! Texts of an expression.
use std::alloc::{AllocError, Global};
use std::marker::Model;

/// A text of an expression, which contracts see as its characters.
#[derive(Debug, Drop)]
pub struct TermText {
    text: String,
}

impl Model for TermText {
    ghost use Rattle.std.specs.Prelude.{ℕ, List, string_bytes, chars};

    ghost Value = { List ℕ };

    ghost view = { λ w. chars (string_bytes w.text) };
}

impl TermText {
    ghost use Rattle.std.specs.Prelude.{◌≡◌, ◌++◌, ◌∷◌, [], OnOk, OnErr, chars, encode_utf8_all};
    ghost use Rattle.org_base.specs.Results.{Gives};

    // No characters.
    pub(crate) fn new(alloc: Global) -> TermText
        ensures value { result ≡ [] }
    {
        TermText {
            text: String::new(alloc),
        }
    }

    /// The characters, as a text.
    pub fn as_str(&self) -> &str
        ensures chars { chars result.now ≡ self.now }
        ensures bytes { result.now ≡ encode_utf8_all self.now }
    {
        self.text.as_str()
    }

    // Adds a character. An `Err` leaves the text as it was.
    pub(crate) fn push(&mut self, c: char) -> Result<(), AllocError>
        ensures ok { OnOk result (self.new ≡ self.old ++ c ∷ []) }
        ensures err { OnErr result (self.new ≡ self.old) }
    {
        self.text.push(c)?;
        Ok(())
    }

    // Takes all characters out.
    pub(crate) fn clear(&mut self)
        ensures value { self.new ≡ [] }
    {
        self.text.clear();
    }

    /// The same characters.
    pub fn copy(&self, alloc: Global) -> Result<TermText, AllocError>
        ensures value { Gives result self.now }
    {
        let text = String::from_str(alloc, self.text.as_str())?;
        Ok(TermText { text })
    }
}
