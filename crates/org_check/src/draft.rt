//! Lines that are put together.
ghost use Rattle.std.specs.Prelude.{◌≡◌, ◌++◌, [], IfOk, OnOk, decimal};
ghost use Rattle.org_check.specs.Printed.{quoted};
ghost use Rattle.org_visible.specs.Visible.{visible};

use crate::clean::CleanLine;
use org_visible::{Escape, push_visible};
use std::alloc::{AllocError, Global};
use std::marker::Model;

// Bytes of a line in which control characters may still stand, seen as their list.
#[derive(Drop)]
pub(crate) struct Draft {
    alloc: Global,
    bytes: Vec<u8>,
}

impl Model for Draft {
    ghost use Rattle.std.specs.Prelude.{ℕ, List};

    ghost Value = { List ℕ };

    ghost view = { λ d. d.bytes.items };
}

impl Draft {
    // None, with room for most lines.
    pub(crate) fn new(alloc: Global) -> Result<Draft, AllocError>
        ensures value { IfOk result (λ draft. draft ≡ []) }
    {
        let bytes = Vec::with_capacity(alloc, 256)?;
        Ok(Draft { alloc, bytes })
    }

    // The bytes as they are shown.
    pub(crate) fn clean_line(&self) -> Result<CleanLine, AllocError>
        ensures value { IfOk result (λ line. line ≡ visible Escape.Question self.now) }
    {
        CleanLine::of(self.alloc, self.bytes.as_slice())
    }

    // The bytes as they are.
    pub(crate) fn as_slice(&self) -> &[u8]
        ensures value { result.now ≡ self.now }
    {
        self.bytes.as_slice()
    }

    // Puts bytes at the end.
    pub(crate) fn push(&mut self, bytes: &[u8]) -> Result<(), AllocError>
        ensures ok { OnOk result (self.new ≡ self.old ++ bytes.now) }
    {
        self.bytes.extend_from_slice(bytes)?;
        Ok(())
    }

    // Puts a text at the end.
    pub(crate) fn push_str(&mut self, text: &str) -> Result<(), AllocError>
        ensures ok { OnOk result (self.new ≡ self.old ++ text.now) }
    {
        self.push(text.as_bytes())
    }

    // Puts a number in decimal at the end.
    pub(crate) fn push_number(&mut self, number: u64) -> Result<(), AllocError>
        ensures ok { OnOk result (self.new ≡ self.old ++ decimal number) }
    {
        let digits = format!(in self.alloc; "{number}")?;
        self.push(digits.as_bytes())
    }

    // Puts a text at the end as a string of JSON.
    pub(crate) fn push_quoted(&mut self, text: &[u8]) -> Result<(), AllocError>
        ensures ok { OnOk result (self.new ≡ self.old ++ quoted text.now) }
    {
        self.push(b"\"")?;
        push_visible(&mut self.bytes, text, Escape::Json)?;
        self.push(b"\"")
    }
}
