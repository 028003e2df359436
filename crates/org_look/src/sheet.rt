//! Texts with colours.
ghost use Rattle.std.specs.Prelude.{◌≡◌, [], IfOk, OnOk, string_bytes};
ghost use Rattle.org_look.specs.Gives.{GivesWide};
ghost use Rattle.org_look.specs.Results.{Writes};

use crate::strip::Strip;
use std::alloc::{AllocError, Global};

/// What a part of a picture shows by its colour, besides its words.
#[derive(Clone, Copy, Debug, PartialEq, Eq)]
pub enum Tone {
    Plain,
    /// A heading, or the number of a day.
    Strong,
    /// A day of another month, or the number of rows that aren't shown.
    Faint,
    Today,
    Late,
    /// Due on its day, or soon.
    Soon,
    /// Of the file at a place.
    File(usize),
}

/// A part of a text that has a colour: its bytes from one place to before another.
#[derive(Clone, Copy, Debug)]
pub struct Stain {
    pub first: usize,
    pub end: usize,
    pub tone: Tone,
}

/// A text, the parts of it that have a colour, in their order, and where both get memory.
#[derive(Debug, Drop)]
pub struct Sheet {
    alloc: Global,
    pub text: String,
    pub stains: Vec<Stain>,
}

impl Sheet {
    /// A sheet without a text.
    pub fn new(alloc: Global) -> Sheet
        ensures { string_bytes result.text ≡ [] }
    {
        Sheet {
            alloc,
            text: String::new(alloc),
            stains: Vec::new(alloc),
        }
    }

    /// Where it gets memory.
    pub fn alloc(&self) -> Global {
        self.alloc
    }

    /// Appends a text in a colour.
    pub fn push(&mut self, tone: Tone, text: &str) -> Result<(), AllocError>
        ensures { Writes result self.old.text self.new.text text.now }
    {
        let first = self.text.len();
        self.text.push_str(text)?;
        self.stain(first, tone)
    }

    /// Gives the text from a byte on a colour.
    pub fn stain(&mut self, first: usize, tone: Tone) -> Result<(), AllocError>
        ensures { OnOk result (self.new.text ≡ self.old.text) }
    {
        let end = self.text.len();
        if tone != Tone::Plain {
            self.stains.push(Stain { first, end, tone })?;
        }
        Ok(())
    }

    /// Appends a strip with its colours.
    pub fn push_strip(&mut self, strip: &Strip) -> Result<(), AllocError>
        ensures { Writes result self.old.text self.new.text (string_bytes strip.now.text) }
    {
        let before = self.text.len();
        self.text.push_str(strip.text.as_str())?;
        for stain in &strip.stains {
            self.stains.push(stain.behind(before))?;
        }
        Ok(())
    }

    /// Takes the spaces at the end of the text away.
    pub fn trim(&mut self) {
        for _space in 0..self.text.len() {
            if !self.text.as_str().ends_with(' ') {
                return;
            }
            let _ = self.text.pop();
        }
    }
}

impl Stain {
    // The same in a text that stands behind so many bytes.
    fn behind(&self, bytes: usize) -> Stain {
        Stain {
            first: self.first.saturating_add(bytes),
            end: self.end.saturating_add(bytes),
            tone: self.tone,
        }
    }
}

impl Strip {
    /// The strip in a colour.
    pub fn in_tone(self, tone: Tone) -> Result<Strip, AllocError>
        ensures text { IfOk result (λ strip. strip.text ≡ self.text) }
        ensures wide { GivesWide result self.columns }
    {
        let mut strip = self;
        if tone != Tone::Plain {
            let end = strip.text.len();
            strip.stains.push(Stain {
                first: 0,
                end,
                tone,
            })?;
        }
        Ok(strip)
    }
}
