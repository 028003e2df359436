//! Bytes of one line.
ghost use Rattle.std.specs.Prelude.{◌≡◌, ◌<◌, ◌≤◌, [], ◌∷◌, ◌++◌, decimal, map, IfOk, OnOk};
ghost use Rattle.org_base.specs.Results.{GivesItems};
ghost use Rattle.org_visible.specs.Clean.{IsClean};
ghost use Rattle.org_client.specs.Json.{begins_quoted, field_text, flag_member, flag_text, items_with, joined, named, number_member, object_of, pair_text, quoted, separator, text_member, texts_member};
ghost use Rattle.org_visible.specs.Visible.{visible};

use org_base::Texts;
use org_visible::{Escape, push_visible};
use std::alloc::{AllocError, Global};
use std::marker::Model;

/// Bytes of a line, seen as their list, without control characters.
#[derive(Debug, Drop)]
pub struct OneLine {
    alloc: Global,
    bytes: Vec<u8>,
}

impl Model for OneLine {
    ghost use Rattle.std.specs.Prelude.{ℕ, List};
    ghost use Rattle.org_visible.specs.Clean.{IsClean};

    ghost Value = { List ℕ };

    ghost view = { λ l. l.bytes.items };

    ghost invariant = { λ l. IsClean l.bytes.items };
}

impl OneLine {
    /// No bytes.
    pub fn new(alloc: Global) -> OneLine
        ensures value { result ≡ [] }
    {
        OneLine {
            alloc,
            bytes: Vec::new(alloc),
        }
    }

    /// The bytes, lent.
    pub fn as_slice(&self) -> &[u8]
        ensures value { result.now ≡ self.now }
        ensures line { IsClean result.now }
    {
        self.bytes.as_slice()
    }

    /// Appends a byte of ASCII that prints.
    #[tactic(auto, using(org_visible::proofs::CleanLemmas::clean_byte, org_visible::proofs::CleanLemmas::clean_append))]
    pub fn push(&mut self, byte: u8) -> Result<(), AllocError>
        requires low { 32 ≤ byte }
        requires high { byte < 127 }
        ensures ok { OnOk result (self.new ≡ self.old ++ byte ∷ []) }
    {
        self.bytes.push(byte)?;
        Ok(())
    }

    // Appends bytes without control characters. Where memory is refused the line is as before.
    #[tactic(auto, using(org_visible::proofs::CleanLemmas::clean_append))]
    fn push_all(&mut self, bytes: &[u8]) -> Result<(), AllocError>
        requires { IsClean bytes.now }
        ensures ok { OnOk result (self.new ≡ self.old ++ bytes.now) }
    {
        self.bytes.extend_from_slice(bytes)?;
        Ok(())
    }

    /// Appends a text as a string of JSON.
    pub fn push_quoted(&mut self, text: &[u8]) -> Result<(), AllocError>
        ensures ok { OnOk result (self.new ≡ self.old ++ quoted text.now) }
    {
        let bytes = quote(self.alloc, text)?;
        self.push_all(bytes.as_slice())
    }

    // Appends a comma, a name and a colon.
    fn push_name(&mut self, name: &str) -> Result<(), AllocError>
        ensures ok { OnOk result (self.new ≡ self.old ++ named name.now) }
    {
        self.push(b',')?;
        self.push_quoted(name.as_bytes())?;
        self.push(b':')
    }

    /// Appends a member of an object whose value is a text.
    pub fn text(&mut self, name: &str, text: &[u8]) -> Result<(), AllocError>
        ensures ok { OnOk result (self.new ≡ self.old ++ text_member name.now text.now) }
    {
        self.push_name(name)?;
        self.push_quoted(text)
    }

    /// Appends a number in decimal.
    pub fn push_number(&mut self, number: u64) -> Result<(), AllocError>
        ensures ok { OnOk result (self.new ≡ self.old ++ decimal number) }
    {
        let digits = format!(in self.alloc; "{number}")?;
        self.push_all(digits.as_bytes())
    }

    /// Appends a member whose value is a number.
    pub fn number(&mut self, name: &str, number: u64) -> Result<(), AllocError>
        ensures ok { OnOk result (self.new ≡ self.old ++ number_member name.now number) }
    {
        self.push_name(name)?;
        self.push_number(number)
    }

    /// Appends `true` or `false`.
    pub fn push_flag(&mut self, flag: bool) -> Result<(), AllocError>
        ensures ok { OnOk result (self.new ≡ self.old ++ flag_text flag) }
    {
        let word: &[u8] = if flag { b"true" } else { b"false" };
        self.push_all(word)
    }

    /// Appends a member whose value is true or false.
    pub fn flag(&mut self, name: &str, flag: bool) -> Result<(), AllocError>
        ensures ok { OnOk result (self.new ≡ self.old ++ flag_member name.now flag) }
    {
        self.push_name(name)?;
        self.push_flag(flag)
    }

    // Appends what parts an item from the one before it, of an item at a place.
    fn push_separator(&mut self, place: usize, byte: u8) -> Result<(), AllocError>
        requires low { 32 ≤ byte }
        requires high { byte < 127 }
        ensures ok { OnOk result (self.new ≡ self.old ++ separator place byte) }
    {
        if place > 0 {
            self.push(byte)?;
        }
        Ok(())
    }

    /// Appends a member whose value is a list of texts.
    pub fn texts(&mut self, name: &str, texts: &Texts) -> Result<(), AllocError>
        ensures ok { OnOk result (self.new ≡ self.old ++ texts_member name.now texts.now) }
    {
        self.push_name(name)?;
        self.push(b'[')?;
        self.push_quoted_items(texts)?;
        self.push(b']')
    }

    // Appends texts as strings, with commas between them.
    fn push_quoted_items(&mut self, texts: &Texts) -> Result<(), AllocError>
        ensures ok { OnOk result (self.new ≡ self.old ++ items_with 44 (map quoted texts.now)) }
    {
        for place in 0..texts.count() {
            self.push_separator(place, b',')?;
            self.push_quoted(texts.get(place))?;
        }
        Ok(())
    }

    /// Appends a pair of an object.
    pub fn push_pair(&mut self, name: &[u8], value: &[u8]) -> Result<(), AllocError>
        ensures ok { OnOk result (self.new ≡ self.old ++ pair_text (name.now, value.now)) }
    {
        self.push_quoted(name)?;
        self.push(b':')?;
        self.push_quoted(value)
    }

    /// Appends a member whose value is an object, of which the pairs are written already.
    pub fn object(&mut self, name: &str, pairs: &OneLine) -> Result<(), AllocError>
        ensures ok { OnOk result (self.new ≡ self.old ++ object_of name.now pairs.now) }
    {
        self.push_name(name)?;
        self.push(b'{')?;
        self.append(pairs)?;
        self.push(b'}')
    }

    /// Appends a text so that its control characters can be seen.
    pub fn push_seen(&mut self, text: &[u8]) -> Result<(), AllocError>
        ensures ok { OnOk result (self.new ≡ self.old ++ visible Escape.Caret text.now) }
    {
        let bytes = seen_bytes(self.alloc, text)?;
        self.push_all(bytes.as_slice())
    }

    /// Appends texts so, with a byte between them.
    pub fn push_joined(&mut self, texts: &Texts, between: u8) -> Result<(), AllocError>
        requires low { 32 ≤ between }
        requires high { between < 127 }
        ensures ok { OnOk result (self.new ≡ self.old ++ joined between texts.now) }
    {
        for place in 0..texts.count() {
            self.push_separator(place, between)?;
            self.push_seen(texts.get(place))?;
        }
        Ok(())
    }

    /// Appends what another line has.
    pub fn append(&mut self, other: &OneLine) -> Result<(), AllocError>
        ensures ok { OnOk result (self.new ≡ self.old ++ other.now) }
    {
        self.push_all(other.as_slice())
    }

    /// Appends a text as a field between commas: in it a comma is a semicolon, a control character a space, and a quotation
    /// mark at its front an apostrophe, since fields aren't quoted.
    pub fn field(&mut self, text: &[u8]) -> Result<(), AllocError>
        ensures ok { OnOk result (self.new ≡ self.old ++ field_text text.now) }
    {
        let bytes = field_bytes(self.alloc, text)?;
        self.push_all(bytes.as_slice())
    }
}

fn quote(alloc: Global, text: &[u8]) -> Result<Vec<u8>, AllocError>
    ensures value { GivesItems result (quoted text.now) }
    ensures line { IfOk result (λ bytes. IsClean bytes.items) }
{
    let mut bytes = Vec::new(alloc);
    bytes.push(b'"')?;
    push_visible(&mut bytes, text, Escape::Json)?;
    bytes.push(b'"')?;
    Ok(bytes)
}

fn seen_bytes(alloc: Global, text: &[u8]) -> Result<Vec<u8>, AllocError>
    ensures value { GivesItems result (visible Escape.Caret text.now) }
{
    let mut bytes = Vec::new(alloc);
    push_visible(&mut bytes, text, Escape::Caret)?;
    Ok(bytes)
}

fn field_bytes(alloc: Global, text: &[u8]) -> Result<Vec<u8>, AllocError>
    ensures value { GivesItems result (field_text text.now) }
{
    if begins_quoted(text) {
        return behind_apostrophe(alloc, &text[1..]);
    }
    let mut bytes = Vec::new(alloc);
    push_visible(&mut bytes, text, Escape::Field)?;
    Ok(bytes)
}

fn behind_apostrophe(alloc: Global, text: &[u8]) -> Result<Vec<u8>, AllocError>
    ensures value { GivesItems result (39 ∷ visible Escape.Field text.now) }
{
    let mut bytes = Vec::new(alloc);
    bytes.push(b'\'')?;
    push_visible(&mut bytes, text, Escape::Field)?;
    Ok(bytes)
}

fn begins_quoted(text: &[u8]) -> bool
    ensures { result ≡ begins_quoted text.now }
{
    !text.is_empty() && text[0] == b'"'
}
