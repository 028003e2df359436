//! The calls of an engine that change files.
ghost use Rattle.std.specs.Prelude.{◌≡◌, IfOk, IfErr, IfSome, OnOk, OnErr, None, Some, false, true, is_some, string_bytes, nat_le};
ghost use Rattle.std.specs.Str.{is_utf8};
ghost use Rattle.org_base.specs.Results.{Gives, IfRefused};
ghost use Rattle.org_engine.specs.Calls.{FailsUnseen, IsCompleted, IsNewFile, Puts, PutsNone, Refuses, RefusesSurely, RefusesSurelyBy, RefusesName, Replaces, Tells, name_fault};
ghost use Rattle.org_engine.specs.Computed.{FailsSurely};
ghost use Rattle.org_engine.specs.Marks.{AddsMarks, AddsNoMarks, CompletesMarks, CompletesNone, DropsMarks, EditsMarks, EditsNoMarks, IsQuiet, PutsMarks, PutsNoMarks, KeepsRest};
ghost use Rattle.org_engine.specs.Step.{AddFile, Answers, Complete, DropFile, EditFile, Refused, Serial, file_named, text_seen};
ghost use Rattle.org_engine.specs.declared.limits.TheConstants.{LAST_SERIAL};

use crate::engine::Engine;
use crate::limits::LAST_SERIAL;
use crate::seen::text_seen;
use org_base::{Bytes, Code, Fault, MOST_FILES, is_file_name};
use org_store::{Change, OwnedChange};
use org_text::Text;

/// What an accepted completion did: the serial of the file's new text, and the change of the former one that it is.
#[derive(Debug, Drop)]
pub struct Completion {
    /// The file's new serial.
    pub serial: u64,
    /// What was replaced in the text of the serial before, and by what.
    pub change: OwnedChange,
}

impl<T: Text> Engine<T> {
    // Whether the last serial was given, so that no change is made any more.
    fn is_spent(&self) -> bool
        ensures value { result ≡ nat_le LAST_SERIAL self.now.state.serial }
    {
        self.serial >= LAST_SERIAL
    }

    /// Adds a file and answers its serial; the file has a copy of the bytes. Refusals in order: `Command` for a bad name,
    /// `Taken`, `Files`, `Utf8`, `Size`, `Spent`; out of memory may come at any time. After a refusal the engine is as
    /// before.
    pub fn add(&mut self, name: &str, text: &[u8]) -> Result<u64, Fault>
        ensures ok { Tells (AddFile name.now text.now) self.old result self.new }
        ensures err { Refuses (AddFile name.now text.now) self.old result self.new }
        ensures definite { RefusesSurelyBy (name_fault name.now self.old.state.world.files) result }
        ensures marks { OnOk result (AddsMarks text.now self.old self.new) }
        ensures partial { OnErr result (AddsNoMarks text.now self.old self.new) }
        ensures uncounted { IfRefused result (λ _. IsQuiet self.old self.new) }
    {
        self.admit(name)?;
        let Ok(text) = str::from_utf8(text) else {
            return Err(Fault::Plain(Code::Utf8));
        };
        let text = T::of(self.alloc, text)?;
        self.put_new(name, text)
    }

    /// Adds a file, which takes the bytes over, and answers its serial. All else is as `add` has it; after a refusal the
    /// bytes are gone.
    pub fn add_bytes(&mut self, name: &str, text: Bytes) -> Result<u64, Fault>
        ensures ok { Tells (AddFile name.now text) self.old result self.new }
        ensures err { Refuses (AddFile name.now text) self.old result self.new }
        ensures definite { RefusesSurelyBy (name_fault name.now self.old.state.world.files) result }
        ensures marks { OnOk result (AddsMarks text self.old self.new) }
        ensures partial { OnErr result (AddsNoMarks text self.old self.new) }
        ensures uncounted { IfRefused result (λ _. IsQuiet self.old self.new) }
    {
        self.admit(name)?;
        let Some(text) = string_of(text) else {
            return Err(Fault::Plain(Code::Utf8));
        };
        let text = T::of_string(self.alloc, text)?;
        self.put_new(name, text)
    }

    // Whether a file of that name may be added, or why not, whatever its text.
    fn admit(&self, name: &str) -> Result<(), Fault>
        ensures ok { OnOk result (IsNewFile name.now self.now.state.world.files) }
        ensures err { IfErr result (RefusesName name.now self.now.state) }
        ensures none { OnOk result (name_fault name.now self.now.state.world.files ≡ None) }
        ensures fault { IfErr result (λ f. name_fault name.now self.now.state.world.files ≡ Some f) }
    {
        if !is_file_name(name.as_bytes()) {
            return Err(Fault::Plain(Code::Command));
        }
        if self.world.contains(name) {
            return Err(Fault::Plain(Code::Taken));
        }
        if self.world.count() >= MOST_FILES {
            return Err(Fault::Plain(Code::Files));
        }
        Ok(())
    }

    // Adds a file of a new name and answers its serial.
    fn put_new(&mut self, name: &str, text: T) -> Result<u64, Fault>
        requires new { IsNewFile name.now self.old.state.world.files }
        ensures ok { Tells (AddFile name.now (T.content text)) self.old result self.new }
        ensures err { Refuses (AddFile name.now (T.content text)) self.old result self.new }
        ensures marks { OnOk result (AddsMarks (T.content text) self.old self.new) }
        ensures partial { OnErr result (AddsNoMarks (T.content text) self.old self.new) }
        ensures uncounted { IfRefused result (λ _. IsQuiet self.old self.new) }
    {
        // For the proof alone: its contract says that the text is UTF-8 and not too long.
        let _len = text.len();
        if self.is_spent() {
            return Err(Fault::Plain(Code::Spent));
        }
        let serial = self.serial + 1;
        self.world
            .add(self.alloc, &mut self.meter, name, text, serial)?;
        self.serial = serial;
        Ok(serial)
    }

    /// Drops the file of that name and answers the serial of this change. Refusals in order: `Unknown`, `Spent`. It takes
    /// no memory. After a refusal the engine is as before.
    pub fn drop_file(&mut self, name: &str) -> Result<u64, Fault>
        ensures ok { Tells (DropFile name.now) self.old result self.new }
        ensures err { RefusesSurely (DropFile name.now) self.old result self.new }
        ensures marks { OnOk result (DropsMarks name.now self.old self.new) }
        ensures uncounted { OnErr result (IsQuiet self.old self.new) }
    {
        if !self.world.contains(name) {
            return Err(Fault::Plain(Code::Unknown));
        }
        if self.is_spent() {
            return Err(Fault::Plain(Code::Spent));
        }
        self.world.remove(name);
        self.serial += 1;
        Ok(self.serial)
    }

    /// Replaces `del` bytes at `at` in the text of the file of that name, which a session saw with this serial, and answers
    /// the file's new serial. Refusals in order: `Session`, `Unknown`, `Stale` with the file's serial, `Utf8` where the new
    /// bytes are no text, `Range`, `Boundary`, `Size`, `Spent`; out of memory may come at any time. After a refusal the
    /// engine is as before.
    pub fn edit(
        &mut self,
        session: u64,
        name: &str,
        serial: u64,
        at: u64,
        del: u64,
        ins: &[u8],
    ) -> Result<u64, Fault>
        ensures ok { Tells (EditFile session name.now serial at del ins.now) self.old result self.new }
        ensures err { Refuses (EditFile session name.now serial at del ins.now) self.old result self.new }
        ensures definite { FailsUnseen session name.now serial self.old result }
        ensures marks { OnOk result (EditsMarks name.now at del ins.now self.old self.new) }
        ensures partial { OnErr result (EditsNoMarks name.now at del ins.now self.old self.new) }
        ensures uncounted { IfRefused result (λ _. IsQuiet self.old self.new) }
    {
        text_seen(&self.world, session, name, serial)?;
        let Ok(ins) = str::from_utf8(ins) else {
            return Err(Fault::Plain(Code::Utf8));
        };
        self.put(name, Change { at, del, ins })
    }

    /// Completes the heading on a line of the file of that name, which a session saw with this serial, with a keyword, and
    /// answers the file's new serial (Org manual 9.6, "Repeated tasks"): the keyword goes where the heading's stands; where
    /// it is a done one and active stamps of the planning line repeat, these shift instead, and the keyword is the first of
    /// its sequence. Lines count from 1. Refusals in order: `Session`, `Unknown`, `Stale` with the file's serial, `Heading`
    /// where the line is no heading's, `Keyword` where the file has no such keyword, `Hours` where a stamp that shifts
    /// repeats by hours and has no time, or a range of times, `Date` where one leaves the years, `Size`, `Spent`; want of
    /// memory may come at any time. After a refusal the engine is as before, but that one section may
    /// have been read, as the meter counts.
    pub fn complete(
        &mut self,
        session: u64,
        name: &str,
        serial: u64,
        line: u64,
        keyword: &str,
    ) -> Result<u64, Fault>
        ensures ok { Tells (Complete session name.now serial line keyword.now) self.old result self.new }
        ensures err { Refuses (Complete session name.now serial line keyword.now) self.old result self.new }
        ensures definite { FailsUnseen session name.now serial self.old result }
        ensures marks { OnOk result (CompletesMarks name.now line keyword.now self.old self.new) }
        ensures partial { OnErr result (CompletesNone name.now line keyword.now self.old self.new) }
        ensures refused { IfRefused result (KeepsRest session name.now serial line self.old self.new) }
    {
        let done = self.complete_and_tell(session, name, serial, line, keyword)?;
        Ok(done.serial)
    }

    /// The same, and answers besides what it replaced, so that who keeps the text of that version needs not ask for the new
    /// one. All else is as `complete` has it.
    pub fn complete_and_tell(
        &mut self,
        session: u64,
        name: &str,
        serial: u64,
        line: u64,
        keyword: &str,
    ) -> Result<Completion, Fault>
        ensures ok { IfOk result (IsCompleted session name.now serial line keyword.now self.old self.new) }
        ensures part { IfOk result (Replaces name.now line keyword.now self.old.state) }
        ensures err { Refuses (Complete session name.now serial line keyword.now) self.old result self.new }
        ensures definite { FailsUnseen session name.now serial self.old result }
        ensures marks { OnOk result (CompletesMarks name.now line keyword.now self.old self.new) }
        ensures partial { OnErr result (CompletesNone name.now line keyword.now self.old self.new) }
        ensures refused { IfRefused result (KeepsRest session name.now serial line self.old self.new) }
    {
        text_seen(&self.world, session, name, serial)?;
        let change = self
            .world
            .complete_heading(self.alloc, &mut self.meter, name, line, keyword)?;
        let serial = self.put(name, change.lend())?;
        Ok(Completion { serial, change })
    }

    // Changes the text of the file of a name, which is there, and answers its next serial. Refusals in order: those of an edit,
    // `Spent`; out of memory may come at any time. After a refusal the engine is as before, but for what was counted.
    fn put(&mut self, name: &str, change: Change<'_>) -> Result<u64, Fault>
        requires there { is_some (file_named name.now self.old.state.world.files) ≡ true }
        ensures ok { IfOk result (λ next. Puts name.now change.entry self.old (Serial next) self.new) }
        ensures err { OnErr result (self.new.state ≡ self.old.state) }
        ensures refused { IfRefused result (PutsNone name.now change.entry self.old self.new) }
        ensures marks { OnOk result (PutsMarks name.now change.entry self.old self.new) }
        ensures partial { OnErr result (PutsNoMarks name.now change.entry self.old self.new) }
        ensures uncounted { IfRefused result (λ _. IsQuiet self.old self.new) }
    {
        if self.is_spent() {
            self.world.try_edit(name, change)?;
            return Err(Fault::Plain(Code::Spent));
        }
        let serial = self.serial + 1;
        self.world
            .edit(self.alloc, &mut self.meter, name, change, serial)?;
        self.serial = serial;
        Ok(serial)
    }
}

// Bytes as a string, where they are UTF-8.
fn string_of(bytes: Bytes) -> Option<String>
    ensures some { IfSome result (λ text. string_bytes text ≡ bytes) }
    ensures none { result ≡ None → is_utf8 bytes ≡ false }
{
    match String::from_utf8(bytes.into_vec()) {
        Ok(text) => Some(text),
        Err(_) => None,
    }
}
