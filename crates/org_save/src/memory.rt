//! Files in memory, for tests.
ghost use Rattle.std.specs.Prelude.{◌≡◌};

use crate::{Cause, Name, Record, Store};
use std::alloc::Global;

/// Files in memory, whose calls are counted, and of which one fails. A write that fails leaves half of its bytes. Another
/// program may write at the end of the target between the last read and the rename.
#[derive(Drop)]
pub struct Memory {
    alloc: Global,
    target: Option<Vec<u8>>,
    temporary: Option<Vec<u8>>,
    rescue: Option<Vec<u8>>,
    former: Option<Vec<u8>>,
    foreign: Vec<u8>,
    calls: u64,
    failing: u64,
    record: Record,
}

impl Memory {
    /// A target with these bytes and nothing beside it. The call of the number `failing` fails; the first is 1. Another program
    /// writes the bytes `foreign` right before the rename.
    pub fn new(alloc: Global, target: Vec<u8>, failing: u64, foreign: Vec<u8>) -> Memory {
        Memory {
            alloc,
            target: Some(target),
            temporary: None,
            rescue: None,
            former: None,
            foreign,
            calls: 0,
            failing,
            record: Record::new(),
        }
    }

    /// The bytes of a file, if it is there.
    pub fn file(&self, name: Name) -> Option<&[u8]> {
        match name {
            Name::Target => self.target.as_deref(),
            Name::Temporary => self.temporary.as_deref(),
            Name::Rescue => self.rescue.as_deref(),
        }
    }

    /// How many calls there were.
    pub fn calls(&self) -> u64 {
        self.calls
    }

    fn set(&mut self, name: Name, content: Option<Vec<u8>>)
        ensures { self.new.record ≡ self.old.record }
    {
        match name {
            Name::Target => self.target = content,
            Name::Temporary => self.temporary = content,
            Name::Rescue => self.rescue = content,
        }
    }

    // The content of a file, which is gone then.
    fn take(&mut self, name: Name) -> Result<Vec<u8>, Cause>
        ensures { self.new.record ≡ self.old.record }
    {
        let content = match name {
            Name::Target => self.target.take(),
            Name::Temporary => self.temporary.take(),
            Name::Rescue => self.rescue.take(),
        };
        content.ok_or(Cause::Missing)
    }

    // What another program writes, and the file of that name is the former one then.
    fn replace_former(&mut self, name: Name)
        ensures { self.new.record ≡ self.old.record }
    {
        if let Ok(mut former) = self.take(name) {
            let _ = former.extend_from_slice(&self.foreign);
            self.former = Some(former);
        }
    }

    // Counts a call, and fails where it is to.
    fn count(&mut self) -> Result<(), Cause>
        ensures { self.new.record ≡ self.old.record }
    {
        self.calls = self.calls.wrapping_add(1);
        if self.calls == self.failing {
            Err(Cause::Other)
        } else {
            Ok(())
        }
    }

    // Puts bytes at the end of a file.
    fn append(&mut self, name: Name, bytes: &[u8]) -> Result<(), Cause>
        ensures { self.new.record ≡ self.old.record }
    {
        let mut content = self.take(name)?;
        let added = content.extend_from_slice(bytes);
        self.set(name, Some(content));
        match added {
            Ok(()) => Ok(()),
            Err(_) => Err(Cause::Memory),
        }
    }
}

// Puts the bytes of a file, if it is there, in place of those that a vector has.
fn copy_into(content: Option<&[u8]>, bytes: &mut Vec<u8>) -> Result<(), Cause> {
    let content = content.ok_or(Cause::Missing)?;
    bytes.clear();
    match bytes.extend_from_slice(content) {
        Ok(()) => Ok(()),
        Err(_) => Err(Cause::Memory),
    }
}

impl Store for Memory {
    ghost events = { λ m. m.record.events };

    fn make(&mut self, name: Name) -> Result<(), Cause> {
        self.count()?;
        if self.file(name).is_some() {
            return Err(Cause::Exists);
        }
        self.set(name, Some(Vec::new(self.alloc)));
        self.record.note_made(name);
        Ok(())
    }

    fn give_access(&mut self, name: Name) -> Result<(), Cause> {
        self.count()?;
        self.record.note_gave_access(name);
        Ok(())
    }

    fn write(&mut self, name: Name, bytes: &[u8]) -> Result<(), Cause> {
        if let Err(cause) = self.count() {
            let _ = self.append(name, &bytes[..bytes.len() / 2]);
            self.record.note_tore(name);
            return Err(cause);
        }
        if let Err(cause) = self.append(name, bytes) {
            self.record.note_tore(name);
            return Err(cause);
        }
        self.record.note_wrote(name, bytes);
        Ok(())
    }

    fn sync(&mut self, name: Name) -> Result<(), Cause> {
        if let Err(cause) = self.count() {
            self.record.note_tore(name);
            return Err(cause);
        }
        self.record.note_synced(name);
        Ok(())
    }

    fn read(&mut self, name: Name, bytes: &mut Vec<u8>) -> Result<(), Cause> {
        self.count()?;
        copy_into(self.file(name), bytes)?;
        self.record.note_found(name, bytes);
        Ok(())
    }

    fn read_former(&mut self, bytes: &mut Vec<u8>) -> Result<(), Cause> {
        self.count()?;
        copy_into(self.former.as_deref(), bytes)?;
        self.record.note_found_former(bytes);
        Ok(())
    }

    fn restore(&mut self, bytes: &[u8]) -> Result<(), Cause> {
        self.count()?;
        let mut content = Vec::new(self.alloc);
        copy_into(Some(bytes), &mut content)?;
        self.former = self.target.take();
        self.target = Some(content);
        self.record.note_restored(bytes);
        Ok(())
    }

    fn rename(&mut self, from: Name, to: Name) -> Result<(), Cause> {
        self.count()?;
        let content = self.take(from)?;
        self.replace_former(to);
        self.set(to, Some(content));
        self.record.note_renamed(from, to);
        Ok(())
    }

    fn remove(&mut self, name: Name) -> Result<(), Cause> {
        self.count()?;
        let _content = self.take(name)?;
        self.record.note_removed(name);
        Ok(())
    }

    fn sync_folder(&mut self) -> Result<(), Cause> {
        self.count()?;
        self.record.note_listed();
        Ok(())
    }
}
