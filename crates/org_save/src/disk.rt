//! Files of the system.
ghost use Rattle.std.specs.Prelude.{◌<ℤ◌, ◌≡◌, pos, IfOk};
ghost use Rattle.std.specs.Fd.{file_raw_fd};

use crate::{Access, Cause, Name, Record, Store, open_apart};
use std::fs::{File, OpenFile, OpenOptions};
use std::io::{ErrorKind, Read, Seek, Write};
use std::os::unix::fs::{MetadataExt, OpenOptionsExt};
use std::rt::Files;
use std::{fs, io};

/// The paths of a replacement, without links in them.
#[derive(Debug, Drop)]
pub struct Paths {
    /// The file whose text is replaced.
    pub target: String,
    /// The temporary file in its folder.
    pub temporary: String,
    /// The second name of the file that is the target, until it takes its place again.
    pub second: String,
    /// The path of the file that keeps what another program wrote meanwhile, but for its last digit, from 1 to 9.
    pub rescue: String,
    /// The folder.
    pub folder: String,
}

/// A file of the system, and those beside it.
#[derive(Drop)]
pub struct Disk<'a, R: Files<File = File>> {
    rt: &'a R,
    paths: Paths,
    access: Access,
    // Whether the new text is to have this access, in place of all that lets others in now.
    is_narrowed: bool,
    // The file that was read last as the target, and the one before it.
    former: Option<File>,
    first: Option<File>,
    // Whether the target has its second name.
    has_second: bool,
    // The temporary file and the one that keeps what was found, once they are made.
    temporary: Option<File>,
    rescue: Option<File>,
    record: Record,
}

// Who may read a file that was made and has no other access yet: its owner.
const PRIVATE: u32 = 0o600;

// The last digits of files that keep what was found.
const DIGITS: &str = "123456789";

// Whether a path leads to an open file, which is no link.
fn is_at<R: Files<File = File>>(rt: &R, file: &File, path: &str) -> io::Result<bool> {
    let (here, there) = (file.metadata()?, fs::symlink_metadata(rt, path)?);
    Ok(here.dev() == there.dev() && here.ino() == there.ino())
}

// What a call of the system answered.
fn answer<T: Drop>(answered: io::Result<T>) -> Result<T, Cause> {
    match answered {
        Ok(value) => Ok(value),
        Err(error) => Err(Cause::of(&error)),
    }
}

fn made_at<R: Files<File = File>>(rt: &R, path: &str) -> io::Result<File>
    ensures apart { IfOk result (λ file. pos 2 <ℤ file_raw_fd file) }
{
    let mut options = OpenOptions::new();
    options
        .read(true)
        .write(true)
        .create_new(true)
        .mode(PRIVATE);
    open_apart(rt, &options, path)
}

// Makes the first file that isn't there of those whose paths have one digit more. The path has that then.
fn rescue_at<R: Files<File = File>>(rt: &R, path: &mut String) -> io::Result<File>
    ensures apart { IfOk result (λ file. pos 2 <ℤ file_raw_fd file) }
{
    for digit in DIGITS.chars() {
        path.push(digit)?;
        match made_at(rt, path.as_str()) {
            Err(error) if error.kind() == ErrorKind::AlreadyExists => {
                let _ = path.pop();
            }
            made => return made,
        }
    }
    Err(io::Error::from(ErrorKind::AlreadyExists))
}

// Opens a file that is there for reading and writing: so one that is a pipe by now isn't waited for.
fn opened_at<R: Files<File = File>>(rt: &R, path: &str) -> io::Result<File>
    ensures apart { IfOk result (λ file. pos 2 <ℤ file_raw_fd file) }
{
    let mut options = OpenOptions::new();
    options.read(true).write(true);
    open_apart(rt, &options, path)
}

impl<'a, R: Files<File = File>> Disk<'a, R> {
    /// The file with these paths, which has this access.
    pub fn new(rt: &'a R, paths: Paths, access: Access) -> Self {
        Disk {
            rt,
            paths,
            access,
            is_narrowed: false,
            former: None,
            first: None,
            has_second: false,
            temporary: None,
            rescue: None,
            record: Record::new(),
        }
    }

    /// Takes all bits of the group and of all others that aren't among these from what the new text gets. Where none are taken,
    /// the file stays what it is.
    pub fn narrow(&mut self, bits: u32) {
        let narrowed = self.access.within(bits);
        self.is_narrowed = self.is_narrowed || narrowed != self.access;
        self.access = narrowed;
    }

    /// Whether the new text gets less than what the file lets others do now.
    pub fn is_narrowed(&self) -> bool {
        self.is_narrowed
    }

    /// The path of the file that keeps what another program wrote, if it was made.
    pub fn rescue(&self) -> Option<&str> {
        match &self.rescue {
            Some(_) => Some(self.paths.rescue.as_str()),
            None => None,
        }
    }

    // The path of a file that has one.
    fn path(&self, name: Name) -> Result<&str, Cause> {
        match name {
            Name::Target => Ok(self.paths.target.as_str()),
            Name::Temporary => Ok(self.paths.temporary.as_str()),
            Name::Rescue => self.rescue().ok_or(Cause::Missing),
        }
    }

    // The open file of that name, if it was made.
    fn open_file(&self, name: Name) -> Result<&File, Cause> {
        match (name, &self.temporary, &self.rescue) {
            (Name::Temporary, Some(file), _) => Ok(file),
            (Name::Rescue, _, Some(file)) => Ok(file),
            _ => Err(Cause::Missing),
        }
    }

    fn write_to(&self, name: Name, bytes: &[u8]) -> Result<(), Cause> {
        let mut file = self.open_file(name)?;
        answer(file.write_all(bytes))
    }

    fn sync_file(&self, name: Name) -> Result<(), Cause> {
        answer(self.open_file(name)?.sync_all())
    }

    // Reads the bytes of a file in place of those that a vector has, and gives the file.
    fn read_from(&self, name: Name, bytes: &mut Vec<u8>) -> Result<File, Cause> {
        let mut file = answer(opened_at(self.rt, self.path(name)?))?;
        bytes.clear();
        answer(file.read_to_end(bytes))?;
        Ok(file)
    }

    // Reads the bytes of the former target from its beginning on.
    fn read_again(&self, bytes: &mut Vec<u8>) -> Result<(), Cause> {
        let mut file = self.former.as_ref().ok_or(Cause::Missing)?;
        bytes.clear();
        answer(file.rewind())?;
        answer(file.read_to_end(bytes))?;
        Ok(())
    }

    // Gives a file that was made the target's owner, who alone may read and write it, and the target's file a second name. Where
    // it can have none, as on a file system that knows no such names, others may be let in only by what all files there have.
    fn give_owner(&mut self, name: Name) -> Result<(), Cause>
        ensures { self.new.record ≡ self.old.record }
    {
        if self.is_narrowed {
            return answer(self.access.give_to(self.open_file(name)?));
        }
        answer(self.access.give_owner_to(self.open_file(name)?))?;
        match fs::hard_link(
            self.rt,
            self.paths.target.as_str(),
            self.paths.second.as_str(),
        ) {
            Ok(()) => self.has_second = true,
            Err(error) => {
                let made = answer(self.open_file(name)?.metadata())?;
                if Access::of(&made) != self.access {
                    return Err(Cause::of_link(&error));
                }
            }
        }
        Ok(())
    }

    // Gives the file that was read as the target before the last one these bytes, and puts it in the target's place.
    fn put_back(&mut self, bytes: &[u8]) -> Result<(), Cause>
        ensures { self.new.record ≡ self.old.record }
    {
        if !self.has_second {
            // The temporary file lets in whom that one lets in.
            return if self.is_narrowed {
                Err(Cause::Other)
            } else {
                Ok(())
            };
        }
        let put = self.put_second(bytes);
        match put {
            Ok(()) => self.has_second = false,
            // What has part of them is no use to anybody.
            Err(_) => {
                let _ = self.remove_second();
            }
        }
        put
    }

    // The same where it has a second name.
    fn put_second(&self, bytes: &[u8]) -> Result<(), Cause> {
        let (target, second) = (self.paths.target.as_str(), self.paths.second.as_str());
        let mut file = self.first.as_ref().ok_or(Cause::Missing)?;
        if !answer(is_at(self.rt, file, second))? {
            return Err(Cause::Missing);
        }
        answer(file.rewind())?;
        answer(file.write_all(bytes))?;
        answer(file.set_len(bytes.len() as u64))?;
        answer(file.sync_all())?;
        answer(fs::rename(self.rt, second, target))
    }

    // Removes the second name where the file has it still.
    fn remove_second(&mut self) -> Result<(), Cause>
        ensures { self.new.record ≡ self.old.record }
    {
        if self.has_second {
            answer(fs::remove_file(self.rt, self.paths.second.as_str()))?;
            self.has_second = false;
        }
        Ok(())
    }

    fn make_file(&mut self, name: Name) -> Result<(), Cause>
        ensures { self.new.record ≡ self.old.record }
    {
        match name {
            Name::Target => return Err(Cause::Exists),
            Name::Temporary => {
                let file = answer(made_at(self.rt, self.paths.temporary.as_str()))?;
                // Who finds it under the target's name waits until all is done.
                let _ = file.try_lock();
                self.temporary = Some(file);
            }
            Name::Rescue => {
                self.rescue = Some(answer(rescue_at(self.rt, &mut self.paths.rescue))?);
            }
        }
        Ok(())
    }
}

impl<'a, R: Files<File = File>> Store for Disk<'a, R> {
    ghost events = { λ d. d.record.events };

    fn make(&mut self, name: Name) -> Result<(), Cause> {
        self.make_file(name)?;
        self.record.note_made(name);
        Ok(())
    }

    fn give_access(&mut self, name: Name) -> Result<(), Cause> {
        self.give_owner(name)?;
        self.record.note_gave_access(name);
        Ok(())
    }

    fn write(&mut self, name: Name, bytes: &[u8]) -> Result<(), Cause> {
        let answer = self.write_to(name, bytes);
        match answer {
            Ok(()) => self.record.note_wrote(name, bytes),
            Err(_) => self.record.note_tore(name),
        }
        answer
    }

    fn sync(&mut self, name: Name) -> Result<(), Cause> {
        let answer = self.sync_file(name);
        match answer {
            Ok(()) => self.record.note_synced(name),
            Err(_) => self.record.note_tore(name),
        }
        answer
    }

    fn read(&mut self, name: Name, bytes: &mut Vec<u8>) -> Result<(), Cause> {
        let file = self.read_from(name, bytes)?;
        if name == Name::Target {
            self.first = self.former.take();
            self.former = Some(file);
        }
        self.record.note_found(name, bytes);
        Ok(())
    }

    fn read_former(&mut self, bytes: &mut Vec<u8>) -> Result<(), Cause> {
        self.read_again(bytes)?;
        self.record.note_found_former(bytes);
        Ok(())
    }

    fn restore(&mut self, bytes: &[u8]) -> Result<(), Cause> {
        self.put_back(bytes)?;
        self.record.note_restored(bytes);
        Ok(())
    }

    fn rename(&mut self, from: Name, to: Name) -> Result<(), Cause> {
        answer(fs::rename(self.rt, self.path(from)?, self.path(to)?))?;
        self.record.note_renamed(from, to);
        Ok(())
    }

    fn remove(&mut self, name: Name) -> Result<(), Cause> {
        self.remove_second()?;
        answer(fs::remove_file(self.rt, self.path(name)?))?;
        self.record.note_removed(name);
        Ok(())
    }

    fn sync_folder(&mut self) -> Result<(), Cause> {
        self.remove_second()?;
        let folder = answer(fs::open(self.rt, self.paths.folder.as_str()))?;
        answer(folder.sync_all())?;
        self.record.note_listed();
        Ok(())
    }
}
