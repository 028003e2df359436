//! A file and those beside it, as the system keeps them.
ghost use Rattle.std.specs.Prelude.{List};
ghost use Rattle.org_save.specs.Events.{Event, gave_access, listed, made, removed, renamed, restored, synced, tore};
ghost use Rattle.org_save.specs.Calls.{Adds, AddsEither, Finds, FindsFormer, MayAdd, Writes};

use crate::{Cause, Name};

/// Files of a folder, and all that a replacement asks of the system. Each method is one step: the system does it, or says that
/// it failed. A rename is one step for everybody who looks.
pub trait Store {
    /// What was done so far, the newest first.
    ghost events: { Self → List Event };

    /// Makes a file of that name, empty, where there is none.
    fn make(&mut self, name: Name) -> Result<(), Cause>
        ensures { Adds result (made name) (events self.old) (events self.new) };

    /// Gives a file that was made the owner of the target, who may do with it what he may with that, and nobody else; and makes
    /// that the file that is the target now isn't lost with its name. It is refused where that can't be.
    fn give_access(&mut self, name: Name) -> Result<(), Cause>
        ensures { Adds result (gave_access name) (events self.old) (events self.new) };

    /// Writes bytes at the end of a file that was made. Some of them may stand there where it fails.
    fn write(&mut self, name: Name, bytes: &[u8]) -> Result<(), Cause>
        ensures { Writes result name bytes.now (events self.old) (events self.new) };

    /// Waits until what was written is on the disk. Where it fails, nobody knows what is.
    fn sync(&mut self, name: Name) -> Result<(), Cause>
        ensures { AddsEither result (synced name) (tore name) (events self.old) (events self.new) };

    /// The bytes of a file, whole, as they are now, in place of those that a vector has.
    fn read(&mut self, name: Name, bytes: &mut Vec<u8>) -> Result<(), Cause>
        ensures { Finds result name bytes.new.items (events self.old) (events self.new) };

    /// The bytes that the file has now, whole, which was read last under the target's name, whichever name it has by now.
    fn read_former(&mut self, bytes: &mut Vec<u8>) -> Result<(), Cause>
        ensures { FindsFormer result bytes.new.items (events self.old) (events self.new) };

    /// Puts a file in the place of the other one. It may be done although it seems to have failed.
    fn rename(&mut self, from: Name, to: Name) -> Result<(), Cause>
        ensures { MayAdd result (renamed from to) (events self.old) (events self.new) };

    /// Gives the file that was the target before the one that was read last these bytes, which that one has, and puts it in the
    /// target's place. So all that lets others in is again what it was. It may be done although it seems to have failed.
    fn restore(&mut self, bytes: &[u8]) -> Result<(), Cause>
        ensures { MayAdd result (restored bytes.now) (events self.old) (events self.new) };

    /// Removes a file.
    fn remove(&mut self, name: Name) -> Result<(), Cause>
        ensures { MayAdd result (removed name) (events self.old) (events self.new) };

    /// Waits until the folder's names are on the disk.
    fn sync_folder(&mut self) -> Result<(), Cause>
        ensures { Adds result listed (events self.old) (events self.new) };
}
