//! Why a file's text wasn't replaced.

use std::io::{self, ErrorKind};

/// Why a call of the system failed, as far as a person can do something about it.
#[derive(Clone, Copy, Debug, PartialEq, Eq)]
pub enum Cause {
    /// A growth was refused.
    Memory,
    /// There is a file of that name.
    Exists,
    /// There is no file of that name.
    Missing,
    /// It isn't allowed, or the file system is read-only.
    Denied,
    /// There is no room on the device, the quota is used up, or the file would be larger than one may be.
    Full,
    /// The file is mounted on its own, so that no other one can take its place.
    Mounted,
    /// A file can't have a second name here, so that what lets others in would be lost with its first.
    Single,
    /// Anything else.
    Other,
}

impl Cause {
    /// The cause that an error of the system stands for.
    pub fn of(error: &io::Error) -> Cause {
        match error.kind() {
            ErrorKind::OutOfMemory => Cause::Memory,
            ErrorKind::AlreadyExists => Cause::Exists,
            ErrorKind::NotFound => Cause::Missing,
            ErrorKind::PermissionDenied | ErrorKind::ReadOnlyFilesystem => Cause::Denied,
            ErrorKind::StorageFull | ErrorKind::QuotaExceeded | ErrorKind::FileTooLarge => {
                Cause::Full
            }
            ErrorKind::ResourceBusy | ErrorKind::CrossesDevices => Cause::Mounted,
            _ => Cause::Other,
        }
    }

    /// The cause that the error of a second name stands for.
    pub fn of_link(error: &io::Error) -> Cause {
        match Cause::of(error) {
            Cause::Denied | Cause::Other => Cause::Single,
            cause => cause,
        }
    }
}

/// A step of a replacement, in their order.
#[derive(Clone, Copy, Debug, PartialEq, Eq)]
pub enum Step {
    /// The temporary file is made.
    Make,
    /// It gets the target's owner, and the target's file a second name.
    Access,
    /// It gets the new text.
    Write,
    /// The new text goes to the disk.
    Sync,
    /// The target is read once more.
    Read,
    /// The temporary file takes the target's place.
    Rename,
}

/// Why a file's text wasn't replaced.
#[derive(Clone, Copy, Debug, PartialEq, Eq)]
pub enum Why {
    /// The target has other bytes than those that the change was made for.
    Changed,
    /// A step failed.
    Failed(Step, Cause),
}

/// Why a file's text wasn't replaced, and what stands beside it.
#[derive(Clone, Copy, Debug, PartialEq, Eq)]
pub struct Unsaved {
    /// Why it wasn't.
    pub why: Why,
    /// Whether the temporary file may still stand there.
    pub left: bool,
}
