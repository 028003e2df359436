//! Who may read and write a file.

use std::fs::{File, Metadata, OpenFile, Permissions};
use std::io;
use std::os::unix::fs::{MetadataExt, PermissionsExt, fchown};

/// The owner, the group and the mode of a file. Access lists and other attributes are none of them: where a file has a list, the
/// group's bits of its mode are the list's and not the group's. So a file that is made gets the owner's bits alone, which let in
/// the owner whatever lists the old file and the folder have.
#[derive(Clone, Copy, Debug, PartialEq, Eq)]
pub struct Access {
    owner: u32,
    group: u32,
    mode: u32,
}

// The bits of the owner.
const OWNERS: u32 = 0o700;

// The bits of the group and of all others.
const OTHERS: u32 = 0o077;

// The bits of all others.
const ALL_OTHERS: u32 = 0o007;

impl Access {
    /// That of a file.
    pub fn of(metadata: &Metadata) -> Access {
        Access {
            owner: metadata.uid(),
            group: metadata.gid(),
            mode: metadata.mode() & 0o7777,
        }
    }

    /// The bits that the group and all others may have of a file that is made of this one, whose group may be another one: those
    /// that both have here.
    pub fn shared_bits(self) -> u32 {
        let both = self.mode >> 3 & self.mode & ALL_OTHERS;
        both << 3 | both
    }

    /// The same, but for bits of the group and of all others that aren't among these.
    pub fn within(self, bits: u32) -> Access {
        Access {
            mode: self.mode & (!OTHERS | bits),
            ..self
        }
    }

    /// Gives an open file the owner, who may do with it what he may by this, and nobody else. It fails where the owner is another
    /// one and this process may not set it.
    pub fn give_owner_to(self, file: &File) -> io::Result<()> {
        let has = Access::of(&file.metadata()?);
        if has.owner != self.owner {
            fchown(file, Some(self.owner), Some(self.group))?;
        }
        file.set_permissions(Permissions::from_mode(self.mode & OWNERS))
    }

    /// Gives it to an open file. It fails where the owner or the group isn't the file's and this process may not set it; what
    /// was set until then stays.
    pub fn give_to(self, file: &File) -> io::Result<()> {
        let has = Access::of(&file.metadata()?);
        if has.owner != self.owner || has.group != self.group {
            fchown(file, Some(self.owner), Some(self.group))?;
        }
        // After the change of the owner, which takes bits of the mode away.
        file.set_permissions(Permissions::from_mode(self.mode))
    }
}
