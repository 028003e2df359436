//! What a replacement that was made says.

/// What another program, one that knows no lock, did to the file while it was replaced.
#[derive(Clone, Copy, Debug, PartialEq, Eq)]
pub enum Meanwhile {
    /// Nothing: after the replacement the former file still had the old text.
    Nothing,
    /// It wrote into the former file. What that has now stands in the file of the name `Rescue`, on the disk.
    Rescued,
    /// It wrote into the former file, and what that has could not be kept, or not whole.
    Lost,
    /// The former file could not be read once more.
    Unknown,
}

/// A replacement that was made.
#[derive(Clone, Copy, Debug, PartialEq, Eq)]
pub struct Saved {
    /// Whether the new text has its name on the disk too. Where it hasn't, whoever looks finds the new text, and after a loss
    /// of power it may be the old one again.
    pub durable: bool,
    /// What another program did meanwhile.
    pub meanwhile: Meanwhile,
    /// Whether the file is again the one that it was, with all that lets others read and write it, and what another program
    /// did to the file that had its name until then. Where it isn't, its owner alone may read and write it.
    pub restored: Option<Meanwhile>,
}
