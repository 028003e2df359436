//! A change of a text.
ghost use Rattle.std.specs.Prelude.{◌≡◌, string_bytes};

/// A change of a text, lent: the `del` bytes at `at` are replaced by `ins`. Places and lengths count bytes.
#[derive(Clone, Copy, Debug)]
pub struct Change<'a> {
    pub at: u64,
    pub del: u64,
    pub ins: &'a str,
}

/// A change of a text that keeps what it puts in.
#[derive(Debug, Drop)]
pub struct OwnedChange {
    pub at: u64,
    pub del: u64,
    pub ins: String,
}

impl OwnedChange {
    /// The change, lent.
    pub fn lend(&self) -> Change<'_>
        ensures at { result.at ≡ self.now.at }
        ensures del { result.del ≡ self.now.del }
        ensures ins { result.ins.now ≡ string_bytes self.now.ins }
    {
        Change {
            at: self.at,
            del: self.del,
            ins: self.ins.as_str(),
        }
    }
}
