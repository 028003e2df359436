//! What is spoken on a stream.
ghost use Rattle.std.specs.Prelude.{◌≡◌};
ghost use Rattle.org_wire.specs.Stream.{is_second};

/// What is spoken on a stream.
#[derive(Clone, Copy, Debug, PartialEq, Eq)]
pub enum Protocol {
    /// The commands and replies that each host knows.
    First,
    /// Besides, for hosts that ask for it: `places` in front of questions, `keywords NAME`, `version`, and the reply to a
    /// completion that says what it replaced. In the first protocol such lines are no commands.
    Second,
}

impl Protocol {
    // Whether it is the second one.
    pub(crate) fn is_second(self) -> bool
        ensures value { result ≡ is_second self }
    {
        matches!(self, Protocol::Second)
    }
}
