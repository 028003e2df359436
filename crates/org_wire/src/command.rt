//! The commands of a stream.
ghost use Rattle.std.specs.Prelude.{◌≡◌};
ghost use Rattle.org_wire.specs.Stream.{command_of_frame};

use crate::line_text::LineText;
use org_base::{Bytes, Fault, Profile, Texts, Word};
use org_cal::Moment;
use org_engine::Form;

/// What a session saw of a file before it changes it: the file's name, and the serial of its text.
#[derive(Debug, Drop)]
pub struct BaseVersion {
    /// The session's number.
    pub session: u64,
    /// The file's name.
    pub name: Word,
    /// The serial that the file had.
    pub serial: u64,
}

/// How a view is asked for.
#[derive(Clone, Copy, Debug, PartialEq, Eq)]
pub struct Request {
    /// The session whose world is asked, where it is one that a session keeps: `pinned S` in front.
    pub session: Option<u64>,
    /// Its text, or by `places` in front where each line of that leads.
    pub form: Form,
}

/// A command, one variant for each line that is one.
#[derive(Debug, Drop)]
pub enum Command {
    /// `add NAME LEN`, with its payload: adds a file.
    Add(Word, Bytes),
    /// `drop NAME`: takes a file out.
    Drop(Word),
    /// `edit S NAME SERIAL AT DEL LEN`, with its payload: replaces so many bytes at a place by the payload.
    Edit(BaseVersion, u64, u64, Bytes),
    /// `complete S NAME SERIAL LINE KEYWORD`: completes the heading on a line.
    Complete(BaseVersion, u64, Word),
    /// `inherit NAME ..`: names the properties that headings inherit; none without a name.
    Inherit(Texts),
    /// `at DATE TIME`: asks for views at another moment from now on; None where these spell none.
    At(Option<Moment>),
    /// `profile 1` or `profile 2`: follows a profile in agendas from now on.
    Profile(Profile),
    /// `pin S`: keeps the world for a session.
    Pin(u64),
    /// `unpin S`: lets go of what a session keeps.
    Unpin(u64),
    /// `text NAME`: asks for a file's text.
    Text(Word),
    /// `keywords NAME`, of the second protocol: asks for a file's keywords.
    Keywords(Word),
    /// `version`, of the second protocol: asks for the program's name, version and protocol.
    Version,
    /// `todo` or `todo KW|KW`, perhaps with `file=NAME` in front: asks for the TODO list of these keywords; of none, of those
    /// that aren't done.
    Todo(Request, Option<Word>, Texts),
    /// `match EXPR`: asks for the match list of an expression, which is the rest of the line and may be empty.
    Match(Request, Option<Word>, LineText),
    /// `agenda DATE DAYS`: asks for the agenda of so many days from a date on.
    Agenda(Request, Word, u64),
    /// `clock OPTIONS`: asks for the clock table of options, which are the rest of the line and may be empty.
    Clock(Request, LineText),
}

// What the line of a command with a payload says.
#[derive(Drop)]
pub(crate) enum PayloadHeader {
    Add(Word),
    Edit(BaseVersion, u64, u64),
}

// The command of a frame and its payload.
pub(crate) fn command_of_frame(frame: PayloadHeader, bytes: Bytes) -> Command
    ensures value { result ≡ command_of_frame frame bytes }
{
    match frame {
        PayloadHeader::Add(name) => Command::Add(name, bytes),
        PayloadHeader::Edit(seen, at, del) => Command::Edit(seen, at, del, bytes),
    }
}

/// What comes next on a stream.
#[derive(Debug, Drop)]
pub enum Next {
    /// A command, with its payload.
    Given(Command),
    /// A line that is no command, or a command that found no memory. The stream goes on after it.
    Refused(Fault),
    /// The stream can't be read on: `Size` for a payload that is announced too long, `Cut` where the stream ends inside a
    /// line or a payload, `Device` where a read failed or there were 2^40 of them.
    Last(Fault),
    /// The stream ended.
    Ended,
}
