//! Exit statuses.
ghost use Rattle.std.specs.Prelude.{◌≡◌};
ghost use Rattle.orgq_messages.specs.Exit.{check_status, is_memory, status_of, unamended_status, unsaved_status, wants_memory};

use org_act::{Refusal, Unamended};
use org_base::{Code, Fault};
use org_save::{Cause, Why};

/// Arguments, the moment or an expression are refused.
pub const BAD_ARGUMENTS: u8 = 2;

/// No heading matches, or several do.
pub const NO_MATCH: u8 = 1;

/// A file can't be read.
pub const LEFT_OUT: u8 = 3;

/// Output failed, or there was no memory.
pub const STOPPED: u8 = 4;

/// Nothing of a file was changed, since it could not be.
pub const UNWRITTEN: u8 = 5;

/// A file was changed, and not all was done, or not all that is said of it could be printed.
pub const UNTOLD: u8 = 6;

/// The status after an answer: 3 where a file was left out, else 0 where there is a row and 1 where there is none.
pub fn status_of(has_row: bool, left_out: bool) -> u8
    ensures value { result ≡ status_of has_row left_out }
{
    if left_out {
        3
    } else if has_row {
        0
    } else {
        1
    }
}

/// The status after a check: 3 where a file was left out, else 0 where nothing was found that counts and 1 where something
/// was.
pub fn check_status(counts: bool, left_out: bool) -> u8
    ensures value { result ≡ check_status counts left_out }
{
    if left_out {
        3
    } else if counts {
        1
    } else {
        0
    }
}

/// The status after an act that wasn't done: 4 for want of memory, 2 where it is refused for the text that stands there, and
/// 5 where the text could not be replaced.
pub fn unamended_status(why: &Unamended) -> u8
    ensures value { result ≡ unamended_status why.now }
{
    match why {
        Unamended::Refused(refusal) if wants_memory(*refusal) => STOPPED,
        Unamended::Refused(_) => BAD_ARGUMENTS,
        Unamended::Unsaved(unsaved) => unsaved_status(unsaved.why),
    }
}

/// The status where a text could not be replaced: 4 for want of memory, 5 else.
pub fn unsaved_status(why: Why) -> u8
    ensures value { result ≡ unsaved_status why }
{
    if is_memory(why) { STOPPED } else { UNWRITTEN }
}

// Whether an act is refused for want of memory.
fn wants_memory(why: Refusal) -> bool
    ensures value { result ≡ wants_memory why }
{
    matches!(why, Refusal::Fault(Fault::Plain(Code::Memory)))
}

// Whether memory was refused to a step.
fn is_memory(why: Why) -> bool
    ensures value { result ≡ is_memory why }
{
    matches!(why, Why::Failed(_, Cause::Memory))
}
