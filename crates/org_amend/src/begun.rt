//! What is written where a clock begins.
ghost use Rattle.std.specs.Prelude.{◌≡◌, ◌≤◌, ◌++◌, IsOkUnless, length};
ghost use Rattle.std.specs.Str.{IsUtf8};
ghost use Rattle.org_amend.specs.Begun.{clock_drawer, clock_line, clock_text, drawer_behind, drawer_lines, first_len, has_return, indent_of, line_break};
ghost use Rattle.org_amend.specs.Clocks.{moment_stamp};
ghost use Rattle.org_base.specs.Codes.{memory_fault};
ghost use Rattle.org_base.specs.Results.{GivesText, Writes};
ghost use Rattle.org_stamp.specs.Print.{stamp_text};

use crate::clock::moment_stamp;
use org_base::Fault;
use org_cal::Moment;
use org_stamp::{leading_spaces, print_stamp};
use std::alloc::{AllocError, Global};
use std::str;

/// How the lines of a section end, as its first one does: with a line feed, or with a carriage return before it.
pub fn line_break(section: &[u8]) -> &'static str
    ensures value { result.now ≡ line_break section.now }
{
    if has_return(section) { "\r\n" } else { "\n" }
}

// Whether a carriage return stands before the end of the first line.
fn has_return(section: &[u8]) -> bool
    ensures value { result ≡ has_return section.now }
{
    let len = first_len(section);
    len > 0 && section[len - 1] == b'\r'
}

// How many bytes stand before the end of the first line.
fn first_len(section: &[u8]) -> usize
    ensures within { result ≤ length section.now }
    ensures value { result ≡ first_len section.now }
{
    section.iter().take_while(|byte| **byte != b'\n').count()
}

/// The line of a clock that begins at a moment. It goes first into a drawer whose opening line is given, and is indented as
/// that is. It is read as a clock that runs since the moment.
pub fn clock_line(
    alloc: Global,
    moment: Moment,
    opening: &[u8],
    line_break: &str,
) -> Result<String, Fault>
    ensures value { GivesText result (clock_line moment opening.now line_break.now) }
    ensures memory { IsOkUnless result memory_fault }
{
    let stamp = moment_text(alloc, moment)?;
    Ok(line_of(alloc, opening, stamp.as_str(), line_break)?)
}

/// A drawer with the line of a clock that begins at a moment. It goes behind a line that is ended, or isn't, as the last one
/// of a file may be; then its own last line isn't either.
pub fn clock_drawer(
    alloc: Global,
    moment: Moment,
    is_ended: bool,
    line_break: &str,
) -> Result<String, Fault>
    ensures value { GivesText result (clock_drawer moment is_ended line_break.now) }
    ensures memory { IsOkUnless result memory_fault }
{
    let stamp = moment_text(alloc, moment)?;
    Ok(drawer_of(alloc, stamp.as_str(), is_ended, line_break)?)
}

// The inactive stamp of a moment.
fn moment_text(alloc: Global, moment: Moment) -> Result<String, Fault>
    ensures value { GivesText result (stamp_text (moment_stamp moment)) }
    ensures memory { IsOkUnless result memory_fault }
{
    print_stamp(alloc, &moment_stamp(moment))
}

// The line of a clock with a stamp, indented as another line is.
fn line_of(
    alloc: Global,
    opening: &[u8],
    stamp: &str,
    line_break: &str,
) -> Result<String, AllocError>
    ensures value { GivesText result (indent_of opening.now ++ clock_text stamp.now line_break.now) }
{
    let mut text = String::new(alloc);
    push_indent(&mut text, opening)?;
    push_clock(&mut text, stamp, line_break)?;
    Ok(text)
}

// A drawer with a clock of a stamp, behind a line that is ended or isn't.
fn drawer_of(
    alloc: Global,
    stamp: &str,
    is_ended: bool,
    line_break: &str,
) -> Result<String, AllocError>
    ensures value { GivesText result (drawer_behind stamp.now is_ended line_break.now) }
{
    let mut text = String::new(alloc);
    if is_ended {
        push_drawer(&mut text, stamp, line_break)?;
        text.push_str(line_break)?;
    } else {
        text.push_str(line_break)?;
        push_drawer(&mut text, stamp, line_break)?;
    }
    Ok(text)
}

// Puts the white space in front of a line at the end.
fn push_indent(text: &mut String, line: &[u8]) -> Result<(), AllocError>
    ensures ok { Writes result text.old text.new (indent_of line.now) }
{
    push_bytes(text, &line[..leading_spaces(line)])
}

// Puts bytes that are text at the end.
fn push_bytes(text: &mut String, bytes: &[u8]) -> Result<(), AllocError>
    requires utf8 { IsUtf8 bytes.now }
    ensures ok { Writes result text.old text.new bytes.now }
{
    match str::from_utf8(bytes) {
        Ok(bytes) => {
            text.push_str(bytes)?;
            Ok(())
        }
        Err(_) => Ok(()),
    }
}

// Puts the line of a clock with a stamp at the end.
fn push_clock(text: &mut String, stamp: &str, line_break: &str) -> Result<(), AllocError>
    ensures ok { Writes result text.old text.new (clock_text stamp.now line_break.now) }
{
    text.push_str("CLOCK: ")?;
    text.push_str(stamp)?;
    text.push_str(line_break)
}

// Puts a drawer with that line at the end; its last line isn't ended.
fn push_drawer(text: &mut String, stamp: &str, line_break: &str) -> Result<(), AllocError>
    ensures ok { Writes result text.old text.new (drawer_lines stamp.now line_break.now) }
{
    text.push_str(":LOGBOOK:")?;
    text.push_str(line_break)?;
    push_clock(text, stamp, line_break)?;
    text.push_str(":END:")
}
