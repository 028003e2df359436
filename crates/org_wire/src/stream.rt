//! A run over a whole stream.
ghost use Rattle.std.specs.Prelude.{◌≡◌, ◌≤◌, true, false, ◌≢◌};
ghost use Rattle.org_base.specs.Codes.{code_of};
ghost use Rattle.org_wire.specs.Counting.{CountsAlong};
ghost use Rattle.org_wire.specs.declared.input.TheConstants.{MOST_READS};
ghost use Rattle.org_wire.specs.Devices.{StaysBounded, IsAnyBroken};
ghost use Rattle.org_wire.specs.Input.{left, held};
ghost use Rattle.org_wire.specs.Replies.{CountsWrite, fault_bytes, reply_bytes, BreaksOff, WritesTo, device_fault};
ghost use Rattle.org_wire.specs.Run.{AnswersAllSpelled, AreUntouched, IsSpelledRun, broken, unbegun};
ghost use Rattle.org_wire.specs.Stream.{is_second};
ghost use Rattle.org_wire.specs.Turns.{AnswersAllRead, EndsAt, IsReadRun};

use crate::command::Next;
use crate::counted::Counted;
use crate::input::Input;
use crate::line::LineBuffer;
use crate::next::read_command;
use crate::protocol::Protocol;
use crate::read_buffer::{MOST_ROOM, ReadBuffer};
use crate::reply::{Reply, write_reply};
use crate::serve::{serve, work};
use org_base::{Code, Fault};
use org_engine::Engine;
use org_text::Text;
use std::alloc::Global;
use std::io::{Read, Write};

/// How a run ends.
#[derive(Clone, Copy, Debug, PartialEq, Eq)]
pub enum End {
    /// The stream ended after its last command.
    Done,
    /// `Memory`: there was none to begin with, and nothing was read or written. `Size` or `Cut`: the stream couldn't be
    /// read on, which the last reply says. `Device`: a call on the reader or the writer failed, or 2^40 reads were made.
    Stopped(Code),
}

/// What a run does beside answering commands, and what it speaks.
#[derive(Clone, Copy, Debug, PartialEq, Eq)]
pub struct Options {
    /// Background steps after each command.
    pub idle: u64,
    /// What is spoken on the stream.
    pub protocol: Protocol,
}

/// Answers the commands of a stream, one after another, and flushes after each reply. After each command it makes up to
/// `idle` background steps, which show in no reply.
///
/// Where the reader and the writer tell their bytes, the writer holds what it held and then the replies to the commands,
/// in order; the engine's state is the one that these commands leave. A reply may be `err 1 memory` instead; then its
/// command changed nothing. After a failed call all replies but the last are written whole, and the last perhaps cut.
/// Where it was no call of the writer, all commands are answered that are whole in the bytes that were taken. What a run
/// counts beside that is said of [`run_counted`], which this is.
pub fn run<R: Read, W: Write, T: Text>(
    alloc: Global,
    reader: &mut Counted<R>,
    writer: &mut Counted<W>,
    engine: &mut Engine<T>,
    options: Options,
) -> End
    requires reads { (reader.old.calls ≡ 0) × (reader.old.failed ≡ 0) }
    requires writes { (writer.old.calls ≡ 0) × (writer.old.failed ≡ 0) }
    ensures value { result ≢ unbegun → IsSpelledRun (is_second options.protocol) W.contents (R.remaining reader.old.inner)
        writer.old engine.old result writer.new engine.new }
    ensures taken { result ≡ broken → writer.new.failed ≡ 0 →
        AnswersAllSpelled (is_second options.protocol) W.contents (R.remaining reader.old.inner) writer.old engine.old
        (R.remaining reader.new.inner) writer.new engine.new }
    ensures memory { result ≡ unbegun → AreUntouched reader.old reader.new writer.old writer.new engine.old engine.new }
    ensures device { result ≡ broken → IsAnyBroken reader.new writer.new }
    ensures fine { result ≢ broken → (reader.new.failed ≡ 0) × (writer.new.failed ≡ 0) }
    ensures flushed { result ≢ broken → writer.old.is_flushed ≡ true → writer.new.is_flushed ≡ true }
    ensures bounded { reader.new.calls ≤ MOST_READS }
{
    run_counted(alloc, reader, writer, engine, options)
}

/// The same run, with what it counts: each command counts no more sections than it may, a refused line none, and each
/// background step one.
pub fn run_counted<R: Read, W: Write, T: Text>(
    alloc: Global,
    reader: &mut Counted<R>,
    writer: &mut Counted<W>,
    engine: &mut Engine<T>,
    options: Options,
) -> End
    requires reads { (reader.old.calls ≡ 0) × (reader.old.failed ≡ 0) }
    requires writes { (writer.old.calls ≡ 0) × (writer.old.failed ≡ 0) }
    ensures value { result ≢ unbegun → IsReadRun (is_second options.protocol) W.contents (R.remaining reader.old.inner)
        writer.old engine.old result writer.new engine.new }
    ensures taken { result ≡ broken → writer.new.failed ≡ 0 →
        AnswersAllRead (is_second options.protocol) W.contents (R.remaining reader.old.inner) writer.old engine.old
        (R.remaining reader.new.inner) writer.new engine.new }
    ensures counts { result ≢ unbegun →
        CountsAlong options.idle (is_second options.protocol) (R.remaining reader.old.inner) engine.old engine.new }
    ensures memory { result ≡ unbegun → AreUntouched reader.old reader.new writer.old writer.new engine.old engine.new }
    ensures device { result ≡ broken → IsAnyBroken reader.new writer.new }
    ensures fine { result ≢ broken → (reader.new.failed ≡ 0) × (writer.new.failed ≡ 0) }
    ensures flushed { result ≢ broken → writer.old.is_flushed ≡ true → writer.new.is_flushed ≡ true }
    ensures bounded { reader.new.calls ≤ MOST_READS }
{
    let Ok(line) = LineBuffer::new(alloc) else {
        return End::Stopped(Code::Memory);
    };
    let Ok(room) = ReadBuffer::new(alloc, MOST_ROOM) else {
        return End::Stopped(Code::Memory);
    };
    let mut input = Input::over(alloc, reader, line, room, options.protocol);
    let end = run_over(&mut input, writer, engine, options.idle);
    // No effect at run time: what the reader holds is known to the proof from this use on.
    let reader = input.into_reader();
    let _ = &*reader;
    end
}

// Answers the commands of an input.
fn run_over<R: Read, W: Write, T: Text>(
    input: &mut Input<'_, R>,
    writer: &mut Counted<W>,
    engine: &mut Engine<T>,
    idle: u64,
) -> End
    requires reads { input.old.reader.now.failed ≡ 0 }
    requires writes { writer.old.failed ≡ 0 }
    ensures value { IsReadRun input.old.second W.contents (left R.remaining input.old)
        writer.old engine.old result writer.new engine.new }
    ensures taken { result ≡ broken → writer.new.failed ≡ 0 →
        AnswersAllRead input.old.second W.contents (left R.remaining input.old) writer.old engine.old
        (held R.remaining input.new) writer.new engine.new }
    ensures counts { CountsAlong idle input.old.second (left R.remaining input.old) engine.old engine.new }
    ensures no_memory { result ≢ unbegun }
    ensures device { result ≡ broken → IsAnyBroken input.new.reader.now writer.new }
    ensures fine { result ≢ broken → (input.new.reader.now.failed ≡ 0) × (writer.new.failed ≡ 0) }
    ensures flushed { result ≢ broken → writer.old.is_flushed ≡ true → writer.new.is_flushed ≡ true }
    ensures bounded { StaysBounded input.old.reader.now.calls input.new.reader.now.calls }
    ensures same_protocol { input.new.second ≡ input.old.second }
    ensures same_reference { input.new.reader.ghost_name ≡ input.old.reader.ghost_name }
{
    let second = input.is_second();
    'turns: loop {
        let reply = match read_command(input) {
            Next::Ended => return End::Done,
            Next::Last(fault) => {
                if is_device(fault) {
                    return End::Stopped(Code::Device);
                }
                return stop(writer, fault);
            }
            Next::Refused(fault) => Reply::Refused(fault),
            Next::Given(command) => serve(engine, command, second),
        };
        if !send(writer, reply) {
            return End::Stopped(Code::Device);
        }
        work(engine, idle);
    }
}

// Writes the fault at which the stream stops, which is none of a device.
fn stop<W: Write>(writer: &mut Counted<W>, fault: Fault) -> End
    requires not_failed { writer.old.failed ≡ 0 }
    requires no_memory { code_of fault ≢ Code.Memory }
    requires no_device { fault ≢ device_fault }
    ensures no_memory { result ≢ unbegun }
    ensures done { result ≢ broken → EndsAt W.contents fault writer.old result writer.new }
    ensures flushed { result ≢ broken → writer.new.is_flushed ≡ true }
    ensures device { result ≡ broken → BreaksOff W.contents writer.old writer.new (fault_bytes fault) }
{
    match write_reply(writer, &Reply::Refused(fault)) {
        Ok(()) => End::Stopped(fault.code()),
        Err(_) => End::Stopped(Code::Device),
    }
}

// Writes a reply and lets it go.
fn send<W: Write>(writer: &mut Counted<W>, reply: Reply) -> bool
    requires not_failed { writer.old.failed ≡ 0 }
    ensures value { WritesTo W.contents writer.old result writer.new (reply_bytes reply) }
    ensures counted { CountsWrite result writer.old.failed writer.new.failed }
    ensures flushed { result ≡ true → writer.new.is_flushed ≡ true }
{
    write_reply(writer, &reply).is_ok()
}

fn is_device(fault: Fault) -> bool
    ensures yes { result ≡ true → fault ≡ device_fault }
    ensures no { result ≡ false → fault ≢ device_fault }
{
    matches!(fault, Fault::Plain(Code::Device))
}
