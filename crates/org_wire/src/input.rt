//! What is read of a stream.
ghost use Rattle.std.specs.Prelude.{◌≡◌, ◌<◌, ◌≤◌, [], ◌∷◌, ◌++◌, true, IfOk, IfErr, OnOk, Err, nat_le, IsOkUnless, length};
ghost use Rattle.org_base.specs.Codes.{memory_fault};

use crate::command::{Next, PayloadHeader, command_of_frame};
use crate::counted::Counted;
use crate::frames::{add_frame, command_of, edit_frame};
use crate::line::LineBuffer;
use crate::parse::parse_line;
use crate::parsed::ParsedLine;
use crate::protocol::Protocol;
use crate::read_buffer::{MOST_ROOM, ReadBuffer};
use org_base::{Bytes, Code, Fault};
use org_text::MAX_BYTES;
use std::alloc::Global;
use std::io::Read;
use std::marker::Model;

// The most reads of a run.
const MOST_READS: u64 = 1_099_511_627_776;

// Why nothing more came.
#[derive(Clone, Copy)]
pub(crate) enum Stop {
    // The stream's end.
    End,
    // A failed read.
    Failed,
}

// What ended a line.
#[derive(Clone, Copy)]
pub(crate) enum LineEnd {
    // Its LF.
    Whole,
    // Its LF, after more bytes than a line may have.
    Long,
}

/// A stream over a reader that it lends, with room for a line and for bytes that were read ahead.
#[derive(Debug, Drop)]
pub struct Input<'a, R> {
    reader: &'a mut Counted<R>,
    room: ReadBuffer,
    line: LineBuffer,
    second: bool,
    alloc: Global,
}

impl<'a, R> Model for Input<'a, R> {
    ghost use Rattle.org_wire.specs.Views.{InputView};

    ghost Value = { InputView R };

    ghost view = { λ i. record { reader = i.reader; room = i.room; line = i.line; second = i.second } };
}

// Puts the bytes at the end, unless memory was refused before, and answers whether it never was.
fn keep(bytes: &mut Vec<u8>, has_memory: bool, run: &[u8]) -> bool
    ensures ok { result ≡ true → (has_memory ≡ true) × (bytes.new.items ≡ bytes.old.items ++ run.now) }
{
    has_memory && bytes.extend_from_slice(run).is_ok()
}

impl<'a, R: Read> Input<'a, R> {
    ghost use Rattle.org_wire.specs.Input.{ahead, CountsNext, NeverStopsForMemory, Reads, StopsShort};
    ghost use Rattle.org_wire.specs.Steps.{CountsCall, StaysAhead, HasStopped, HoldsAll, IsReady, ReadsFrame, StopsInFrame, Takes, TakesFewer, TakesLine, TakesPayload};
    ghost use Rattle.org_wire.specs.Devices.{StaysBounded};
    ghost use Rattle.org_wire.specs.Stream.{broken, is_second, reading_of, behind};

    /// A stream over a reader. Out of memory for a line or for what is read ahead is its only refusal. The reader
    /// isn't called: a call would have to know that none has failed.
    pub fn new(
        alloc: Global,
        reader: &'a mut Counted<R>,
        protocol: Protocol,
    ) -> Result<Input<'a, R>, Fault>
        ensures reader { IfOk result (λ input. input.reader.now ≡ reader.old) }
        ensures room { IfOk result (λ input. input.room ≡ []) }
        ensures spoken { IfOk result (λ input. input.second ≡ is_second protocol) }
        ensures same_reference { IfOk result (λ input. input.reader.ghost_name ≡ reader.entry.ghost_name) }
        ensures memory { IsOkUnless result memory_fault }
    {
        let line = LineBuffer::new(alloc)?;
        let room = ReadBuffer::new(alloc, MOST_ROOM)?;
        Ok(Input {
            reader,
            room,
            line,
            second: protocol.is_second(),
            alloc,
        })
    }

    // A stream over a reader, a line buffer and room that are there.
    pub(crate) fn over(
        alloc: Global,
        reader: &'a mut Counted<R>,
        line: LineBuffer,
        room: ReadBuffer,
        protocol: Protocol,
    ) -> Input<'a, R>
        requires { room ≡ [] }
        ensures reader { result.reader.now ≡ reader.old }
        ensures room { result.room ≡ [] }
        ensures spoken { result.second ≡ is_second protocol }
        ensures same_reference { result.reader.ghost_name ≡ reader.entry.ghost_name }
    {
        Input {
            reader,
            room,
            line,
            second: protocol.is_second(),
            alloc,
        }
    }

    // Whether the second protocol is spoken.
    pub(crate) fn is_second(&self) -> bool
        ensures value { result ≡ self.now.second }
    {
        self.second
    }

    // The reader, given back.
    pub(crate) fn into_reader(self) -> &'a mut Counted<R>
        ensures value { result.now ≡ self.entry.reader.now }
        ensures same_reference { result.ghost_name ≡ self.entry.reader.ghost_name }
    {
        self.reader
    }

    // Reads where nothing is there.
    fn make_ready(&mut self) -> Result<(), Stop>
        requires not_failed { self.old.reader.now.failed ≡ 0 }
        ensures there { OnOk result (IsReady R.remaining self.old self.new) }
        ensures stopped { IfErr result (HasStopped R.remaining self.old self.new) }
        ensures failed { result ≡ Err Stop.Failed → HoldsAll R.remaining self.old self.new }
        ensures counted { CountsCall result self.old.reader.now self.new.reader.now }
        ensures falls { OnOk result (ahead self.new ≤ ahead self.old) }
        ensures bounded { StaysBounded self.old.reader.now.calls self.new.reader.now.calls }
        ensures same_protocol { self.new.second ≡ self.old.second }
        ensures same_reference { self.new.reader.ghost_name ≡ self.old.reader.ghost_name }
        ensures line { self.new.line ≡ self.old.line }
    {
        if !self.room.unread_bytes().is_empty() {
            return Ok(());
        }
        if self.reader.calls() >= MOST_READS {
            return Err(Stop::Failed);
        }
        match self.room.fill(self.reader) {
            Ok(true) => Ok(()),
            Ok(false) => Err(Stop::End),
            Err(_) => Err(Stop::Failed),
        }
    }

    // Takes the next byte.
    fn next_byte(&mut self) -> Result<u8, Stop>
        requires not_failed { self.old.reader.now.failed ≡ 0 }
        ensures taken { IfOk result (λ byte. Takes R.remaining self.old self.new (byte ∷ [])) }
        ensures stopped { IfErr result (HasStopped R.remaining self.old self.new) }
        ensures failed { result ≡ Err Stop.Failed → HoldsAll R.remaining self.old self.new }
        ensures counted { CountsCall result self.old.reader.now self.new.reader.now }
        ensures falls { OnOk result (ahead self.new < ahead self.old) }
        ensures bounded { StaysBounded self.old.reader.now.calls self.new.reader.now.calls }
        ensures same_protocol { self.new.second ≡ self.old.second }
        ensures same_reference { self.new.reader.ghost_name ≡ self.old.reader.ghost_name }
        ensures line { self.new.line ≡ self.old.line }
    {
        self.make_ready()?;
        self.room.take().ok_or(Stop::End)
    }

    // Reads up to the next LF, which it takes too, and keeps the line before it. Of a long line the rest is skipped. Where the
    // stream ends before an LF, what stands before the end is kept as such a line would be.
    pub(crate) fn read_line(&mut self) -> Result<LineEnd, Stop>
        requires not_failed { self.old.reader.now.failed ≡ 0 }
        ensures line { TakesLine R.remaining self.old result self.new }
        ensures failed { result ≡ Err Stop.Failed → StopsShort R.remaining (reading_of self.old.second) self.old self.new }
        ensures counted { CountsCall result self.old.reader.now self.new.reader.now }
        ensures falls { OnOk result (ahead self.new < ahead self.old) }
        ensures bounded { StaysBounded self.old.reader.now.calls self.new.reader.now.calls }
        ensures same_protocol { self.new.second ≡ self.old.second }
        ensures same_reference { self.new.reader.ghost_name ≡ self.old.reader.ghost_name }
    {
        self.line.clear();
        let mut is_long = false;
        'bytes: loop {
            let byte = self.next_byte()?;
            if byte == b'\n' {
                return Ok(if is_long {
                    LineEnd::Long
                } else {
                    LineEnd::Whole
                });
            }
            if self.line.is_full() {
                is_long = true;
            } else {
                self.line.push(byte);
            }
        }
    }

    // Whether the line that was read last has no byte.
    pub(crate) fn has_empty_line(&self) -> bool
        ensures value { result ≡ nat_le (length self.now.line) 0 }
    {
        self.line.is_empty()
    }

    // Reads so many bytes, a run at a time. Where they find no memory they are read and thrown away, and there is no text.
    fn read_payload(&mut self, size: usize) -> Result<Option<Bytes>, Stop>
        requires not_failed { self.old.reader.now.failed ≡ 0 }
        ensures value { TakesPayload R.remaining size self.old result self.new }
        ensures failed { result ≡ Err Stop.Failed → TakesFewer R.remaining size self.old self.new }
        ensures counted { CountsCall result self.old.reader.now self.new.reader.now }
        ensures falls { OnOk result (ahead self.new ≤ ahead self.old) }
        ensures bounded { StaysBounded self.old.reader.now.calls self.new.reader.now.calls }
        ensures same_protocol { self.new.second ≡ self.old.second }
        ensures same_reference { self.new.reader.ghost_name ≡ self.old.reader.ghost_name }
    {
        let mut bytes = Vec::new(self.alloc);
        let mut has_memory = bytes.reserve_exact(size).is_ok();
        let mut left = size;
        'runs: for _run in 0..size {
            if left == 0 {
                break;
            }
            self.make_ready()?;
            let ready = self.room.unread_bytes();
            let count = ready.len().min(left);
            has_memory = keep(&mut bytes, has_memory, &ready[..count]);
            self.room.advance(count);
            left -= count;
        }
        if has_memory {
            Ok(Some(Bytes::new(bytes)))
        } else {
            Ok(None)
        }
    }

    // The command of a frame, whose payload follows. Without a frame there was no memory for it.
    fn read_frame(&mut self, frame: Option<PayloadHeader>, size: u64) -> Next
        requires not_failed { self.old.reader.now.failed ≡ 0 }
        ensures value { ReadsFrame R.remaining frame size self.old result self.new }
        ensures failed { StopsInFrame R.remaining size self.old result self.new }
        ensures counted { CountsNext result self.old.reader.now self.new.reader.now }
        ensures falls { StaysAhead result (ahead self.old) (ahead self.new) }
        ensures last { NeverStopsForMemory result }
        ensures bounded { StaysBounded self.old.reader.now.calls self.new.reader.now.calls }
        ensures same_protocol { self.new.second ≡ self.old.second }
        ensures same_reference { self.new.reader.ghost_name ≡ self.old.reader.ghost_name }
    {
        if size > MAX_BYTES as u64 {
            return Next::Last(Fault::Plain(Code::Size));
        }
        match self.read_payload(size as usize) {
            Ok(Some(bytes)) => match frame {
                Some(frame) => Next::Given(command_of_frame(frame, bytes)),
                None => Next::Refused(Fault::Plain(Code::Memory)),
            },
            Ok(None) => Next::Refused(Fault::Plain(Code::Memory)),
            Err(Stop::End) => Next::Last(Fault::Plain(Code::Cut)),
            Err(Stop::Failed) => Next::Last(Fault::Plain(Code::Device)),
        }
    }

    // The command of the line that was read, with its payload.
    pub(crate) fn read_whole(&mut self) -> Next
        requires not_failed { self.old.reader.now.failed ≡ 0 }
        ensures value { Reads R.remaining (behind self.old.second self.old.line) self.old result self.new }
        ensures failed { result ≡ broken → StopsShort R.remaining (behind self.old.second self.old.line) self.old self.new }
        ensures counted { CountsNext result self.old.reader.now self.new.reader.now }
        ensures falls { StaysAhead result (ahead self.old) (ahead self.new) }
        ensures last { NeverStopsForMemory result }
        ensures bounded { StaysBounded self.old.reader.now.calls self.new.reader.now.calls }
        ensures same_protocol { self.new.second ≡ self.old.second }
        ensures same_reference { self.new.reader.ghost_name ≡ self.old.reader.ghost_name }
    {
        match parse_line(self.second, self.line.as_slice()) {
            ParsedLine::Bad => Next::Refused(Fault::Plain(Code::Command)),
            ParsedLine::Ready(command) => Next::Given(command),
            ParsedLine::BorrowedCommand(words) => match command_of(self.alloc, words) {
                Ok(command) => Next::Given(command),
                Err(_) => Next::Refused(Fault::Plain(Code::Memory)),
            },
            ParsedLine::Add(name, size) => {
                let frame = add_frame(self.alloc, name);
                self.read_frame(frame, size)
            }
            ParsedLine::Edit(seen, at, del, size) => {
                let frame = edit_frame(self.alloc, seen, at, del);
                self.read_frame(frame, size)
            }
        }
    }
}
