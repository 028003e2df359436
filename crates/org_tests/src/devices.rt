//! Reads, writes and flushes that fail, and writes that take nothing, at each place of a run.
use org_base::Fault;
use org_cal::Moment;
use org_engine::Engine;
use org_text::Whole;
use org_wire::{Counted, End, Options, Protocol, run};
use std::alloc::Global;
use std::io;
use std::io::{Read, Write};
use std::test::Fail;

// A kind of call.
#[derive(Clone, Copy, PartialEq, Eq)]
enum Call {
    None,
    Read,
    Write,
    // A write that takes nothing.
    EmptyWrite,
    Flush,
}

// Which call fails, counted from 1 among those of its kind.
#[derive(Clone, Copy)]
struct Failure {
    call: Call,
    place: u64,
}

impl Failure {
    fn is_at(self, call: Call, place: u64) -> bool {
        self.call == call && self.place == place
    }
}

// Gives a byte a call.
#[derive(Drop)]
struct Drip<'a> {
    bytes: &'a [u8],
    reads: u64,
    failure: Failure,
}

impl Read for Drip<'_> {
    fn read(&mut self, buf: &mut [u8]) -> io::Result<usize> {
        self.reads = self.reads.saturating_add(1);
        if self.failure.is_at(Call::Read, self.reads) {
            return Err(io::Error::from(io::ErrorKind::Other));
        }
        let count = buf.len().min(1).min(self.bytes.len());
        buf[..count].copy_from_slice(&self.bytes[..count]);
        self.bytes = &self.bytes[count..];
        Ok(count)
    }
}

// Takes a byte a call.
#[derive(Drop)]
struct Sink {
    taken: Vec<u8>,
    writes: u64,
    flushes: u64,
    failure: Failure,
}

impl Write for Sink {
    fn write(&mut self, buf: &[u8]) -> io::Result<usize> {
        self.writes = self.writes.saturating_add(1);
        if self.failure.is_at(Call::Write, self.writes) {
            return Err(io::Error::from(io::ErrorKind::Other));
        }
        if self.failure.is_at(Call::EmptyWrite, self.writes) {
            return Ok(0);
        }
        let count = buf.len().min(1);
        self.taken.extend_from_slice(&buf[..count])?;
        Ok(count)
    }

    fn flush(&mut self) -> io::Result<()> {
        self.flushes = self.flushes.saturating_add(1);
        if self.failure.is_at(Call::Flush, self.flushes) {
            return Err(io::Error::from(io::ErrorKind::Other));
        }
        Ok(())
    }
}

// What came of a run: whether a device stopped it, how many bytes of the replies were written, None where it were others,
// and how many calls were made.
#[derive(Clone, Copy)]
struct Outcome {
    is_stopped: bool,
    shown: Option<u64>,
    reads: u64,
    writes: u64,
    flushes: u64,
}

const STREAM: &[u8] = b"add a.org 23\n* TODO buy milk\n* note\ntodo\ntext a.org\n";

const REPLIES: &[u8] =
    b"ok 1\nview 28\n  a:          TODO buy milk\nview 23\n* TODO buy milk\n* note\n";

fn is_stopped(end: End) -> bool {
    match end {
        End::Done => false,
        End::Stopped(code) => code.name() == "device",
    }
}

fn text_of_parts(taken: &[u8]) -> Option<u64> {
    if REPLIES.starts_with(taken) {
        Some(taken.len() as u64)
    } else {
        None
    }
}

fn run_over(alloc: Global, engine: &mut Engine<Whole>, failure: Failure) -> Outcome {
    let mut reader = Counted::new(Drip {
        bytes: STREAM,
        reads: 0,
        failure,
    });
    let mut writer = Counted::new(Sink {
        taken: Vec::new(alloc),
        writes: 0,
        flushes: 0,
        failure,
    });
    let options = Options {
        idle: 0,
        protocol: Protocol::First,
    };
    let end = run(alloc, &mut reader, &mut writer, engine, options);
    outcome_of(end, reader.calls(), &writer.into_inner())
}

fn outcome_of(end: End, reads: u64, sink: &Sink) -> Outcome {
    Outcome {
        is_stopped: is_stopped(end),
        shown: text_of_parts(sink.taken.as_slice()),
        reads,
        writes: sink.writes,
        flushes: sink.flushes,
    }
}

fn outcome_with(alloc: Global, failure: Failure) -> Result<Outcome, Fault> {
    let moment = Moment::read(b"2024-02-28", b"10:30")?;
    let mut engine = Engine::new(alloc, moment, 0);
    Ok(run_over(alloc, &mut engine, failure))
}

fn count_of(outcome: Outcome, call: Call) -> u64 {
    match call {
        Call::None => 0,
        Call::Read => outcome.reads,
        Call::Write | Call::EmptyWrite => outcome.writes,
        Call::Flush => outcome.flushes,
    }
}

// Whether the run stopped at the failure: no call of its kind came after it, and of the replies a front was written, a byte
// for each write that didn't fail.
fn is_met(outcome: Outcome, failure: Failure) -> bool {
    let failed = match failure.call {
        Call::Write | Call::EmptyWrite => 1,
        _ => 0,
    };
    let is_front = match outcome.shown {
        Some(count) => count.saturating_add(failed) == outcome.writes,
        None => false,
    };
    outcome.is_stopped && is_front && count_of(outcome, failure.call) == failure.place
}

// The first place, of so many, where a failure of this kind isn't met.
fn wrong_place(alloc: Global, call: Call, count: u64) -> Result<Option<u64>, Fault> {
    for place in 1..=count {
        let failure = Failure { call, place };
        if !is_met(outcome_with(alloc, failure)?, failure) {
            return Ok(Some(place));
        }
    }
    Ok(None)
}

// The calls of a run in which none fails: a read for each byte and one at the end, a write for each byte of the replies, and a
// flush after each reply.
const READS: u64 = STREAM.len() as u64 + 1;

const WRITES: u64 = REPLIES.len() as u64;

const FLUSHES: u64 = 3;

fn is_undisturbed(alloc: Global) -> Result<bool, Fault> {
    let none = Failure {
        call: Call::None,
        place: 0,
    };
    let outcome = outcome_with(alloc, none)?;
    Ok(
        !outcome.is_stopped
            && outcome.shown == Some(WRITES)
            && outcome.reads == READS
            && outcome.writes == WRITES
            && outcome.flushes == FLUSHES,
    )
}

#[test]
fn calls_that_fail_at_each_place(rt: HostRuntime) -> Result<(), Fail> {
    assert!(rt; is_undisturbed(rt.alloc())?);
    assert_eq!(rt; wrong_place(rt.alloc(), Call::Read, READS)?, None);
    assert_eq!(rt; wrong_place(rt.alloc(), Call::Write, WRITES)?, None);
    assert_eq!(rt; wrong_place(rt.alloc(), Call::EmptyWrite, WRITES)?, None);
    assert_eq!(rt; wrong_place(rt.alloc(), Call::Flush, FLUSHES)?, None);
    Ok(())
}
