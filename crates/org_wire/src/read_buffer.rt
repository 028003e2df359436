//! Bytes that were read and not yet taken.
ghost use Rattle.std.specs.Prelude.{◌≡◌, ◌∷◌, ◌≤◌, ◌<◌, [], length, drop, IfOk, OnOk, OnErr, IfSome, IfNone, true, false};
ghost use Rattle.org_base.specs.Counts.{one_more};
ghost use Rattle.org_base.specs.Results.{Gives};
ghost use Rattle.org_wire.specs.Devices.{CountsFailure, most_room, IsDone, KeepsBytes, TakesFrom};

use crate::counted::Counted;
use std::alloc::{AllocError, Global};
use std::io;
use std::io::Read;
use std::marker::Model;

// How many bytes are read at once.
pub(crate) const MOST_ROOM: usize = 65_536;

// Room of a size that never changes, seen as the bytes in it that weren't taken yet.
#[derive(Debug, Drop)]
pub(crate) struct ReadBuffer {
    room: Vec<u8>,
    at: usize,
    end: usize,
}

impl Model for ReadBuffer {
    ghost use Rattle.std.specs.Prelude.{◌≡◌, ◌≤◌, ◌<◌, ℕ, List, take, drop, length};
    ghost use Rattle.org_wire.specs.Devices.{most_room};

    ghost Value = { List ℕ };

    ghost view = { λ r. drop r.at (take r.end r.room.items) };

    ghost invariant = { λ r. (r.at ≤ r.end) × (r.end ≤ length r.room.items) × (0 < length r.room.items) × (length r.room.items ≤ most_room) };
}

impl ReadBuffer {
    // Empty room of so many bytes.
    pub(crate) fn new(alloc: Global, size: usize) -> Result<ReadBuffer, AllocError>
        requires { (0 < size) × (size ≤ most_room) }
        ensures value { Gives result [] }
    {
        let room = vec![in alloc; 0; size]?;
        Ok(ReadBuffer {
            room,
            at: 0,
            end: 0,
        })
    }

    // All that is there.
    pub(crate) fn unread_bytes(&self) -> &[u8]
        ensures value { result.now ≡ self.now }
    {
        &self.room[self.at..self.end]
    }

    // Takes so many bytes off the front.
    pub(crate) fn advance(&mut self, count: usize)
        requires { count ≤ length self.old }
        ensures value { self.new ≡ drop count self.old }
    {
        self.at += count;
    }

    // Takes the first byte, if one is there.
    pub(crate) fn take(&mut self) -> Option<u8>
        ensures some { IfSome result (λ byte. self.old ≡ byte ∷ self.new) }
        ensures none { IfNone result (self.old ≡ []) }
        ensures unchanged { IfNone result (self.new ≡ self.old) }
    {
        if self.at == self.end {
            return None;
        }
        let byte = self.room[self.at];
        self.at += 1;
        Some(byte)
    }

    // One read, where nothing is there. Answers whether bytes came; after an error there are none.
    pub(crate) fn fill<R: Read>(&mut self, reader: &mut Counted<R>) -> io::Result<bool>
        requires empty { self.old ≡ [] }
        requires not_failed { reader.old.failed ≡ 0 }
        ensures ok { OnOk result (TakesFrom R.remaining reader.old reader.new self.new) }
        ensures more { IfOk result (λ more. more ≡ true → 0 < length self.new) }
        ensures end { IfOk result (λ more. more ≡ false → (self.new ≡ []) × IsDone R.remaining reader.new) }
        ensures err { OnErr result (KeepsBytes R.remaining reader.old reader.new) }
        ensures fits { length self.new ≤ most_room }
        ensures calls { reader.new.calls ≡ one_more reader.old.calls }
        ensures failed { CountsFailure result reader.old.failed reader.new.failed }
    {
        self.at = 0;
        self.end = 0;
        let count = reader.read(self.room.as_mut_slice())?;
        self.end = count;
        Ok(count > 0)
    }
}
