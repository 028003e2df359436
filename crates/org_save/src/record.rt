//! What was done, for clauses alone: it takes no memory, and nothing of it is there when the program runs.
ghost use Rattle.std.specs.Prelude.{◌≡◌, List, [], ◌∷◌};
ghost use Rattle.std.specs.Borrow.{ftrue};
ghost use Rattle.org_save.specs.Events.{Event, event_of, events_code, number};
ghost use Rattle.org_save.specs.Events.{found, found_former, gave_access, listed, made, removed, renamed, restored, synced, tore, wrote};

use crate::Name;
use std::marker::{Model, PhantomData};

/// The events of a store, the newest first.
#[derive(Drop)]
pub struct Record {
    marker: PhantomData<u8>,
    pub ghost events: { List Event } by { events_code },
}

impl Model for Record {
    ghost also_owns = { λ _. ftrue };
}

// A name's number among the words of an event.
fn number(name: Name) -> u64
    ensures { result ≡ number name }
{
    match name {
        Name::Target => 0,
        Name::Temporary => 1,
        Name::Rescue => 2,
    }
}

impl Record {
    pub(crate) fn new() -> Record
        ensures { result.events ≡ [] }
    {
        Record {
            marker: PhantomData,
        }
    }

    // An event's number, two names by theirs, and its bytes.
    pub(crate) fn note(&mut self, _words: &[u64], _bytes: &[u8])
        ensures { self.new.events ≡ event_of _words.now _bytes.now ∷ self.old.events }
    {}
}

// One event each.
#[tactic(auto, using(crate::proofs::RecordLemmas::named))]
impl Record {
    pub(crate) fn note_made(&mut self, name: Name)
        ensures { self.new.events ≡ made name ∷ self.old.events }
    {
        self.note(&[0, number(name), 0], &[]);
    }

    pub(crate) fn note_gave_access(&mut self, name: Name)
        ensures { self.new.events ≡ gave_access name ∷ self.old.events }
    {
        self.note(&[1, number(name), 0], &[]);
    }

    pub(crate) fn note_wrote(&mut self, name: Name, bytes: &[u8])
        ensures { self.new.events ≡ wrote name bytes.now ∷ self.old.events }
    {
        self.note(&[2, number(name), 0], bytes);
    }

    pub(crate) fn note_tore(&mut self, name: Name)
        ensures { self.new.events ≡ tore name ∷ self.old.events }
    {
        self.note(&[3, number(name), 0], &[]);
    }

    pub(crate) fn note_synced(&mut self, name: Name)
        ensures { self.new.events ≡ synced name ∷ self.old.events }
    {
        self.note(&[4, number(name), 0], &[]);
    }

    pub(crate) fn note_found(&mut self, name: Name, bytes: &[u8])
        ensures { self.new.events ≡ found name bytes.now ∷ self.old.events }
    {
        self.note(&[5, number(name), 0], bytes);
    }

    pub(crate) fn note_found_former(&mut self, bytes: &[u8])
        ensures { self.new.events ≡ found_former bytes.now ∷ self.old.events }
    {
        self.note(&[6, 0, 0], bytes);
    }

    pub(crate) fn note_renamed(&mut self, from: Name, to: Name)
        ensures { self.new.events ≡ renamed from to ∷ self.old.events }
    {
        self.note(&[7, number(from), number(to)], &[]);
    }

    pub(crate) fn note_removed(&mut self, name: Name)
        ensures { self.new.events ≡ removed name ∷ self.old.events }
    {
        self.note(&[8, number(name), 0], &[]);
    }

    pub(crate) fn note_listed(&mut self)
        ensures { self.new.events ≡ listed ∷ self.old.events }
    {
        self.note(&[9, 0, 0], &[]);
    }

    pub(crate) fn note_restored(&mut self, bytes: &[u8])
        ensures { self.new.events ≡ restored bytes.now ∷ self.old.events }
    {
        self.note(&[10, 0, 0], bytes);
    }
}
