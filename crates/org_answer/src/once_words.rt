//! Words in the order in which they come, each once.
ghost use Rattle.std.specs.Prelude.{◌≡◌, [], not, OnOk, Some};
ghost use Rattle.org_base.specs.Results.{Gives};
ghost use Rattle.org_inherit.specs.Seen.{AreSeen, IsSeenToo, is_seen};
ghost use Rattle.org_inherit.specs.Tags.{with_tag, with_tags};

use org_base::{Fault, Texts};
use std::alloc::{AllocError, Global};
use std::collections::BTreeSet;
use std::marker::Model;

/// Words of which equal ones stand once, the first where they are several; seen as their list. They are found by order, since
/// what they hash to is the writer's to choose.
#[derive(Drop)]
pub(crate) struct OnceWords {
    alloc: Global,
    // None once memory was refused: then no word is added.
    known: Option<BTreeSet<Vec<u8>>>,
    words: Texts,
}

impl Model for OnceWords {
    ghost use Rattle.std.specs.Prelude.{ℕ, List};
    ghost use Rattle.std.specs.Option.{option_map};
    ghost use Rattle.org_inherit.specs.Seen.{AreSeen};

    ghost Value = { List (List ℕ) };

    ghost view = { λ w. w.words };

    ghost invariant = { λ w. AreSeen (option_map (λ set. set.keys) w.known) w.words };
}

impl OnceWords {
    /// No words.
    pub(crate) fn new(alloc: Global) -> OnceWords
        ensures value { result ≡ [] }
    {
        OnceWords {
            alloc,
            known: Some(BTreeSet::new(alloc)),
            words: Texts::new(alloc),
        }
    }

    /// The words.
    pub(crate) fn into_texts(self) -> Texts
        ensures value { result ≡ self }
    {
        self.words
    }

    /// Adds a word, if it isn't there. After a refusal none is added any more.
    pub(crate) fn add(&mut self, word: &[u8]) -> Result<(), Fault>
        ensures ok { OnOk result (self.new ≡ with_tag self.old word.now) }
    {
        let Some(mut known) = self.known.take() else {
            return Err(Fault::from(AllocError));
        };
        add_new(self.alloc, &mut known, &mut self.words, word)?;
        self.known = Some(known);
        Ok(())
    }

    /// Adds words one after the other.
    pub(crate) fn add_all(&mut self, words: &Texts) -> Result<(), Fault>
        ensures ok { OnOk result (self.new ≡ with_tags self.old words.now) }
    {
        for place in 0..words.count() {
            self.add(words.get(place))?;
        }
        Ok(())
    }
}

// Adds a word to words and to the set of them, if it isn't there.
fn add_new(
    alloc: Global,
    known: &mut BTreeSet<Vec<u8>>,
    words: &mut Texts,
    word: &[u8],
) -> Result<(), Fault>
    requires known { AreSeen (Some known.old.keys) words.old }
    ensures words { OnOk result (words.new ≡ with_tag words.old word.now) }
    ensures known { OnOk result (AreSeen (Some known.new.keys) words.new) }
{
    if is_new(alloc, known, word)? {
        words.push(word)?;
    }
    Ok(())
}

// Whether a word comes for the first time. From then on it is known.
fn is_new(alloc: Global, known: &mut BTreeSet<Vec<u8>>, word: &[u8]) -> Result<bool, AllocError>
    ensures value { Gives result (not (is_seen known.old.keys word.now)) }
    ensures known { OnOk result (IsSeenToo known.old.keys known.new.keys word.now) }
{
    let word = Vec::from_slice(alloc, word)?;
    let is_new = known.insert(word)?;
    Ok(is_new)
}
