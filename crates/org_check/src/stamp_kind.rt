//! Why what looks like a stamp is none.

use crate::spaces::has_odd_space;
use crate::unread_kinds::StampKind;
use org_base::words::{first_word, trim_start};
use org_cal::{Day, TimeOfDay};

// A place of a line that looks like a stamp, and the next closing bracket, or the line's length.
#[derive(Clone, Copy)]
pub(crate) struct Candidate {
    pub place: usize,
    pub close: usize,
}

// Why what looks like a stamp is none.
pub(crate) fn unread_kind(line: &[u8], candidate: Candidate) -> StampKind {
    let Candidate { place, close } = candidate;
    if place >= line.len() || close >= line.len() || close <= place {
        return StampKind::UnclosedStamp;
    }
    if (line[place] == b'<') != (line[close] == b'>') {
        return StampKind::UnclosedStamp;
    }
    inner_kind(&line[place + 1..close])
}

// The most bytes of what stands between brackets in which a space is looked for that is none.
const MOST_OF_WORDS: usize = 64;

// The same of what stands between the brackets. No more than a few words of it are looked at, and of the date no more than
// shows that it is too long.
fn inner_kind(inner: &[u8]) -> StampKind {
    if has_odd_space(&inner[..inner.len().min(MOST_OF_WORDS)]) {
        return StampKind::SpaceInStamp;
    }
    let date = first_word(&inner[..inner.len().min(11)]);
    if date.len() > 10 {
        return StampKind::UnreadStamp;
    }
    if Day::of_text(date).is_some() {
        return words_kind(&inner[date.len().min(inner.len())..]);
    }
    if date.len() == 10 && date[4] == b'-' && date[7] == b'-' {
        StampKind::NoSuchDate
    } else {
        StampKind::ShortDate
    }
}

// What the words so far were: how far the order of a stamp's words has come.
#[derive(Clone, Copy, PartialEq, Eq)]
enum Upto {
    Date,
    Name,
    Time,
    Mark,
    Marks,
}

// Why words after a date make no stamp: the first that stands where no such word may stand decides.
fn words_kind(bytes: &[u8]) -> StampKind {
    let mut upto = Upto::Date;
    let mut rest = trim_start(bytes);
    while !rest.is_empty() {
        let word = first_word(rest);
        if word.is_empty() || word.len() > rest.len() {
            return StampKind::UnreadStamp;
        }
        upto = match upto_word(word, upto) {
            Ok(upto) => upto,
            Err(kind) => return kind,
        };
        rest = trim_start(&rest[word.len()..]);
    }
    match upto {
        Upto::Mark | Upto::Marks => StampKind::BadRepeater,
        _ => StampKind::UnreadStamp,
    }
}

// How far the order has come with a word that may stand there, or why it may not.
fn upto_word(word: &[u8], upto: Upto) -> Result<Upto, StampKind> {
    match word {
        [b'+' | b'-' | b'.', ..] => match upto {
            Upto::Mark => Ok(Upto::Marks),
            Upto::Marks => Err(StampKind::BadRepeater),
            _ => Ok(Upto::Mark),
        },
        [b'0'..=b'9', ..] if matches!(upto, Upto::Mark | Upto::Marks) => {
            Err(StampKind::BadRepeater)
        }
        [b'0'..=b'9', ..] if !is_time(word) => Err(StampKind::NoSuchTime),
        [b'0'..=b'9', ..] => match upto {
            Upto::Date | Upto::Name => Ok(Upto::Time),
            _ => Err(StampKind::UnreadStamp),
        },
        _ => match upto {
            Upto::Date => Ok(Upto::Name),
            _ => Err(StampKind::UnreadStamp),
        },
    }
}

// Whether the word is a time or a range of two.
fn is_time(word: &[u8]) -> bool {
    match word.iter().position(|b| *b == b'-') {
        None => TimeOfDay::read(word).is_some(),
        Some(at) if at < word.len() => {
            TimeOfDay::read(&word[..at]).is_some() && TimeOfDay::read(&word[at + 1..]).is_some()
        }
        Some(_) => false,
    }
}
