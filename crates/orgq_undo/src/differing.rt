//! The lines in which two texts differ.

/// Where two texts differ: whole lines, those between the ones that both begin with and the ones that both end with.
#[derive(Clone, Copy, Debug)]
pub struct Differing<'a> {
    /// The number of the first of them. Lines count from 1.
    pub line: u64,
    /// These lines of the first text; it may be none.
    pub before: &'a str,
    /// These lines of the second text; it may be none.
    pub after: &'a str,
}

/// The lines in which two texts differ.
pub fn differing_lines<'a>(before: &'a str, after: &'a str) -> Differing<'a> {
    let (front, count) = common_front(before, after);
    let before = before.get(front..).unwrap_or("");
    let after = after.get(front..).unwrap_or("");
    let behind = common_end(before, after);
    Differing {
        line: count.saturating_add(1),
        before: without_end(before, behind),
        after: without_end(after, behind),
    }
}

// How many bytes have the lines that both texts begin with, and how many lines these are.
fn common_front(before: &str, after: &str) -> (usize, u64) {
    let mut front = 0usize;
    let mut count = 0u64;
    for (line, other) in before
        .split_inclusive('\n')
        .zip(after.split_inclusive('\n'))
    {
        if line != other {
            break;
        }
        front = front.saturating_add(line.len());
        count = count.saturating_add(1);
    }
    (front, count)
}

// How many bytes have the whole lines that both texts end with.
fn common_end(before: &str, after: &str) -> usize {
    let (before, after) = (before.as_bytes(), after.as_bytes());
    let same = before
        .iter()
        .rev()
        .zip(after.iter().rev())
        .take_while(|(byte, other)| byte == other)
        .count();
    if begins_line(before, same) && begins_line(after, same) {
        return same;
    }
    let from = before.len().saturating_sub(same);
    let end = before.get(from..).unwrap_or(&[]);
    match end.iter().position(|byte| *byte == b'\n') {
        Some(feed) => end.len().saturating_sub(feed).saturating_sub(1),
        None => 0,
    }
}

// Whether a line begins so many bytes before the end of a text.
fn begins_line(text: &[u8], behind: usize) -> bool {
    let at = text.len().saturating_sub(behind);
    at == 0 || text.get(at.saturating_sub(1)) == Some(&b'\n')
}

// A text without so many bytes at its end.
fn without_end(text: &str, behind: usize) -> &str {
    text.get(..text.len().saturating_sub(behind)).unwrap_or("")
}
