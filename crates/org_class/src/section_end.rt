//! Where a section ends, found by the stars of the next heading.
ghost use Rattle.std.specs.Prelude.{◌≡◌, ◌<◌, ◌≤◌, length, IfSome, None};
ghost use Rattle.org_class.specs.SectionEnds.{begins_line, IsSectionEnd, IsLineStar, HasNoLineStar};

use crate::at::has_heading_in;
use memchr::memchr;
use org_text::Text;

// Where the section that begins at a place of a text ends, if the text is looked at up to an end: before the next heading line,
// or there.
pub(crate) fn section_end<T: Text>(text: &T, at: usize, end: usize) -> usize
    requires some { at < end }
    requires within { end ≤ length (T.content text.now) }
    ensures value { IsSectionEnd (T.content text.now) end at result }
{
    let mut here = at + 1;
    let mut at_front = text.piece_at(at)[0] == b'\n';
    while here < end {
        let piece = text.piece_at(here);
        let run = &piece[..piece.len().min(end - here)];
        match line_star(run, at_front) {
            Some(star) => {
                let place = here + star;
                if has_heading_in(text, place, end) {
                    return place;
                }
                at_front = false;
                here = place + 1;
            }
            None => {
                at_front = run[run.len() - 1] == b'\n';
                here += run.len();
            }
        }
    }
    end
}

// The first star of a run at which a line begins; whether one begins at the front of the run is told.
fn line_star(run: &[u8], at_front: bool) -> Option<usize>
    ensures some { IfSome result (IsLineStar at_front run.now) }
    ensures none { result ≡ None → HasNoLineStar at_front run.now }
{
    let mut from = 0;
    while from < run.len() {
        match memchr(b'*', &run[from..]) {
            None => return None,
            Some(more) => {
                let star = from + more;
                if begins_line(run, at_front, star) {
                    return Some(star);
                }
                from = star + 1;
            }
        }
    }
    None
}

// Whether a line begins at a place of a run.
fn begins_line(run: &[u8], at_front: bool, place: usize) -> bool
    requires within { place < length run.now }
    ensures value { result ≡ begins_line at_front run.now place }
{
    if place == 0 {
        return at_front;
    }
    run[place - 1] == b'\n'
}
