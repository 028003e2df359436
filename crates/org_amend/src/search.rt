//! A search among the lines of a section.
ghost use Rattle.std.specs.Prelude.{◌≡◌, ◌+◌, ◌≤◌, ◌<◌, ◌^◌, ℕ, Bool, List, Option, IsOkUnless, length, slice_get};
ghost use Rattle.org_amend.specs.Searches.{Finds};
ghost use Rattle.org_base.specs.Codes.{memory_fault};
ghost use Rattle.org_class.specs.declared.class.Class.{Class};

use org_base::{Fault, Span};
use org_class::Class;
use org_lines::Lines;
use org_text::Text;
use std::alloc::Global;

// What is looked for among lines, one after the other.
pub(crate) trait Search: Copy {
    // What is known after one more line of a class, which begins at a place.
    ghost known_after: { Self → Option Class → ℕ → List ℕ → Self };

    // No more line is looked at.
    ghost ends: { Self → Bool };

    fn after(self, class: Option<Class>, at: u32, line: &[u8]) -> Self
        requires fits { at + length line.now < 2 ^ 32 }
        ensures value { result ≡ known_after self class at line.now };

    fn is_over(self) -> bool
        ensures value { result ≡ ends self };
}

// What a search finds among the lines of a section; the classes are those of the lines.
pub(crate) fn search_lines<T: Text, S: Search>(
    alloc: Global,
    text: &T,
    section: Span,
    classes: &[Class],
    start: S,
) -> Result<S, Fault>
    requires within { section.at + section.len ≤ length (T.content text.now) }
    ensures value { Finds result S.known_after S.ends start (T.content text.now) section classes.now }
    ensures memory { IsOkUnless result memory_fault }
{
    // For the proof alone: its contract says that the text is not too long.
    let _len = text.len();
    let mut known = start;
    let mut at = section.at;
    let mut place = 0;
    for line in Lines::new(alloc, text, section) {
        let line = line?;
        let line = line.bytes.as_slice();
        if known.is_over() {
            return Ok(known);
        }
        known = known.after(class_at(classes, place), at, line);
        at += line.len() as u32;
        place += 1;
    }
    Ok(known)
}

// The class of a line at a place, if there is one.
fn class_at(classes: &[Class], place: usize) -> Option<Class>
    ensures value { result ≡ slice_get classes.now place }
{
    classes.get(place).copied()
}
