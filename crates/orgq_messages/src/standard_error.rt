//! What standard error says: lines without control characters.
ghost use Rattle.std.specs.Prelude.{◌≡◌, string_bytes, IfSome};
ghost use Rattle.org_visible.specs.Clean.{IsClean};
ghost use Rattle.org_visible.specs.Visible.{visible};

use crate::exit::STOPPED;
use org_visible::{Escape, push_visible};
use std::alloc::Global;

/// Says a line after the program's name.
pub fn say<R: Eprint + AllocGlobal>(rt: &R, text: &str) {
    let _ = match visible_text(rt.alloc(), text) {
        Some(line) => eprintln!(rt; "orgq: {line}"),
        None => eprintln!(rt; "orgq: out of memory"),
    };
}

/// Says what is wrong with something.
pub fn say_of<R: Eprint + AllocGlobal>(rt: &R, what: &str, why: &str) {
    match format!(in rt.alloc(); "{what}: {why}") {
        Ok(text) => say(rt, text.as_str()),
        Err(_) => say(rt, why),
    }
}

/// Says that memory was refused, and gives the status.
pub fn out_of_memory<R: Eprint>(rt: &R) -> u8 {
    let _ = eprintln!(rt; "orgq: out of memory");
    STOPPED
}

/// Says the lines of a text as they are, but for control characters.
pub fn say_lines<R: Eprint + AllocGlobal>(rt: &R, text: &str) {
    for line in text.lines() {
        say_line(rt, line);
    }
}

fn say_line<R: Eprint + AllocGlobal>(rt: &R, line: &str) {
    if let Some(line) = visible_text(rt.alloc(), line) {
        let _ = eprintln!(rt; "{line}");
    }
}

/// A text without control characters; none where memory is refused.
#[tactic(auto, using(org_visible::proofs::CleanLemmas::visible_is_clean))]
pub fn visible_text(alloc: Global, text: &str) -> Option<String>
    ensures value { IfSome result (λ seen. string_bytes seen ≡ visible Escape.Caret text.now) }
    ensures clean { IfSome result (λ seen. IsClean (string_bytes seen)) }
{
    let mut bytes = Vec::new(alloc);
    push_visible(&mut bytes, text.as_bytes(), Escape::Caret).ok()?;
    String::from_utf8(bytes).ok()
}
