//! Priorities.
ghost use Rattle.std.specs.Prelude.{◌≡◌, ◌≤◌, IfOk, IfSome, IsTrue};
ghost use Rattle.org_base.specs.Results.{Gives, lent_in};
ghost use Rattle.org_settings.specs.Priority.{is_priority, priority_number, greatest_priority};
ghost use Rattle.org_settings.specs.SettingLines.{default_of_three, default_of, default_in};

use crate::pieces::words;
use crate::setting_line::{has_key, setting_value};
use std::alloc::{AllocError, Global};

/// Whether the text is a priority: A to Z, or 0 to 64 without a leading zero (Org manual 9.6, "Priorities").
pub fn is_priority(text: &[u8]) -> bool
    ensures value { result ≡ is_priority text.now }
{
    if text.len() == 1 {
        return text[0].is_ascii_uppercase() || text[0].is_ascii_digit();
    }
    if text.len() != 2
        || !text[0].is_ascii_digit()
        || !text[1].is_ascii_digit()
        || text[0] == b'0'
    {
        return false;
    }
    10 * (text[0] - b'0') + (text[1] - b'0') <= 64
}

/// The number that a priority is, or its letter's ASCII code. A smaller one is more urgent.
pub fn priority_number(text: &[u8]) -> u8
    requires { IsTrue (is_priority text.now) }
    ensures value { result ≡ priority_number text.now }
    ensures most { result ≤ greatest_priority }
{
    if text.len() == 1 {
        if text[0].is_ascii_digit() {
            text[0] - b'0'
        } else {
            text[0]
        }
    } else {
        10 * (text[0] - b'0') + (text[1] - b'0')
    }
}

// The default of three words, if each is a priority.
fn default_of_three(highest: &[u8], lowest: &[u8], default: &[u8]) -> Option<u8>
    ensures value { result ≡ default_of_three highest.now lowest.now default.now }
    ensures most { IfSome result (λ number. number ≤ greatest_priority) }
{
    if is_priority(highest) && is_priority(lowest) && is_priority(default) {
        Some(priority_number(default))
    } else {
        None
    }
}

fn default_of(words: &[&[u8]]) -> Option<u8>
    ensures value { result ≡ default_of (lent_in words.now) }
    ensures most { IfSome result (λ number. number ≤ greatest_priority) }
{
    if words.len() == 3 {
        default_of_three(words[0], words[1], words[2])
    } else {
        None
    }
}

// The default priority that a setting line names, if it is the highest, lowest and default one.
pub(crate) fn default_in(alloc: Global, line: &[u8]) -> Result<Option<u8>, AllocError>
    ensures value { Gives result (default_in line.now) }
    ensures most { IfOk result (λ found. IfSome found (λ number. number ≤ greatest_priority)) }
{
    if !has_key(b"PRIORITIES", line) {
        return Ok(None);
    }
    let words = words(alloc, setting_value(line))?;
    Ok(default_of(words.as_slice()))
}
