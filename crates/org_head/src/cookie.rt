//! Priority cookies.
ghost use Rattle.std.specs.Prelude.{◌≡◌, ◌≤◌, IsTrue};
ghost use Rattle.org_settings.specs.Priority.{greatest_priority, priority_number};
ghost use Rattle.org_head.specs.Cookie.{cookie_value, is_cookie};

use org_settings::{is_priority, priority_number};

// Whether the word is a cookie `[#X]`.
pub(crate) fn is_cookie(word: &[u8]) -> bool
    ensures value { result ≡ is_cookie word.now }
{
    let len = word.len();
    len > 3
        && word[0] == b'['
        && word[1] == b'#'
        && word[len - 1] == b']'
        && is_priority(&word[2..len - 1])
}

// The number of a cookie `[#X]`.
pub(crate) fn cookie_number(cookie: &[u8]) -> u8
    requires { IsTrue (is_cookie cookie.now) }
    ensures value { result ≡ priority_number (cookie_value cookie.now) }
    ensures most { result ≤ greatest_priority }
{
    priority_number(&cookie[2..cookie.len() - 1])
}
