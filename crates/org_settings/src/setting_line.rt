//! Key and value of a setting line.
ghost use Rattle.std.specs.Prelude.{◌≡◌, ◌≤◌, length};
ghost use Rattle.org_settings.specs.SettingLines.{key_len, setting_key, setting_value, has_key};

use org_base::words::{same_word, trim, trim_start};

// How many bytes stand before the first colon.
fn key_len(text: &[u8]) -> usize
    ensures within { result ≤ length text.now }
    ensures value { result ≡ key_len text.now }
{
    text.iter().take_while(|b| **b != b':').count()
}

// KEY of a setting line.
fn setting_key(line: &[u8]) -> &[u8]
    ensures value { result.now ≡ setting_key line.now }
{
    let text = trim_start(line);
    let len = key_len(text);
    if len < 2 { &[] } else { &text[2..len] }
}

// VALUE of a setting line.
pub(crate) fn setting_value(line: &[u8]) -> &[u8]
    ensures value { result.now ≡ setting_value line.now }
{
    let text = trim_start(line);
    let len = key_len(text);
    if len < text.len() {
        trim(&text[len + 1..])
    } else {
        &[]
    }
}

// Whether the setting line has the key. The case of ASCII letters doesn't count.
pub(crate) fn has_key(key: &[u8], line: &[u8]) -> bool
    ensures value { result ≡ has_key key.now line.now }
{
    same_word(setting_key(line), key)
}
