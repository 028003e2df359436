//! What a line `#+PROPERTY: NAME VALUE` gives.
ghost use Rattle.std.specs.Prelude.{◌≡◌, OnOk};
ghost use Rattle.org_base.specs.Properties.{with_all};
ghost use Rattle.org_settings.specs.SettingLines.{is_appended, name_of, is_name, value_behind, given_by, property_in};

use crate::setting_line::{has_key, setting_value};
use org_base::Properties;
use org_base::words::{first_word, trim, trim_start};
use std::alloc::AllocError;

// Whether the word ends in `+`.
fn is_appended(word: &[u8]) -> bool
    ensures value { result ≡ is_appended word.now }
{
    !word.is_empty() && word[word.len() - 1] == b'+'
}

// The word without its last `+`.
fn name_of(word: &[u8]) -> &[u8]
    ensures value { result.now ≡ name_of word.now }
{
    if is_appended(word) {
        &word[..word.len() - 1]
    } else {
        word
    }
}

fn is_name(name: &[u8]) -> bool
    ensures value { result ≡ is_name name.now }
{
    !name.is_empty() && !is_appended(name)
}

// What stands after the first word, trimmed.
fn value_behind(text: &[u8]) -> &[u8]
    ensures value { result.now ≡ value_behind text.now }
{
    let rest = trim_start(text);
    let word = first_word(text);
    trim(&rest[word.len()..])
}

// Adds what a text `NAME VALUE` or `NAME+ VALUE` gives.
fn add_given(properties: &mut Properties, text: &[u8]) -> Result<(), AllocError>
    ensures ok { OnOk result (properties.new ≡ with_all properties.old (given_by text.now)) }
{
    let word = first_word(text);
    let name = name_of(word);
    if !is_name(name) {
        return Ok(());
    }
    properties.add(name, is_appended(word), value_behind(text))
}

// Adds what a line gives, if it names a property.
pub(crate) fn add_property(properties: &mut Properties, line: &[u8]) -> Result<(), AllocError>
    ensures ok { OnOk result (properties.new ≡ with_all properties.old (property_in line.now)) }
{
    if !has_key(b"PROPERTY", line) {
        return Ok(());
    }
    add_given(properties, setting_value(line))
}
