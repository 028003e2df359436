//! The category of a file.
ghost use Rattle.std.specs.Prelude.{◌≡◌, ◌≤◌, ◌==◌, [], not, length};
ghost use Rattle.std.specs.List.{suffix_len};
ghost use Rattle.org_inherit.specs.Category.{base_name, stem, category_of, file_category};
ghost use Rattle.org_inherit.specs.Scope.{scope_with};

use crate::values::file_value;
use org_outline::Outline;
use org_settings::Settings;

/// The name after its last slash and without its last extension; a dot in first place begins none.
pub fn category_of(name: &str) -> &str
    ensures value { result.now ≡ category_of name.now }
{
    stem(base_name(name))
}

fn base_name(name: &str) -> &str
    ensures value { result.now ≡ base_name name.now }
{
    let behind = bytes_behind(name.as_bytes(), b'/');
    &name[name.len() - behind..]
}

fn stem(base: &str) -> &str
    ensures value { result.now ≡ stem base.now }
{
    let behind = bytes_behind(base.as_bytes(), b'.');
    if behind + 1 >= base.len() {
        return base;
    }
    &base[..base.len() - behind - 1]
}

// How many bytes stand after the last such byte; all where there is none.
fn bytes_behind(bytes: &[u8], byte: u8) -> usize
    ensures within { result ≤ length bytes.now }
    ensures value { result ≡ suffix_len (λ b. not (b == byte)) bytes.now }
{
    bytes.iter().rev().take_while(|b| **b != byte).count()
}

// What a file says of the category of its headings, lent.
pub(crate) fn file_category<'a>(
    outline: &'a Outline,
    settings: &'a Settings,
    file: &'a str,
) -> &'a [u8]
    ensures value { result.now ≡ file_category (scope_with outline.now settings.now file.now []) }
{
    if let Some(category) = file_value(outline, settings, b"CATEGORY") {
        return category;
    }
    match settings.category() {
        Some(category) => category,
        None => category_of(file).as_bytes(),
    }
}
