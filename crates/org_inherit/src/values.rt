//! Values of names in drawers.
ghost use Rattle.std.specs.Prelude.{◌≡◌, ◌<◌, length};
ghost use Rattle.std.specs.Option.{option_copied};
ghost use Rattle.org_inherit.specs.Values.{nearest_value, front_value, is_inherited, value_of_file};

use org_base::Texts;
use org_base::words::same_word;
use org_outline::Outline;
use org_settings::Settings;

// The own value of a name, else that of the nearest ancestor that has one, lent.
pub(crate) fn nearest_value<'a>(outline: &'a Outline, place: usize, name: &[u8]) -> Option<&'a [u8]>
    requires { place < length outline.now }
    ensures value { option_copied result ≡ nearest_value outline.now name.now place }
{
    let mut next = Some(place);
    while let Some(place) = next {
        if let Some(value) = outline.entry(place).details.property(name) {
            return Some(value);
        }
        next = outline.parent(place);
    }
    None
}

// What the drawer of the lines before the first heading gives, lent.
pub(crate) fn front_value<'a>(outline: &'a Outline, name: &[u8]) -> Option<&'a [u8]>
    ensures value { option_copied result ≡ front_value outline.now name.now }
{
    if outline.count() == 0 {
        return None;
    }
    let first = outline.entry(0);
    match &first.head {
        Some(_) => None,
        None => first.details.property(name),
    }
}

// What the file gives to a name, lent.
pub(crate) fn file_value<'a>(
    outline: &'a Outline,
    settings: &'a Settings,
    name: &[u8],
) -> Option<&'a [u8]>
    ensures value { option_copied result ≡ value_of_file outline.now settings.now name.now }
{
    match front_value(outline, name) {
        Some(value) => Some(value),
        None => settings.property(name),
    }
}

// Whether the name is among these. Letter case doesn't count.
pub(crate) fn is_inherited(names: &Texts, name: &[u8]) -> bool
    ensures value { result ≡ is_inherited names.now name.now }
{
    for place in 0..names.count() {
        if same_word(name, names.get(place)) {
            return true;
        }
    }
    false
}
