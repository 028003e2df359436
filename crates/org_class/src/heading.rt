//! Heading lines.
ghost use Rattle.std.specs.Prelude.{◌≡◌, ◌≤◌, ◌∷◌, [], true, length};
ghost use Rattle.org_class.specs.Classes.{section_classes};
ghost use Rattle.org_class.specs.Heading.{stars, begins_heading};
ghost use Rattle.org_class.specs.declared.class.Class.TheVariants.{Heading};
ghost use Rattle.org_lines.specs.Cuts.{lines};

use memchr::memchr;

/// How many stars stand at the front.
pub fn leading_stars(line: &[u8]) -> usize
    ensures within { result ≤ length line.now }
    ensures value { result ≡ stars line.now }
{
    line.iter().take_while(|b| **b == b'*').count()
}

/// Whether the line is a heading line: it begins with one or more stars and a space (Org Syntax, "Headings").
pub fn begins_heading(line: &[u8]) -> bool
    ensures value { result ≡ begins_heading line.now }
{
    let stars = leading_stars(line);
    stars > 0 && stars < line.len() && line[stars] == b' '
}

// Whether the bytes are a section of one line, which is its heading.
#[tactic(auto, using(crate::proofs::HeadingLemmas::alone))]
pub(crate) fn is_heading_alone(bytes: &[u8]) -> bool
    ensures alone { result ≡ true → section_classes bytes.now ≡ Heading ∷ [] }
{
    begins_heading(bytes) && is_one_line(bytes)
}

// Whether the bytes are one line.
#[tactic(auto, using(crate::proofs::HeadingLemmas::one_line))]
fn is_one_line(bytes: &[u8]) -> bool
    ensures one { result ≡ true → lines bytes.now ≡ bytes.now ∷ [] }
{
    match memchr(b'\n', bytes) {
        Some(place) => place + 1 == bytes.len(),
        None => !bytes.is_empty(),
    }
}
