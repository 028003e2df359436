//! Sections that are their heading line alone, as most are in an outline of headings: no line after it is looked for.
ghost use Rattle.std.specs.Prelude.{◌≡◌, ◌+◌, ◌≤◌, ◌<◌, ◌^◌, ◌∷◌, [], true, length, IfSome, IsOkUnless};
ghost use Rattle.org_base.specs.Codes.{memory_fault};
ghost use Rattle.org_base.specs.Results.{Gives};
ghost use Rattle.org_base.specs.Spans.{bytes_in};
ghost use Rattle.org_class.specs.Classes.{section_classes};
ghost use Rattle.org_class.specs.declared.class.Class.TheVariants.{Heading};
ghost use Rattle.org_entry.specs.Alone.{IsHeadingAlone};
ghost use Rattle.org_entry.specs.Draft.{heading_alone};

use crate::details::Details;
use crate::entry::Entry;
use crate::rare_list::RareList;
use crate::stamps::push_active;
use crate::text::EntryText;
use org_base::{Fault, Span};
use org_class::Class;
use org_head::{part, read_head};
use org_lines::lend;
use org_settings::Settings;
use org_text::Text;
use std::alloc::Global;

// The line of a section that is its heading alone, where the text lends it in one piece.
#[tactic(auto, using(crate::proofs::AloneLemmas::alone_is))]
pub(crate) fn heading_alone<'a, T: Text>(
    text: &'a T,
    section: Span,
    classes: &[Class],
) -> Option<&'a [u8]>
    requires within { section.at + section.len ≤ length (T.content text.now) }
    requires belongs { classes.now ≡ section_classes (bytes_in (T.content text.now) section) }
    ensures value { IfSome result (λ line. IsHeadingAlone (T.content text.now) section line.now) }
{
    if !is_heading_class_alone(classes) {
        return None;
    }
    lend(text, section)
}

// Whether there is one class, that of a heading line.
#[tactic(auto, using(crate::proofs::AloneLemmas::one_class))]
fn is_heading_class_alone(classes: &[Class]) -> bool
    ensures alone { result ≡ true → classes.now ≡ Heading ∷ [] }
{
    classes.len() == 1 && matches!(classes[0], Class::Heading)
}

// The entry of a heading line that is a section.
pub(crate) fn heading_entry(alloc: Global, settings: &Settings, line: &[u8]) -> Result<Entry, Fault>
    requires fits { length line.now < 2 ^ 32 }
    ensures value { Gives result (heading_alone settings.now line.now) }
    ensures memory { IsOkUnless result memory_fault }
{
    let head = read_head(alloc, line, settings)?;
    let title = head.title;
    let mut stamps = RareList::new(alloc);
    push_active(&mut stamps, title.at as usize, part(line, title))?;
    let details = Details::of_stamps(alloc, stamps)?;
    let mut text = EntryText::new(alloc);
    text.push(line)?;
    Ok(Entry {
        text,
        head: Some(head),
        details,
    })
}
