//! What hides headings.
ghost use Rattle.std.specs.Prelude.{◌≡◌, map};
ghost use Rattle.std.specs.List.{list_any};
ghost use Rattle.org_base.specs.Spans.{bytes_in};
ghost use Rattle.org_inherit.specs.Hidden.{is_archive, hides};

use org_base::Span;
use org_entry::Entry;

fn is_archive(tag: &[u8]) -> bool
    ensures value { result ≡ is_archive tag.now }
{
    tag == b"ARCHIVE".as_slice()
}

fn has_archive_tag(entry: &Entry, tags: &[Span]) -> bool
    ensures value { result ≡ list_any is_archive (map (bytes_in entry.now.text) tags.now) }
{
    for tag in tags {
        if is_archive(entry.part(*tag)) {
            return true;
        }
    }
    false
}

// Whether an entry hides itself and what is below it.
pub(crate) fn hides(entry: &Entry) -> bool
    ensures value { result ≡ hides entry.now }
{
    match &entry.head {
        Some(head) => head.comment || has_archive_tag(entry, head.tags.as_slice()),
        None => false,
    }
}
