//! A text with its sections.

use crate::section::Section;
use org_sequence::Sequence;
use org_text::Text;

// A text with what is kept of its sections.
#[derive(Drop)]
pub(crate) struct SectionedText<'a, T: Text> {
    pub(crate) text: &'a T,
    pub(crate) list: &'a Sequence<Section>,
}
