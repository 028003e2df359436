//! A text with its settings.

use org_settings::Settings;
use org_text::Text;

/// A text with the settings of its file, by which its sections are read.
#[derive(Drop)]
pub struct ReadContext<'a, T: Text> {
    pub text: &'a T,
    pub settings: &'a Settings,
}
