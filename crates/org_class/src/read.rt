//! The settings of a whole text.
ghost use Rattle.std.specs.Prelude.{◌≡◌, ◌++◌, ◌+◌, ◌≤◌, length, OnOk, OnErr, IsOkUnless};
ghost use Rattle.org_base.specs.Codes.{memory_fault};
ghost use Rattle.org_base.specs.Results.{Gives};
ghost use Rattle.org_lines.specs.Cuts.{lines};
ghost use Rattle.org_class.specs.Classes.{StandStill, setting_lines, GainsSettings, setting_line};
ghost use Rattle.org_class.specs.Sections.{sections};
ghost use Rattle.org_settings.specs.Settings.{settings_of};
ghost use Rattle.org_class.specs.Ticks.{AllClassified, SomeClassified};

use crate::class::{Class, class_at, has_setting};
use crate::section::classify;
use crate::spans::sections;
use org_base::{Fault, Meter, Span, Texts};
use org_lines::{Line, Lines};
use org_settings::Settings;
use org_text::Text;
use std::alloc::Global;

// Puts the line at the end, if it is of the class Setting.
fn push_setting(texts: &mut Texts, class: Option<Class>, line: Line<'_>) -> Result<(), Fault>
    ensures ok { OnOk result (texts.new ≡ texts.old ++ setting_line class line.entry) }
    ensures err { OnErr result (texts.new ≡ texts.old) }
    ensures memory { IsOkUnless result memory_fault }
{
    match class {
        Some(Class::Setting) => texts.push(line.bytes.as_slice()),
        _ => Ok(()),
    }
}

/// Puts the setting lines of a section, whose lines are of these classes, at the end of the texts. Out of memory is
/// the only refusal; some of the lines may stand after the texts then.
pub fn push_setting_lines<T: Text>(
    alloc: Global,
    texts: &mut Texts,
    text: &T,
    section: Span,
    classes: &[Class],
) -> Result<(), Fault>
    requires within { section.at + section.len ≤ length (T.content text.now) }
    ensures ok { GainsSettings result texts.old texts.new (T.content text.now) section classes.now }
    ensures err { OnErr result (StandStill texts.old texts.new) }
    ensures memory { IsOkUnless result memory_fault }
{
    if !has_setting(classes) {
        return Ok(());
    }
    push_lines(alloc, texts, text, section, classes)
}

fn push_lines<T: Text>(
    alloc: Global,
    texts: &mut Texts,
    text: &T,
    section: Span,
    classes: &[Class],
) -> Result<(), Fault>
    requires within { section.at + section.len ≤ length (T.content text.now) }
    ensures ok { GainsSettings result texts.old texts.new (T.content text.now) section classes.now }
    ensures err { OnErr result (StandStill texts.old texts.new) }
    ensures memory { IsOkUnless result memory_fault }
{
    let mut place = 0;
    for line in Lines::new(alloc, text, section) {
        push_setting(texts, class_at(classes, place), line?)?;
        place += 1;
    }
    Ok(())
}

/// The settings of a whole text: what its setting lines, those of all sections, say together. The meter counts one
/// classified section for each section of the text, where memory is refused for some of them alone.
pub fn read_settings<T: Text>(alloc: Global, meter: &mut Meter, text: &T) -> Result<Settings, Fault>
    ensures value { Gives result (settings_of (setting_lines (T.content text.now))) }
    ensures counts { OnOk result (AllClassified (T.content text.now) meter.old meter.new) }
    ensures partial { OnErr result (SomeClassified (T.content text.now) meter.old meter.new) }
    ensures memory { IsOkUnless result memory_fault }
{
    let spans = sections(alloc, text)?;
    let mut lines = Texts::new(alloc);
    for span in spans.as_slice() {
        let classes = classify(alloc, meter, text, *span)?;
        push_setting_lines(alloc, &mut lines, text, *span, classes.as_slice())?;
    }
    Settings::of_lines(alloc, &lines)
}
