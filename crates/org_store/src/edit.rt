//! A file whose text is edited.
ghost use Rattle.std.specs.Prelude.{◌≡◌, ◌<◌, Err, IfOk, Ok, OnOk, OnErr, IsOkUnless, None};
ghost use Rattle.org_base.specs.Codes.{memory_fault};
ghost use Rattle.org_base.specs.Results.{Gives, IfRefused};
ghost use Rattle.org_store.specs.Change.{IsChangedBy, LiesIn, edited, edited_text};
ghost use Rattle.org_store.specs.Counts.{NewClassified, FewNewClassified};
ghost use Rattle.org_store.specs.File.{AreOf};
ghost use Rattle.org_store.specs.ChangedSettings.{AreNewSettings};

use crate::change::Change;
use crate::classify::all_pending;
use crate::file::File;
use crate::section::Section;
use crate::sectioned_text::SectionedText;
use crate::sections::Sections;
use crate::settings::settings_of;
use crate::settings_unchanged::keeps_setting_lines;
use crate::touched::changed_list;
use org_base::{Fault, Meter};
use org_class::Settings;
use org_sequence::Sequence;
use org_text::Text;
use std::alloc::Global;
use std::rc::Rc;

impl<T: Text> File<T> {
    /// Changes the file's text, and gives it a serial. Refusals in order: `Range` where the change ends past the text,
    /// `Boundary` where it begins or ends inside a character, `Size` where the text would be longer than a text may be; want
    /// of memory may come at any time. After a refusal the file is as before.
    ///
    /// The sections of the new text that stand in the place of those that the change touches are to be read anew: the meter
    /// counts each once as classified; where memory is refused some of them may have been counted. Where the file's settings
    /// stay, as nothing that is asked of them tells them apart, all other sections are as before; else they are to be read
    /// anew too, and are not counted.
    pub fn edit(
        &mut self,
        alloc: Global,
        meter: &mut Meter,
        change: Change<'_>,
        serial: u64,
    ) -> Result<(), Fault>
        ensures ok { OnOk result (IsChangedBy self.old change.entry serial self.new) }
        ensures text { OnOk result (edited_text self.old.text change.entry ≡ Ok self.new.text) }
        ensures refused { IfRefused result (λ fault. edited_text self.old.text change.entry ≡ Err fault) }
        ensures err { OnErr result (self.new ≡ self.old) }
        ensures counts { OnOk result (NewClassified self.old.text change.entry meter.old meter.new) }
        ensures partial { OnErr result (FewNewClassified self.old.text change.entry meter.old meter.new) }
        ensures uncounted { IfRefused result (λ _. meter.new ≡ meter.old) }
    {
        let text = self.edited_text(change)?;
        self.set_text(alloc, meter, text, change)?;
        self.serial = serial;
        Ok(())
    }

    /// The file's text with a change, apart from the file. It is refused as [`File::edit`] is.
    pub fn edited_text(&self, change: Change<'_>) -> Result<T, Fault>
        ensures value { IfOk result (λ text. edited_text self.now.text change.entry ≡ Ok (T.content text)) }
        ensures refused { IfRefused result (λ fault. edited_text self.now.text change.entry ≡ Err fault) }
    {
        let mut text = self.text.share()?;
        text.edit(change.at, change.del, change.ins)?;
        Ok(text)
    }

    // Gives the file a text that is its own with a change. Out of memory is the only refusal, and leaves the file as before;
    // then some of the new sections may have been counted.
    fn set_text(
        &mut self,
        alloc: Global,
        meter: &mut Meter,
        text: T,
        change: Change<'_>,
    ) -> Result<(), Fault>
        requires within { LiesIn self.old.text change }
        requires changed { T.content text ≡ edited self.old.text change }
        ensures ok { OnOk result (IsChangedBy self.old change.entry self.old.serial self.new) }
        ensures err { OnErr result (self.new ≡ self.old) }
        ensures counts { OnOk result (NewClassified self.old.text change.entry meter.old meter.new) }
        ensures partial { OnErr result (FewNewClassified self.old.text change.entry meter.old meter.new) }
        ensures memory { IsOkUnless result memory_fault }
    {
        let old = SectionedText {
            text: &self.text,
            list: self.sections.list(),
        };
        let changed = changed_list(alloc, meter, &old, &text, change)?;
        let new_settings = self.new_settings(alloc, &text, &changed.list, change)?;
        let Some(settings) = new_settings else {
            self.text = text;
            self.sections.follow(changed);
            return Ok(());
        };
        if settings.as_ref().answers_as(self.settings.as_ref()) {
            self.text = text;
            self.sections.follow(changed);
            self.settings = settings;
            return Ok(());
        }
        let pending = all_pending(alloc, &changed.list)?;
        self.text = text;
        self.sections = Sections::new(pending);
        self.settings = settings;
        Ok(())
    }

    // The settings of a text that is the file's with a change, and of whose sections this is kept; None where the change leaves
    // the setting lines as they are. Only else those of all sections are gone over.
    fn new_settings(
        &self,
        alloc: Global,
        text: &T,
        list: &Sequence<Section>,
        change: Change<'_>,
    ) -> Result<Option<Rc<Settings>>, Fault>
        requires sections_of_text { AreOf (T.content text.now) list.now }
        requires within { LiesIn self.now.text change }
        requires changed { T.content text.now ≡ edited self.now.text change }
        ensures value { IfOk result (AreNewSettings self.now.text (T.content text.now)) }
        ensures memory { IsOkUnless result memory_fault }
    {
        let old = SectionedText {
            text: &self.text,
            list: self.sections.list(),
        };
        let new = SectionedText { text, list };
        if keeps_setting_lines(alloc, &old, &new, change)? {
            return Ok(None);
        }
        let settings = settings_of(alloc, text, list)?;
        Ok(Some(Rc::new(alloc, settings)?))
    }
}
