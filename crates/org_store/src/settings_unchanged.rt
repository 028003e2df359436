//! Changes that leave the setting lines as they are.
ghost use Rattle.std.specs.Prelude.{◌≡◌, ◌↔◌, true, IfOk, IsOkUnless, IsTrue};
ghost use Rattle.org_base.specs.Codes.{memory_fault};
ghost use Rattle.org_store.specs.Change.{KeepsLines, LiesIn, SameLines, edited};
ghost use Rattle.org_store.specs.File.{AreOf};

use crate::change::Change;
use crate::sectioned_text::SectionedText;
use crate::settings::lines_in;
use crate::touched::touched_sections;
use org_base::Fault;
use org_text::Text;
use std::alloc::Global;

// Whether the sections that stand in the place of those that a change touches have the same setting lines. Where
// neither have any, no line is read.
pub(crate) fn keeps_setting_lines<T: Text>(
    alloc: Global,
    old: &SectionedText<'_, T>,
    new: &SectionedText<'_, T>,
    change: Change<'_>,
) -> Result<bool, Fault>
    requires old_kept { AreOf (T.content old.now.text.now) old.now.list.now }
    requires new_kept { AreOf (T.content new.now.text.now) new.now.list.now }
    requires within { LiesIn (T.content old.now.text.now) change }
    requires changed { T.content new.now.text.now ≡ edited (T.content old.now.text.now) change }
    ensures value { IfOk result (λ b. IsTrue b ↔ KeepsLines (T.content old.now.text.now) change.entry) }
    ensures same { IfOk result (λ b. b ≡ true → SameLines (T.content old.now.text.now) (T.content new.now.text.now)) }
    ensures memory { IsOkUnless result memory_fault }
{
    let touched = touched_sections(old, new.text, change);
    let behind = old.list.len() - touched.end;
    let last = new.list.len() - behind;
    let had = lines_in(alloc, old.text, old.list, touched.first, touched.end)?;
    let has = lines_in(alloc, new.text, new.list, touched.first, last)?;
    Ok(has.is_same(&had))
}
