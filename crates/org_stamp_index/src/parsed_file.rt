//! What a file says.
ghost use Rattle.std.specs.Prelude.{◌≡◌, ◌≤◌, IfOk, OnErr, OnOk, IsOkUnless};
ghost use Rattle.std.specs.List.Sorted.{IsStrictlySortedBy};
ghost use Rattle.std.specs.Ordering.{nat_cmp};
ghost use Rattle.org_base.specs.Codes.{memory_fault};
ghost use Rattle.org_base.specs.Results.{Gives};
ghost use Rattle.org_stamp_index.specs.Held.{scope_in};
ghost use Rattle.org_stamp_index.specs.Near.{CountsNear, HoldNear};
ghost use Rattle.org_index.specs.Ticks.{Examines};

use crate::indexed_outline::IndexedOutline;
use crate::near_query::NearQuery;
use org_base::{Fault, Meter, Texts};
use org_inherit::Inherit;
use org_settings::Settings;
use std::alloc::Global;
use std::marker::Model;
use std::rc::Rc;

/// What a file says: its outline, and the settings by which it was read. Both are shared with the file that answered it,
/// and later changes of that file don't reach it.
#[derive(Debug, Drop)]
pub struct ParsedFile {
    outline: IndexedOutline,
    settings: Rc<Settings>,
}

impl Model for ParsedFile {
    ghost use Rattle.org_stamp_index.specs.Held.{OutlineView};

    ghost Value = { OutlineView };

    ghost view = { λ f. record { entries = f.outline; settings = f.settings.value } };
}

impl ParsedFile {
    /// Shares of an outline and of settings.
    pub fn of(outline: &IndexedOutline, settings: &Rc<Settings>) -> Result<ParsedFile, Fault>
        ensures value { Gives result (record { entries = outline.now; settings = settings.now.value }) }
        ensures memory { IsOkUnless result memory_fault }
    {
        let outline = outline.share()?;
        let settings = settings.clone()?;
        Ok(ParsedFile { outline, settings })
    }

    /// What the outline says of headings, in a file of this name where the values of these names are inherited.
    pub fn inherit<'a>(
        &'a self,
        alloc: Global,
        name: &'a str,
        inherited: &'a Texts,
    ) -> Result<Inherit<'a>, Fault>
        ensures value { Gives result (scope_in self.now name.now inherited.now) }
        ensures memory { IsOkUnless result memory_fault }
    {
        let outline = self.outline.outline();
        Inherit::new(alloc, outline, self.settings.as_ref(), name, inherited)
    }

    /// The same, found along the ancestors of a heading each time it is asked. Nothing is passed over and it takes no
    /// memory: for views that ask of few headings.
    pub fn inherit_by_ancestors<'a>(
        &'a self,
        alloc: Global,
        name: &'a str,
        inherited: &'a Texts,
    ) -> Inherit<'a>
        ensures value { result ≡ scope_in self.now name.now inherited.now }
    {
        let outline = self.outline.outline();
        Inherit::by_ancestors(alloc, outline, self.settings.as_ref(), name, inherited)
    }

    /// The places of the headings that own a stamp near the days, ascending, each once; each such stamp is examined, as the meter
    /// counts. Want of memory is the only refusal, and then some may have been counted.
    pub fn near(
        &self,
        alloc: Global,
        meter: &mut Meter,
        asked: &NearQuery,
    ) -> Result<Vec<usize>, Fault>
        requires order { asked.now.from ≤ asked.now.to }
        ensures value { IfOk result (λ ps. HoldNear asked.now self.now.settings self.now.entries ps.items) }
        ensures once { IfOk result (λ places. IsStrictlySortedBy nat_cmp places.items) }
        ensures counts { OnOk result (CountsNear asked.now self.now.settings self.now.entries meter.old meter.new) }
        ensures partial { OnErr result (Examines meter.old meter.new) }
        ensures memory { IsOkUnless result memory_fault }
    {
        self.outline.near(alloc, meter, &self.settings, asked)
    }
}
