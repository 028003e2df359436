//! One way from the files of a world to what a view shows of them.
ghost use Rattle.std.specs.Prelude.{◌≡◌, ℕ, Bool, List, None, Option, IfOk, OnOk, OnErr, IsOkUnless};
ghost use Rattle.std.specs.List.{AllZip};
ghost use Rattle.std.specs.Option.{option_copied};
ghost use Rattle.org_base.specs.Codes.{memory_fault};
ghost use Rattle.org_base.specs.Results.{Gives, GivesItems, GivesText};
ghost use Rattle.org_stamp_index.specs.Held.{scope_in};
ghost use Rattle.org_near.specs.Stamps.{IsOf};
ghost use Rattle.org_index.specs.Ticks.{examined};
ghost use Rattle.org_inherit.specs.Scope.{Scope};
ghost use Rattle.org_engine.specs.Outlines.{AreRead, outlines_of};
ghost use Rattle.org_engine.specs.Marks.{ExaminesSome, ReadsAll, ReadsSome};
ghost use Rattle.org_layout.specs.declared.shown.Line.{Line};
ghost use Rattle.org_engine.specs.Places.{view_over};
ghost use Rattle.org_engine.specs.Views.{is_wanted, scopes_over};

use crate::outlines::read_world;
use crate::places::places_text;
use crate::question::Form;
use crate::world::World;
use org_base::{Fault, Meter, Profile, Texts};
use org_inherit::{Inherit, Inherits};
use org_layout::{Line, lines_text};
use org_store::ParsedFile;
use org_text::Text;
use std::alloc::Global;

// What a view shows, once it is known what the headings of its files inherit.
pub(crate) trait Render {
    // The name of the one file that it is over; none where it is over all.
    ghost named: { Self → Option (List ℕ) };

    // Whether its rows show efforts.
    ghost efforts: { Self → Bool };

    // Its lines, by what inheritance looks at in each of these files.
    ghost lines: { Self → List Scope → List Line };

    // How many stamps it examines for them.
    ghost examines: { Self → List Scope → ℕ };

    // What holds where it may examine stamps at all.
    ghost may: { Self → Type 0 };

    // The name of that file.
    fn file(&self) -> Option<&[u8]>
        ensures value { option_copied result ≡ named self.now };

    // The profile in which it asks for stamps by their days; None where it goes over all headings.
    fn profile(&self) -> Option<Profile>;

    // Whether its rows show efforts.
    fn with_effort(&self) -> bool
        ensures value { result ≡ efforts self.now };

    // Its lines over these files; of a view over all of them it is given too what they say. The meter counts the stamps that are
    // examined. Out of memory is the only refusal; some stamps may have been examined either way.
    fn lines(
        &self,
        alloc: Global,
        meter: &mut Meter,
        inherits: &Inherits<'_>,
        files: &[ParsedFile],
    ) -> Result<Vec<Line>, Fault>
        requires read { AreRead inherits.now }
        requires same { named self.now ≡ None → AllZip IsOf files.now inherits.now }
        ensures value { GivesItems result (lines self.now inherits.now) }
        ensures counts { OnOk result (meter.new ≡ examined (examines self.now inherits.now) meter.old) }
        ensures partial { ExaminesSome (may self.now) meter.old meter.new }
        ensures memory { IsOkUnless result memory_fault };
}

// What a view shows of a world. All sections that are still to be read are read first, each once as the meter counts; then
// stamps are examined. Out of memory is the only refusal; then those of some files, from the first on, were read.
pub(crate) fn render_view<T: Text, V: Render>(
    alloc: Global,
    meter: &mut Meter,
    world: &mut World<T>,
    view: &V,
    form: Form,
) -> Result<String, Fault>
    ensures value { GivesText result (view_over form (V.named view.now) (V.efforts view.now) (V.lines view.now) world.old.world) }
    ensures read { OnOk result (ReadsAll (V.examines view.now (scopes_over (V.named view.now) world.old.world)) world.old world.new meter.old meter.new) }
    ensures partial { OnErr result (ReadsSome (V.may view.now) world.old world.new meter.old meter.new) }
    ensures memory { IsOkUnless result memory_fault }
{
    let outlines = read_world(alloc, meter, world, view.profile())?;
    render_over(alloc, meter, world, outlines.as_slice(), view, form)
}

// The same, where it is known what the files say.
fn render_over<T: Text, V: Render>(
    alloc: Global,
    meter: &mut Meter,
    world: &World<T>,
    outlines: &[ParsedFile],
    view: &V,
    form: Form,
) -> Result<String, Fault>
    requires read { outlines.now ≡ outlines_of world.now.world }
    ensures value { GivesText result (view_over form (V.named view.now) (V.efforts view.now) (V.lines view.now) world.now.world) }
    ensures counts { OnOk result (meter.new ≡ examined (V.examines view.now (scopes_over (V.named view.now) world.now.world)) meter.old) }
    ensures partial { OnErr result (ExaminesSome (V.may view.now) meter.old meter.new) }
    ensures memory { IsOkUnless result memory_fault }
{
    let by_days = view.profile().is_some();
    let inherits = inherits_named(alloc, world, outlines, view.file(), by_days)?;
    let lines = view.lines(alloc, meter, &inherits, outlines)?;
    match form {
        Form::Text => lines_text(alloc, &inherits, view.with_effort(), lines.as_slice()),
        Form::Places => Ok(places_text(alloc, world, view.file(), lines.as_slice())?),
    }
}

// What the headings of the files that a view is over inherit, in the files' order: along their ancestors, or by tables.
fn inherits_named<'a, T: Text>(
    alloc: Global,
    world: &'a World<T>,
    outlines: &'a [ParsedFile],
    file: Option<&[u8]>,
    by_ancestors: bool,
) -> Result<Inherits<'a>, Fault>
    requires read { outlines.now ≡ outlines_of world.now.world }
    ensures value { Gives result (scopes_over (option_copied file.entry) world.now.world) }
    ensures read { IfOk result AreRead }
    ensures memory { IsOkUnless result memory_fault }
{
    let mut inherits = Inherits::new(alloc);
    for place in 0..world.count() {
        let (name, _) = world.file(place);
        if !is_wanted(file, name) {
            continue;
        }
        let inherit = inherit_of(
            alloc,
            &outlines[place],
            name,
            world.inherited_names(),
            by_ancestors,
        )?;
        inherits.push(inherit)?;
    }
    Ok(inherits)
}

// What the headings of a file inherit, along their ancestors or by tables.
fn inherit_of<'a>(
    alloc: Global,
    outline: &'a ParsedFile,
    name: &'a str,
    inherited: &'a Texts,
    by_ancestors: bool,
) -> Result<Inherit<'a>, Fault>
    ensures value { Gives result (scope_in outline.now name.now inherited.now) }
    ensures memory { IsOkUnless result memory_fault }
{
    if by_ancestors {
        return Ok(outline.inherit_by_ancestors(alloc, name, inherited));
    }
    outline.inherit(alloc, name, inherited)
}

// Whether a view is over the file of a name.
pub(crate) fn is_wanted(file: Option<&[u8]>, name: &str) -> bool
    ensures value { result ≡ is_wanted (option_copied file.entry) name.now }
{
    match file {
        Some(wanted) => wanted == name.as_bytes(),
        None => true,
    }
}
