//! Files with the headings that count.
ghost use Rattle.std.specs.Prelude.{◌≡◌, ◌<◌, ◌^◌, length, map, IfOk, IsOkUnless};
ghost use Rattle.std.specs.List.{All};
ghost use Rattle.org_base.specs.Codes.{memory_fault};
ghost use Rattle.org_base.specs.Results.{Adds, Gives, GivesItems};
ghost use Rattle.org_cal.specs.Periods.{days_of};
ghost use Rattle.org_clocktable.specs.Clocked.{AreOf};
ghost use Rattle.org_clocktable.specs.Counted.{clocks_at, clocks_from, counted_files, file_sum, heading_sums, matching_of, whole_of, placed, IsCounted};
ghost use Rattle.org_clocktable.specs.RunningSums.{before};
ghost use Rattle.org_inherit.specs.Scope.{Scope};
ghost use Rattle.org_outline.specs.Levels.{levels};
ghost use Rattle.org_outline.specs.Tree.{all_ends};
ghost use Rattle.org_sum.specs.Measures.{effort_minutes};
ghost use Rattle.org_sum.specs.Texts.{AreOfText};

use crate::running_sums::{PlacedClock, RunningSums};
use org_agenda::holds_of;
use org_base::Fault;
use org_cal::{Moment, Period};
use org_drawer::ClockLine;
use org_entry::Entry;
use org_inherit::{Inherit, Inherits};
use org_match::{Match, Matcher};
use org_outline::Outline;
use org_sum::{Measure, effort_sums, whole_sum};
use std::alloc::{AllocError, Global};
use std::marker::Model;

/// The entries of a file, and which of them count in a clock table.
#[derive(Debug, Drop)]
pub struct CountedFile<'a> {
    outline: &'a Outline,
    counted: Vec<bool>,
    // Subtree ends, the clocks of the headings that count, and the efforts: these are the same at each step of a table.
    ends: Vec<usize>,
    clocks: Vec<PlacedClock>,
    efforts: Vec<u64>,
    effort: u64,
}

impl<'a> Model for CountedFile<'a> {
    ghost use Rattle.org_clocktable.specs.Counted.{Counted, IsPrepared};

    ghost Value = { Counted };

    ghost view = { λ c. record { entries = c.outline.now; counted = c.counted.items } };

    ghost invariant = { λ c. IsPrepared c.outline.now c.counted.items c.ends.items c.clocks.items c.efforts.items c.effort };
}

impl<'a> CountedFile<'a> {
    // An outline of one text, with a verdict for each of its entries.
    fn new(
        alloc: Global,
        outline: &'a Outline,
        counted: Vec<bool>,
    ) -> Result<CountedFile<'a>, Fault>
        requires counted { IsCounted outline.now counted.items }
        ensures value { Gives result (record { entries = outline.now; counted = counted.items }) }
        ensures memory { IsOkUnless result memory_fault }
    {
        let ends = outline.ends(alloc)?;
        let clocks = clocks_of(alloc, outline, counted.as_slice())?;
        let efforts = effort_sums(alloc, outline, counted.as_slice())?;
        let effort = whole_sum(&Measure::Efforts, outline, counted.as_slice());
        Ok(CountedFile {
            outline,
            counted,
            ends,
            clocks,
            efforts,
            effort,
        })
    }

    // The file's entries.
    pub(crate) fn outline(&self) -> &Outline
        ensures value { result.now ≡ self.now.entries }
    {
        self.outline
    }

    // Where the subtree of each entry ends.
    pub(crate) fn ends(&self) -> &[usize]
        ensures value { result.now ≡ all_ends (levels self.now.entries) }
    {
        self.ends.as_slice()
    }

    // What its clocks have in a period.
    pub(crate) fn running_sums(
        &self,
        alloc: Global,
        period: &Period,
    ) -> Result<RunningSums, AllocError>
        ensures days { IfOk result (λ running. running.days ≡ days_of period.now) }
        ensures sums { IfOk result (λ running. AreOf running self.now) }
        ensures below { IfOk result (λ running. before running (length self.now.entries) < 2 ^ 55) }
    {
        // For the proof alone: the period ends on a day.
        let _last = period.last.number();
        RunningSums::of(alloc, self.clocks.as_slice(), period)
    }

    // The effort of the whole file.
    pub(crate) fn effort(&self) -> u64
        ensures value { result ≡ file_sum effort_minutes self.now }
        ensures below { result < 2 ^ 55 }
    {
        self.effort
    }

    // The effort sum of each heading.
    pub(crate) fn efforts(&self) -> &[u64]
        ensures value { result.now ≡ heading_sums effort_minutes self.now }
    {
        self.efforts.as_slice()
    }
}

// The clocks of the headings that count, in order.
fn clocks_of(
    alloc: Global,
    outline: &Outline,
    counted: &[bool],
) -> Result<Vec<PlacedClock>, AllocError>
    requires count { length counted.now ≡ length outline.now }
    ensures { GivesItems result (clocks_from 0 outline.now counted.now) }
{
    let mut clocks = Vec::new(alloc);
    for place in 0..outline.count() {
        push_clocks(&mut clocks, place, counted[place], outline.entry(place))?;
    }
    Ok(clocks)
}

fn push_clocks(
    clocks: &mut Vec<PlacedClock>,
    place: usize,
    counts: bool,
    entry: &Entry,
) -> Result<(), AllocError>
    ensures { Adds result clocks.old clocks.new (clocks_at place counts entry.now) }
{
    if !counts || entry.head.is_none() {
        return Ok(());
    }
    push_all(clocks, place, entry.details.clocks())
}

fn push_all(
    clocks: &mut Vec<PlacedClock>,
    place: usize,
    own: &[ClockLine],
) -> Result<(), AllocError>
    ensures { Adds result clocks.old clocks.new (placed place own.now) }
{
    for clock in own {
        clocks.push(PlacedClock {
            place,
            clock: *clock,
        })?;
    }
    Ok(())
}

/// The files, each with the headings that count in a clock table: all, or those of which the expression holds at the
/// moment. Hidden headings count too. Each file is one text's.
pub fn counted_files<'a>(
    alloc: Global,
    inherits: &'a Inherits<'_>,
    expression: Option<&Match>,
    moment: &Moment,
) -> Result<Vec<CountedFile<'a>>, Fault>
    requires texts { All (λ (scope : Scope). AreOfText scope.entries) inherits.now }
    ensures value { GivesItems result (counted_files expression.entry moment.now inherits.now) }
    ensures memory { IsOkUnless result memory_fault }
{
    match expression {
        Some(expression) => matching_files(alloc, inherits, expression, moment),
        None => all_counted(alloc, inherits),
    }
}

// Each file with all its headings.
fn all_counted<'a>(alloc: Global, inherits: &'a Inherits<'_>) -> Result<Vec<CountedFile<'a>>, Fault>
    requires texts { All (λ (scope : Scope). AreOfText scope.entries) inherits.now }
    ensures value { GivesItems result (map whole_of inherits.now) }
    ensures memory { IsOkUnless result memory_fault }
{
    let mut files = Vec::new(alloc);
    for place in 0..inherits.count() {
        let file = whole_file(alloc, inherits.get(place))?;
        files.push(file)?;
    }
    Ok(files)
}

fn whole_file<'a>(alloc: Global, inherit: &'a Inherit<'_>) -> Result<CountedFile<'a>, Fault>
    requires text { AreOfText inherit.now.entries }
    ensures value { Gives result (whole_of inherit.now) }
    ensures memory { IsOkUnless result memory_fault }
{
    let outline = inherit.outline();
    let counted = vec![in alloc; true; outline.count()]?;
    CountedFile::new(alloc, outline, counted)
}

// Each file with those of its headings of which the expression holds.
fn matching_files<'a>(
    alloc: Global,
    inherits: &'a Inherits<'_>,
    expression: &Match,
    moment: &Moment,
) -> Result<Vec<CountedFile<'a>>, Fault>
    requires texts { All (λ (scope : Scope). AreOfText scope.entries) inherits.now }
    ensures value { GivesItems result (map (matching_of expression.now moment.now) inherits.now) }
    ensures memory { IsOkUnless result memory_fault }
{
    let mut matcher = Matcher::new(alloc, expression)?;
    tested_files(alloc, inherits, &mut matcher, moment)
}

fn tested_files<'a>(
    alloc: Global,
    inherits: &'a Inherits<'_>,
    matcher: &mut Matcher<'_>,
    moment: &Moment,
) -> Result<Vec<CountedFile<'a>>, Fault>
    requires texts { All (λ (scope : Scope). AreOfText scope.entries) inherits.now }
    ensures value { GivesItems result (map (matching_of matcher.old moment.now) inherits.now) }
    ensures memory { IsOkUnless result memory_fault }
{
    let mut files = Vec::new(alloc);
    for place in 0..inherits.count() {
        let file = matching_file(alloc, inherits.get(place), matcher, moment)?;
        files.push(file)?;
    }
    Ok(files)
}

fn matching_file<'a>(
    alloc: Global,
    inherit: &'a Inherit<'_>,
    matcher: &mut Matcher<'_>,
    moment: &Moment,
) -> Result<CountedFile<'a>, Fault>
    requires text { AreOfText inherit.now.entries }
    ensures value { Gives result (matching_of matcher.old moment.now inherit.now) }
    ensures unchanged { matcher.new ≡ matcher.old }
    ensures memory { IsOkUnless result memory_fault }
{
    let counted = holds_of(alloc, matcher, moment, inherit)?;
    CountedFile::new(alloc, inherit.outline(), counted)
}
