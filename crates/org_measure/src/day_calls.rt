//! Calls over the stamps of days: an index of them, a day's rows, clock sums, and what a clock table is asked for.
ghost use Rattle.org_client.specs.Files.{AreRead};
ghost use Rattle.org_sum.specs.Texts.{AreOfText};

use crate::outline_calls::refused_if;
use org_agenda::{AsOf, Row, RowKind, day_rows, sources_of};
use org_base::{Fault, Meter, Profile, Texts};
use org_cal::{Day, Moment, Period};
use org_client::FileSet;
use org_clocktable::TableSpec;
use org_index::DayIndex;
use org_inherit::{Inherit, Inherits};
use org_stamp::{Stamp, read_stamp};
use org_sum::clock_sums;
use org_text::{Text, Whole};
use std::alloc::Global;

// Two headings: one was clocked for an hour and a half, and the one below it for half an hour.
const HEADINGS: &str = "* TODO a
SCHEDULED: <2024-02-28 Wed 09:00>
CLOCK: [2024-02-28 Wed 09:00]--[2024-02-28 Wed 10:30] =>  1:30
** b
CLOCK: [2024-02-28 Wed 11:00]--[2024-02-28 Wed 11:30] =>  0:30
";

// The day of their stamps.
fn this_day() -> Result<Day, Fault> {
    Ok(Moment::read(b"2024-02-28", b"10:30")?.day)
}

// A file of the two headings.
fn two_headings(alloc: Global) -> Result<FileSet<Whole>, Fault> {
    let mut file_set = FileSet::new(alloc, Texts::new(alloc));
    let name = String::from_str(alloc, "a.org")?;
    let path = String::from_str(alloc, "/a.org")?;
    file_set.add(name, path, Whole::of(alloc, HEADINGS)?)?;
    Ok(file_set)
}

// Whether there is one row, of a heading that is scheduled at nine.
fn is_scheduled(rows: &[Row]) -> bool {
    match rows {
        [row] => {
            let starts_at_nine = row.start.is_some_and(|start| start.minutes() == 540);
            row.kind == RowKind::OnSchedule && row.heading == 0 && starts_at_nine
        }
        _ => false,
    }
}

/// The rows of a day.
pub fn rows_of_a_day(alloc: Global) -> Result<bool, Fault> {
    let file_set = two_headings(alloc)?;
    let inherits = file_set.inherits()?;
    let sources = sources_of(alloc, &inherits)?;
    let today = this_day()?;
    let as_of = AsOf {
        profile: Profile::One,
        today,
    };
    let rows = day_rows(alloc, sources.as_slice(), &as_of, today)?;
    Ok(is_scheduled(rows.as_slice()))
}

/// The clock sums of headings, each with those below it.
pub fn sums_of_clocks(alloc: Global) -> Result<bool, Fault> {
    let file_set = two_headings(alloc)?;
    let inherits = file_set.inherits()?;
    all_are_summed(alloc, &inherits)
}

// The same of each file.
fn all_are_summed(alloc: Global, inherits: &Inherits<'_>) -> Result<bool, Fault>
    requires read { AreRead inherits.now }
{
    for file in 0..inherits.count() {
        if !are_summed(alloc, inherits.get(file))? {
            return Ok(false);
        }
    }
    Ok(true)
}

// Whether the headings of a file have these sums on the day.
fn are_summed(alloc: Global, inherit: &Inherit<'_>) -> Result<bool, Fault>
    requires text { AreOfText inherit.now.entries }
{
    let day = this_day()?;
    let period = Period {
        first: day,
        last: day,
    };
    let counted = [true; 2];
    let outline = inherit.outline();
    if outline.count() != counted.len() {
        return Ok(false);
    }
    let sums = clock_sums(alloc, outline, period, &counted)?;
    Ok(sums.as_slice() == [120, 30].as_slice())
}

// The index that finds a stamp under 7 on a day, and no other.
fn finds_it(index: &DayIndex, day: Day) -> Result<bool, Fault> {
    let ids = index.candidates(&mut Meter::new(), day, day, day)?;
    let touching = index.ids_touching(&mut Meter::new(), day, day)?;
    Ok(ids.as_slice() == [7].as_slice() && touching.as_slice() == [7].as_slice())
}

// A stamp put into an index and found by its day, there and in a share. Where it is refused the index has none.
fn files_it(alloc: Global, stamp: &Stamp) -> Result<bool, Fault> {
    let day = this_day()?;
    let mut index = DayIndex::new(alloc);
    if index.put(stamp, Profile::One, 7).is_err() {
        return refused_if(!index.contains(7));
    }
    let shared = index.share()?;
    index.take(7);
    Ok(!index.contains(7) && finds_it(&shared, day)?)
}

/// A stamp filed by its day.
pub fn indexes_a_stamp(alloc: Global) -> Result<bool, Fault> {
    match read_stamp(b"<2024-02-28 Wed 09:00>", 0) {
        Some((stamp, _)) => files_it(alloc, &stamp),
        None => Ok(false),
    }
}

/// What a clock table is asked for, with an expression.
pub fn reads_a_table(alloc: Global) -> Result<bool, Fault> {
    let day = this_day()?;
    let table = TableSpec::read(alloc, "block=today maxlevel=3 match=work", day)?;
    Ok(table.most() == 3 && table.period().first == day)
}
