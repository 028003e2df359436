//! A day by its half hours.
ghost use Rattle.org_client.specs.Files.{AreRead};

use crate::calendar::Canvas;
use crate::labels::{SaidTime, Wording, label_of, push_shown, tone_of};
use crate::picture::Picture;
use crate::view::{Chosen, Days, agenda_over};
use org_agenda::{Row, RowKind};
use org_base::Fault;
use org_cal::{Day, push_time};
use org_client::{KeptHeadings, full_day_name, month_name};
use org_inherit::{Heading, Inherits};
use org_look::{DayLook, Sheet, Timed, Tone, cut, half_hours, push_hours};
use std::alloc::{AllocError, Global};

// The most columns of a day's picture.
const WIDEST: usize = 100;

/// A day by its half hours, over the stamps that are chosen: rows without a time above, late ones and those due soon below.
pub fn day_picture(
    alloc: Global,
    inherits: &Inherits<'_>,
    chosen: &Chosen<'_>,
    days: Days,
    canvas: &Canvas,
) -> Result<Picture, Fault>
    requires read { AreRead inherits.now }
{
    let agenda = agenda_over(alloc, inherits, chosen, days)?;
    let rows = if agenda.count() > 0 {
        agenda.rows(alloc, 0)?
    } else {
        Vec::new(alloc)
    };
    let minute = chosen.moment.minute.minutes();
    let titles = KeptHeadings::new(alloc, inherits)?;
    let page = Page {
        titles: &titles,
        look: DayLook {
            columns: usize::from(canvas.columns).min(WIDEST),
            signs: canvas.signs,
            now: (days.first == chosen.as_of.today).then_some(minute),
        },
    };
    let mut sheet = Sheet::new(alloc);
    push_title(&mut sheet, days.first)?;
    page.push(alloc, &mut sheet, rows.as_slice())?;
    let has_row = !rows.is_empty();
    Ok(Picture { sheet, has_row })
}

fn push_title(out: &mut Sheet, day: Day) -> Result<(), AllocError> {
    let (year, month, of_month) = day.parts();
    let (_, week) = day.iso_week();
    let name = full_day_name(day);
    let first = out.text.len();
    write!(
        out.text,
        "{name}, {of_month} {} {year}, week {week}",
        month_name(month)
    )?;
    out.stain(first, Tone::Strong)?;
    out.text.push_str("\n\n")
}

// Appends the name of rows that stand below the hours.
fn push_name(out: &mut Sheet, name: &str) -> Result<(), AllocError> {
    out.text.push('\n')?;
    out.push(Tone::Strong, name)?;
    out.text.push('\n')
}

// Where a row of a day stands in the picture.
#[derive(Clone, Copy, PartialEq, Eq)]
enum Part {
    AllDay,
    Hours,
    Late,
    Soon,
}

fn part_of(row: &Row) -> Part {
    match (row.kind, row.start) {
        (RowKind::LateSchedule | RowKind::LateDeadline, _) => Part::Late,
        (RowKind::Warning, _) => Part::Soon,
        (RowKind::InRange, _) | (_, None) => Part::AllDay,
        (_, Some(_)) => Part::Hours,
    }
}

// What a picture of a day is made of.
#[derive(Clone, Copy)]
struct Page<'a, 'b, 'c> {
    titles: &'a KeptHeadings<'b, 'c>,
    look: DayLook,
}

impl Page<'_, '_, '_> {
    fn push(&self, alloc: Global, out: &mut Sheet, rows: &[Row]) -> Result<(), Fault> {
        self.push_all_day(alloc, out, rows)?;
        let timed = self.rows_by_hours(alloc, rows)?;
        let beside = push_hours(alloc, out, timed.as_slice(), &self.look)?;
        self.push_beside(out, timed.as_slice(), beside.as_slice())?;
        self.push_section(alloc, out, rows, Part::Late)?;
        self.push_section(alloc, out, rows, Part::Soon)
    }

    fn push_all_day(&self, alloc: Global, out: &mut Sheet, rows: &[Row]) -> Result<(), Fault> {
        let mut has_any = false;
        for row in rows {
            if part_of(row) == Part::AllDay {
                let mut line = String::new(alloc);
                if row.kind == RowKind::InRange {
                    write!(line, "{}/{} ", row.number, row.of)?;
                }
                line.push_str(self.label(alloc, row)?.as_str())?;
                self.push_cut(out, "  all day  ", line.as_str(), self.tone(row))?;
                has_any = true;
            }
        }
        if has_any {
            out.text.push('\n')?;
        }
        Ok(())
    }

    fn rows_by_hours(&self, alloc: Global, rows: &[Row]) -> Result<Vec<Timed>, Fault> {
        let mut timed = Vec::new(alloc);
        for row in rows {
            if let (Part::Hours, Some(start)) = (part_of(row), row.start) {
                let mut label = String::new(alloc);
                push_time(&mut label, start)?;
                if let Some(end) = row.end {
                    label.push('-')?;
                    push_time(&mut label, end)?;
                }
                label.push(' ')?;
                label.push_str(self.label(alloc, row)?.as_str())?;
                let end = row.end.map(|end| end.minutes());
                timed.push(Timed {
                    span: half_hours(start.minutes(), end),
                    label,
                    tone: self.tone(row),
                })?;
            }
        }
        Ok(timed)
    }

    // Appends the rows that have no lane beside the others.
    fn push_beside(
        &self,
        out: &mut Sheet,
        timed: &[Timed],
        places: &[usize],
    ) -> Result<(), AllocError> {
        if places.is_empty() {
            return Ok(());
        }
        push_name(out, "Beside these")?;
        for place in places {
            if let Some(row) = timed.get(*place) {
                self.push_cut(out, "  ", row.label.as_str(), row.tone)?;
            }
        }
        Ok(())
    }

    fn push_section(
        &self,
        alloc: Global,
        out: &mut Sheet,
        rows: &[Row],
        part: Part,
    ) -> Result<(), Fault> {
        let mut own = Vec::new(alloc);
        for row in rows {
            if part_of(row) == part {
                own.push(*row)?;
            }
        }
        if own.is_empty() {
            return Ok(());
        }
        if part == Part::Soon {
            own.sort_by_key(|row| row.number)?;
        }
        push_name(
            out,
            if part == Part::Late {
                "Late"
            } else {
                "Due soon"
            },
        )?;
        for row in &own {
            self.push_row(alloc, out, row)?;
        }
        Ok(())
    }

    fn push_row(&self, alloc: Global, out: &mut Sheet, row: &Row) -> Result<(), Fault> {
        let number = format!(in alloc; "{} d.", row.number)?;
        let mut line = format!(in alloc; "{:>5}  ", number.as_str())?;
        line.push_str(self.label(alloc, row)?.as_str())?;
        if let Some(heading) = Heading::find(self.titles.inherits(), row.file, row.heading) {
            line.push_str("  ")?;
            push_shown(&mut line, heading.category())?;
        }
        Ok(self.push_cut(out, "  ", line.as_str(), self.tone(row))?)
    }

    // A row without its time.
    fn label(&self, alloc: Global, row: &Row) -> Result<String, Fault> {
        let wording = Wording {
            time: SaidTime::Nothing,
            has_keyword: true,
            signs: self.look.signs,
            is_tight: false,
            most: None,
        };
        label_of(alloc, self.titles, row, &wording)
    }

    fn tone(&self, row: &Row) -> Tone {
        tone_of(self.titles.inherits(), row)
    }

    // Appends the line of a row behind a front.
    fn push_cut(
        &self,
        out: &mut Sheet,
        front: &str,
        text: &str,
        tone: Tone,
    ) -> Result<(), AllocError> {
        let room = self.look.columns.saturating_sub(front.len());
        let text = cut(out.alloc(), text, room, self.look.signs)?;
        out.push(Tone::Plain, front)?;
        out.push(tone, text.as_str())?;
        out.text.push('\n')
    }
}
