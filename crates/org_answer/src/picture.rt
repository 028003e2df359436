//! Calendars as pictures.
ghost use Rattle.std.specs.Prelude.{◌≡◌, ◌+◌, ◌<◌, ◌≤◌, IfOk};
ghost use Rattle.org_answer.specs.Pictures.{AreWeek, AreWeeks, GivesDay};
ghost use Rattle.org_client.specs.Files.{AreRead};

use crate::calendar::{Calendar, View};
use crate::labels::{SaidTime, Wording, entries_of};
use crate::names::{name_of, number_of, push_heads, push_span};
use crate::view::{Chosen, agenda_over};
use org_agenda::Agenda;
use org_base::Fault;
use org_cal::Day;
use org_client::{KeptHeadings, month_name};
use org_inherit::Inherits;
use org_look::{
    Entry, Grid, GridDay, Narrow, Plan, Sheet, Tone, Week, grid_lines, is_narrow, push_listed_day,
    push_small_week,
};
use std::alloc::{AllocError, Global};

// The most lines of a day of a week, which has no others' number but where bars have no room.
const WEEK_LINES: usize = 60;

/// A picture, and whether there is a row in it.
#[derive(Debug, Drop)]
pub struct Picture {
    pub sheet: Sheet,
    pub has_row: bool,
}

/// The calendar that is asked for, over the stamps that are chosen: a grid, or a list where a grid has no room. A year is its
/// months, one below the other.
pub fn calendar_picture(
    alloc: Global,
    inherits: &Inherits<'_>,
    chosen: &Chosen<'_>,
    calendar: &Calendar,
) -> Result<Picture, Fault>
    requires read { AreRead inherits.now }
{
    let mut picture = Picture {
        sheet: Sheet::new(alloc),
        has_row: false,
    };
    if calendar.view != View::Year {
        push_picture(alloc, &mut picture, inherits, chosen, calendar)?;
        return Ok(picture);
    }
    for month in 1..13 {
        if let Some(calendar) = calendar.of_month(month) {
            push_picture(alloc, &mut picture, inherits, chosen, &calendar)?;
        }
    }
    Ok(picture)
}

// Puts a month or a week below what is drawn.
fn push_picture(
    alloc: Global,
    picture: &mut Picture,
    inherits: &Inherits<'_>,
    chosen: &Chosen<'_>,
    calendar: &Calendar,
) -> Result<(), Fault>
    requires read { AreRead inherits.now }
{
    let above = picture.sheet.text.as_str();
    if !above.is_empty() && !above.ends_with("\n\n") {
        picture.sheet.text.push('\n')?;
    }
    let agenda = agenda_over(alloc, inherits, chosen, calendar.days)?;
    let grid = Grid::within(calendar.canvas.columns, calendar.canvas.signs);
    let drawing = Drawing {
        calendar,
        today: chosen.as_of.today,
        wording: Wording {
            has_keyword: calendar.view == View::Week || grid.is_none(),
            time: said_time(&grid),
            signs: calendar.canvas.signs,
            is_tight: is_tight(&grid),
            most: (calendar.view != View::Week && grid.is_some()).then_some(calendar.lines),
        },
    };
    let titles = KeptHeadings::new(alloc, inherits)?;
    let weeks = all_weeks(alloc, &titles, &agenda, &drawing)?;
    drawing.push(alloc, &mut picture.sheet, weeks.as_slice())?;
    picture.has_row = picture.has_row || weeks.iter().any(has_row);
    Ok(())
}

// What is said of times in a grid: under ten columns a day has no room for the minutes.
fn said_time(grid: &Option<Grid>) -> SaidTime {
    match grid {
        Some(grid) if grid.cell < 10 => SaidTime::Hour,
        _ => SaidTime::Whole,
    }
}

// Whether signs stand in a grid without a space behind them.
fn is_tight(grid: &Option<Grid>) -> bool {
    match grid {
        Some(grid) => is_narrow(grid.cell),
        None => false,
    }
}

// A calendar as it is drawn: on which day, and how rows are said.
#[derive(Clone, Copy)]
struct Drawing<'a> {
    calendar: &'a Calendar,
    today: Day,
    wording: Wording,
}

// A week: its number and its days.
#[derive(Drop)]
struct WeekDays {
    number: String,
    days: Vec<GridDay>,
}

fn has_row(week: &WeekDays) -> bool {
    week.days.iter().any(|day| !day.entries.is_empty())
}

// The whole weeks of an agenda.
#[tactic(auto, using(crate::proofs::PictureLemmas::adds_one))]
fn all_weeks(
    alloc: Global,
    titles: &KeptHeadings<'_, '_>,
    agenda: &Agenda,
    drawing: &Drawing<'_>,
) -> Result<Vec<WeekDays>, Fault>
    ensures days { IfOk result (λ weeks. AreWeeks weeks.items agenda.now) }
{
    let mut weeks = Vec::new(alloc);
    for week in 0..agenda.count() / 7 {
        weeks.push(week_of(alloc, titles, agenda, drawing, 7 * week)?)?;
    }
    Ok(weeks)
}

// The week whose first day is so many days after the first of an agenda.
#[tactic(auto, using(crate::proofs::PictureLemmas::adds_one))]
fn week_of(
    alloc: Global,
    titles: &KeptHeadings<'_, '_>,
    agenda: &Agenda,
    drawing: &Drawing<'_>,
    first: u32,
) -> Result<WeekDays, Fault>
    requires within { first + 7 ≤ agenda.now.count }
    ensures days { IfOk result (λ week. AreWeek week.days agenda.now first) }
{
    let (_, week) = agenda.day(first).iso_week();
    let mut days = Vec::new(alloc);
    for place in 0..7 {
        let day = day_of(alloc, titles, agenda, drawing, first + place)?;
        days.push(day)?;
    }
    Ok(WeekDays {
        number: format!(in alloc; "{week:>2}")?,
        days,
    })
}

// The day so many days after the first of an agenda.
fn day_of(
    alloc: Global,
    titles: &KeptHeadings<'_, '_>,
    agenda: &Agenda,
    drawing: &Drawing<'_>,
    ahead: u32,
) -> Result<GridDay, Fault>
    requires within { ahead < agenda.now.count }
    ensures value { GivesDay result agenda.now ahead }
{
    let rows = agenda.rows(alloc, ahead)?;
    let entries = entries_of(alloc, titles, rows.as_slice(), &drawing.wording)?;
    Ok(drawing.day(alloc, agenda.day(ahead), entries)?)
}

impl Drawing<'_> {
    fn day(&self, alloc: Global, day: Day, entries: Vec<Entry>) -> Result<GridDay, AllocError>
        ensures value { IfOk result (λ made. made.entries.items ≡ entries.items) }
    {
        let (_, month, of_month) = day.parts();
        let (_, shown, _) = self.calendar.day.parts();
        let is_today = day == self.today;
        Ok(GridDay {
            number: number_of(alloc, day, is_today)?,
            name: name_of(alloc, day)?,
            of_month,
            is_today,
            is_of_month: self.calendar.view == View::Week || month == shown,
            entries,
        })
    }

    // A grid where it has room, else a list.
    fn push(&self, alloc: Global, out: &mut Sheet, weeks: &[WeekDays]) -> Result<(), AllocError> {
        match Grid::within(self.calendar.canvas.columns, self.calendar.canvas.signs) {
            Some(grid) => self.push_grid(alloc, out, weeks, &grid),
            None => self.push_list(alloc, out, weeks),
        }
    }

    fn push_list(
        &self,
        alloc: Global,
        out: &mut Sheet,
        weeks: &[WeekDays],
    ) -> Result<(), AllocError> {
        self.push_title(alloc, out, 31)?;
        out.text.push_str("    Mo  Tu  We  Th  Fr  Sa  Su\n")?;
        let look = Narrow {
            columns: usize::from(self.calendar.canvas.columns),
            signs: self.calendar.canvas.signs,
        };
        for week in weeks {
            push_small_week(out, week.number.as_str(), week.days.as_slice(), look.signs)?;
        }
        out.text.push('\n')?;
        for week in weeks {
            for day in &week.days {
                push_listed_day(alloc, out, day, &look)?;
            }
        }
        Ok(())
    }

    fn push_grid(
        &self,
        alloc: Global,
        out: &mut Sheet,
        weeks: &[WeekDays],
        grid: &Grid,
    ) -> Result<(), AllocError> {
        self.push_title(alloc, out, grid.columns())?;
        push_heads(&mut out.text, grid)?;
        let planned = self.plan_weeks(alloc, weeks, grid.cell)?;
        for line in &grid_lines(alloc, planned.as_slice(), grid)? {
            out.push_strip(line)?;
            out.text.push('\n')?;
        }
        Ok(())
    }

    fn plan_weeks(
        &self,
        alloc: Global,
        weeks: &[WeekDays],
        cell: usize,
    ) -> Result<Vec<Week>, AllocError> {
        let plan = match self.calendar.view {
            View::Month | View::Year => Plan {
                lines: self.calendar.lines,
                breaks: None,
                is_short: is_narrow(cell),
            },
            View::Week => Plan {
                lines: WEEK_LINES,
                breaks: Some(if is_narrow(cell) { cell } else { cell - 2 }),
                is_short: is_narrow(cell),
            },
        };
        let mut planned = Vec::new(alloc);
        for week in weeks {
            let number = String::from_str(alloc, week.number.as_str())?;
            planned.push(Week::of(alloc, number, week.days.as_slice(), &plan)?)?;
        }
        Ok(planned)
    }

    // Appends the name of the month or the week in the middle of so many columns.
    fn push_title(&self, alloc: Global, out: &mut Sheet, columns: usize) -> Result<(), AllocError> {
        let title = self.title(alloc)?;
        let before = columns.saturating_sub(title.len()) / 2;
        write!(out.text, "{:before$}", "")?;
        out.push(Tone::Strong, title.as_str())?;
        out.text.push('\n')
    }

    fn title(&self, alloc: Global) -> Result<String, AllocError> {
        let mut title = String::new(alloc);
        let day = self.calendar.day;
        match self.calendar.view {
            View::Month | View::Year => {
                let (year, month, _) = day.parts();
                write!(title, "{} {year}", month_name(month))?;
            }
            View::Week => {
                let (_, week) = day.iso_week();
                write!(title, "Week {week}, ")?;
                push_span(&mut title, &self.calendar.days.period())?;
            }
        }
        Ok(title)
    }
}
