//! A chart of clocks: a bar for each day, its parts from below in the order of files, in a unit of minutes.
ghost use Rattle.org_page.specs.Drafts.{KeepsTitles};

use crate::chart::{Block, Chart, ChartDay, ChartFile, ChartWeek, blocks_of, most_of_day, sum_of};
use crate::draft::Lent::{Duration, Number, Open, Tag, Text};
use crate::draft::{Draft, Given, Value, with, with_number, with_word};
use crate::row::class_of;
use std::alloc::AllocError;

// The columns of a day, those before the first one, the lines above the bars, and those of the longest bar.
const STEP: u64 = 13;

const LEFT: u64 = 30;

const TOP: u64 = 8;

const HEIGHT: u64 = 170;

// How a chart is drawn: how many days it has, how many hours its scale has, and after how many there is a line.
#[derive(Clone, Copy)]
struct Scale {
    days: u64,
    hours: u64,
    step: u64,
}

impl Scale {
    // The scale of a chart whose longest day has so many minutes.
    fn of(weeks: usize, most: u64) -> Scale {
        let hours = (most / 60).saturating_add(1);
        let mut step: u64 = 2;
        for _doubling in 0..62 {
            if step.saturating_mul(MOST_LINES) < hours {
                step = step.saturating_mul(2);
            }
        }
        Scale {
            days: (weeks as u64).saturating_mul(7),
            hours: hours.div_ceil(step.max(1)).saturating_mul(step),
            step,
        }
    }

    fn width(&self) -> u64 {
        self.days.saturating_mul(STEP)
    }

    fn minutes(&self) -> u64 {
        self.hours.saturating_mul(60)
    }
}

// The most lines of a scale above its lowest one.
const MOST_LINES: u64 = 8;

/// Puts a chart as an image with a text.
pub(crate) fn put_plot(draft: &mut Draft, chart: &Chart) -> Result<(), AllocError>
    ensures titles { KeepsTitles result draft.old draft.new }
{
    let scale = Scale::of(chart.weeks.len(), most_of_day(chart.weeks.as_slice()));
    put_plot_begin(draft, chart.span.as_str(), &scale)?;
    put_lines(draft, &scale)?;
    put_labels(draft, chart.weeks.as_slice())?;
    put_bars_begin(draft, &scale)?;
    put_weeks(draft, chart, &scale)?;
    draft.put(&[Tag("/svg"), Tag("/svg")])
}

fn put_plot_begin(draft: &mut Draft, span: &str, scale: &Scale) -> Result<(), AllocError>
    ensures titles { KeepsTitles result draft.old draft.new }
{
    let width = scale.width().saturating_add(LEFT + 4);
    let height = TOP + HEIGHT + 22;
    let said = format!(in draft.alloc();
        "Hours by day, stacked by file, {span}. The table below has the numbers."
    )?;
    let givens = [
        view_box(width, height),
        with("role", "img"),
        with("aria-label", said.as_str()),
    ];
    draft.put(&[Open("svg", &givens)])
}

// The area that an image shows, by its width and its height.
fn view_box<'a>(width: u64, height: u64) -> Given<'a> {
    Given {
        name: "viewBox",
        value: Value::Area(width, height),
    }
}

fn put_lines(draft: &mut Draft, scale: &Scale) -> Result<(), AllocError>
    ensures titles { KeepsTitles result draft.old draft.new }
{
    for line in 0..=MOST_LINES {
        put_line(draft, scale, line.saturating_mul(scale.step))?;
    }
    Ok(())
}

// Puts the line of an hour of the scale with its number, if it is on it.
fn put_line(draft: &mut Draft, scale: &Scale, hour: u64) -> Result<(), AllocError>
    ensures titles { KeepsTitles result draft.old draft.new }
{
    if hour > scale.hours || scale.hours == 0 {
        return Ok(());
    }
    let up = (u128::from(hour) * u128::from(HEIGHT) / u128::from(scale.hours)) as u64;
    let y = (TOP + HEIGHT).saturating_sub(up);
    put_rule(
        draft,
        "axis",
        Rule {
            x1: LEFT,
            x2: scale.width().saturating_add(LEFT),
            y1: y,
            y2: y,
        },
    )?;
    put_text_begin(draft, LEFT - 6, y.saturating_add(4), "end")?;
    draft.put(&[Number(hour), Text(" h"), Tag("/text")])
}

// A straight line.
#[derive(Clone, Copy)]
struct Rule {
    x1: u64,
    x2: u64,
    y1: u64,
    y2: u64,
}

fn put_rule(draft: &mut Draft, class: &'static str, rule: Rule) -> Result<(), AllocError>
    ensures titles { KeepsTitles result draft.old draft.new }
{
    let givens = [
        with_word("class", class),
        with_number("x1", rule.x1),
        with_number("x2", rule.x2),
        with_number("y1", rule.y1),
        with_number("y2", rule.y2),
    ];
    draft.put(&[Open("line", &givens), Tag("/line")])
}

fn put_text_begin(draft: &mut Draft, x: u64, y: u64, anchor: &'static str) -> Result<(), AllocError>
    ensures titles { KeepsTitles result draft.old draft.new }
{
    let givens = [
        with_number("x", x),
        with_number("y", y),
        with_word("text-anchor", anchor),
    ];
    draft.put(&[Open("text", &givens)])
}

fn put_labels(draft: &mut Draft, weeks: &[ChartWeek]) -> Result<(), AllocError>
    ensures titles { KeepsTitles result draft.old draft.new }
{
    let mut x: u64 = LEFT;
    for week in weeks {
        put_label(draft, week.label.as_str(), x)?;
        x = x.saturating_add(7 * STEP);
    }
    Ok(())
}

fn put_label(draft: &mut Draft, label: &str, x: u64) -> Result<(), AllocError>
    ensures titles { KeepsTitles result draft.old draft.new }
{
    put_rule(
        draft,
        "week",
        Rule {
            x1: x,
            x2: x,
            y1: TOP,
            y2: TOP + HEIGHT + 16,
        },
    )?;
    put_text_begin(draft, x.saturating_add(4), TOP + HEIGHT + 14, "start")?;
    draft.put(&[Text(label), Tag("/text")])
}

// Begins the bars, whose unit is a minute.
fn put_bars_begin(draft: &mut Draft, scale: &Scale) -> Result<(), AllocError>
    ensures titles { KeepsTitles result draft.old draft.new }
{
    let givens = [
        with_number("x", LEFT),
        with_number("y", TOP),
        with_number("width", scale.width()),
        with_number("height", HEIGHT),
        view_box(scale.width(), scale.minutes()),
        with("preserveAspectRatio", "none"),
    ];
    draft.put(&[Open("svg", &givens)])
}

fn put_weeks(draft: &mut Draft, chart: &Chart, scale: &Scale) -> Result<(), AllocError>
    ensures titles { KeepsTitles result draft.old draft.new }
{
    let mut x: u64 = 1;
    for week in &chart.weeks {
        put_week(draft, week, chart.files.as_slice(), scale, x)?;
        x = x.saturating_add(7 * STEP);
    }
    Ok(())
}

fn put_week(
    draft: &mut Draft,
    week: &ChartWeek,
    files: &[ChartFile],
    scale: &Scale,
    first: u64,
) -> Result<(), AllocError>
    ensures titles { KeepsTitles result draft.old draft.new }
{
    let mut x = first;
    for day in &week.days {
        put_day(draft, day, files, scale, x)?;
        x = x.saturating_add(STEP);
    }
    Ok(())
}

fn put_day(
    draft: &mut Draft,
    day: &ChartDay,
    files: &[ChartFile],
    scale: &Scale,
    x: u64,
) -> Result<(), AllocError>
    ensures titles { KeepsTitles result draft.old draft.new }
{
    if sum_of(day.minutes.as_slice()) == 0 {
        return Ok(());
    }
    let blocks = blocks_of(draft.alloc(), day.minutes.as_slice())?;
    let spot = Spot {
        x,
        top: scale.minutes(),
        day: day.name.as_str(),
    };
    put_blocks(draft, blocks.as_slice(), files, &spot)
}

// Where the parts of a bar stand: its left edge, the minute of its lowest line, and the name of its day.
#[derive(Clone, Copy)]
struct Spot<'a> {
    x: u64,
    top: u64,
    day: &'a str,
}

fn put_blocks(
    draft: &mut Draft,
    blocks: &[Block],
    files: &[ChartFile],
    spot: &Spot<'_>,
) -> Result<(), AllocError>
    ensures titles { KeepsTitles result draft.old draft.new }
{
    for (place, block) in blocks.iter().enumerate() {
        if let Some(file) = files.get(place) {
            if block.minutes > 0 {
                put_block(draft, block, file, spot)?;
            }
        }
    }
    Ok(())
}

fn put_block(
    draft: &mut Draft,
    block: &Block,
    file: &ChartFile,
    spot: &Spot<'_>,
) -> Result<(), AllocError>
    ensures titles { KeepsTitles result draft.old draft.new }
{
    put_rect(draft, block, file.color, spot)?;
    put_block_day(draft, spot.day)?;
    draft.put(&[
        Text(file.name.as_str()),
        Text(" "),
        Duration(block.minutes),
        Tag("/title"),
        Tag("/rect"),
    ])
}

// Begins the title of a part of a bar with the name of its day.
fn put_block_day(draft: &mut Draft, day: &str) -> Result<(), AllocError>
    ensures titles { KeepsTitles result draft.old draft.new }
{
    draft.put(&[Tag("title"), Text(day), Text(": ")])
}

fn put_rect(
    draft: &mut Draft,
    block: &Block,
    color: usize,
    spot: &Spot<'_>,
) -> Result<(), AllocError>
    ensures titles { KeepsTitles result draft.old draft.new }
{
    let above = spot.top.saturating_sub(block.below);
    let givens = [
        with_word("class", class_of(&FILLS, color)),
        with_number("x", spot.x),
        with_number("y", above.saturating_sub(block.minutes)),
        with_number("width", 10),
        with_number("height", block.minutes),
    ];
    draft.put(&[Open("rect", &givens)])
}

// The classes of the files' colors as fillings.
const FILLS: [&str; 6] = ["f0", "f1", "f2", "f3", "f4", "f5"];
