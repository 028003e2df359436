//! Stamps as text.
ghost use Rattle.std.specs.Prelude.{◌≡◌, ◌++◌, ◌∷◌, [], IfOk, IsOkUnless, Some, None, string_bytes};
ghost use Rattle.org_base.specs.Codes.{memory_fault};
ghost use Rattle.org_base.specs.Results.{GivesText, Writes};
ghost use Rattle.org_stamp.specs.Print.{amount_text, day_text, delay_text, first_text, last_text, letter, repeater_text, stamp_text, tail_text, times_text};
ghost use Rattle.org_stamp.specs.Read.{IsReadAgain};
ghost use Rattle.org_stamp.specs.Stamp.{close_of, open_of};

use crate::mark::{Delay, Repeater, RepeaterKind};
use crate::stamp::Stamp;
use org_base::Fault;
use org_cal::{Day, TimeOfDay, Unit, day_name, push_date, push_time};
use std::alloc::{AllocError, Global};

fn letter(unit: Unit) -> char
    ensures value { result ≡ letter unit }
{
    match unit {
        Unit::Hour => 'h',
        Unit::Day => 'd',
        Unit::Week => 'w',
        Unit::Month => 'm',
        Unit::Year => 'y',
    }
}

fn push_amount(out: &mut String, n: u16, unit: Unit) -> Result<(), AllocError>
    ensures ok { Writes result out.old out.new (amount_text (n, unit)) }
{
    let letter = letter(unit);
    write!(out, "{n}{letter}")?;
    Ok(())
}

fn push_times(
    out: &mut String,
    time: Option<TimeOfDay>,
    end_time: Option<TimeOfDay>,
) -> Result<(), AllocError>
    ensures ok { Writes result out.old out.new (times_text time end_time) }
{
    let Some(start) = time else {
        return Ok(());
    };
    out.push_str(" ")?;
    push_time(out, start)?;
    if let Some(end) = end_time {
        out.push_str("-")?;
        push_time(out, end)?;
    }
    Ok(())
}

fn push_repeater(out: &mut String, repeater: Option<Repeater>) -> Result<(), AllocError>
    ensures ok { Writes result out.old out.new (repeater_text repeater) }
{
    let Some(found) = repeater else {
        return Ok(());
    };
    out.push_str(match found.kind {
        RepeaterKind::Plain => " +",
        RepeaterKind::Future => " ++",
        RepeaterKind::Today => " .+",
    })?;
    push_amount(out, found.n, found.unit)?;
    if let Some((n, unit)) = found.limit {
        out.push_str("/")?;
        push_amount(out, n, unit)?;
    }
    Ok(())
}

fn push_delay(out: &mut String, delay: Option<Delay>) -> Result<(), AllocError>
    ensures ok { Writes result out.old out.new (delay_text delay) }
{
    let Some(found) = delay else {
        return Ok(());
    };
    out.push_str(if found.first_only { " --" } else { " -" })?;
    push_amount(out, found.n, found.unit)
}

fn push_tail(out: &mut String, stamp: &Stamp) -> Result<(), AllocError>
    ensures ok { Writes result out.old out.new (tail_text stamp.now) }
{
    push_times(out, stamp.time, stamp.end_time)?;
    push_repeater(out, stamp.repeater)?;
    push_delay(out, stamp.delay)
}

fn push_open(out: &mut String, active: bool) -> Result<(), AllocError>
    ensures ok { Writes result out.old out.new (open_of active ∷ []) }
{
    out.push_str(if active { "<" } else { "[" })?;
    Ok(())
}

// The date and the name of the day.
fn push_day(out: &mut String, day: Day) -> Result<(), AllocError>
    ensures ok { Writes result out.old out.new (day_text day) }
{
    push_date(out, day)?;
    out.push_str(" ")?;
    out.push_str(day_name(day))?;
    Ok(())
}

// The opening bracket, the date and the name of the day.
fn push_start(out: &mut String, active: bool, day: Day) -> Result<(), AllocError>
    ensures ok { Writes result out.old out.new (open_of active ∷ day_text day) }
{
    push_open(out, active)?;
    push_day(out, day)?;
    Ok(())
}

fn push_end(out: &mut String, active: bool) -> Result<(), AllocError>
    ensures ok { Writes result out.old out.new (close_of active ∷ []) }
{
    out.push_str(if active { ">" } else { "]" })?;
    Ok(())
}

fn push_first(out: &mut String, stamp: &Stamp) -> Result<(), AllocError>
    ensures ok { Writes result out.old out.new (first_text stamp.now) }
{
    push_start(out, stamp.active, stamp.day)?;
    push_tail(out, stamp)?;
    push_end(out, stamp.active)
}

// The second stamp of a range, if there is one.
fn push_last(
    out: &mut String,
    active: bool,
    last: Option<(Day, Option<TimeOfDay>)>,
) -> Result<(), AllocError>
    ensures ok { Writes result out.old out.new (last_text active last) }
{
    let Some((day, time)) = last else {
        return Ok(());
    };
    out.push_str("--")?;
    push_start(out, active, day)?;
    push_times(out, time, None)?;
    push_end(out, active)
}

/// The printed form of the stamp: date, English name of the day, `HH:MM` or `HH:MM-HH:MM`, repeater and delay, with
/// one space between them; a range as two such stamps with two dashes between them (profile). What the grammar gives
/// is read again as it was. `Memory` where memory is refused.
pub fn print_stamp(alloc: Global, stamp: &Stamp) -> Result<String, Fault>
    ensures value { GivesText result (stamp_text stamp.now) }
    ensures again { IfOk result (λ text. IsReadAgain stamp.now (string_bytes text)) }
    ensures memory { IsOkUnless result memory_fault }
{
    let mut out = String::new(alloc);
    push_first(&mut out, stamp)?;
    push_last(&mut out, stamp.active, stamp.last)?;
    Ok(out)
}
