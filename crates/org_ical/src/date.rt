//! Days, and times of days.
ghost use Rattle.std.specs.Prelude.{◌≡◌, [], ◌∷◌};
ghost use Rattle.org_ical.specs.Dates.{date_text, digit, four, moment_text, on_date, two};
ghost use Rattle.org_ical.specs.Results.{Adds};

use std::alloc::AllocError;

/// A day of the calendar: its year, its month and its number in it.
#[derive(Clone, Copy, Debug, PartialEq, Eq)]
pub struct Date {
    pub year: u16,
    pub month: u8,
    pub day: u8,
}

/// A time of a day, in whatever zone its reader is.
#[derive(Clone, Copy, Debug, PartialEq, Eq)]
pub struct Time {
    pub hour: u8,
    pub minute: u8,
}

/// When something is.
#[derive(Clone, Copy, Debug, PartialEq, Eq)]
pub enum When {
    /// All of a day.
    Day(Date),
    /// All of the days from the first date on, up to the second one, which is the first day behind them.
    Days(Date, Date),
    /// From a time of a day on.
    At(Date, Time),
    /// From a time of a day to a later one of the same or a later day.
    Between(Date, Time, Date, Time),
}

impl When {
    // The same, where it begins on another day. Its end stays as it is, since only its beginning is asked.
    pub(crate) fn on(self, date: Date) -> When
        ensures value { result ≡ on_date date self }
    {
        match self {
            When::Day(_) | When::Days(..) => When::Day(date),
            When::At(_, time) | When::Between(_, time, ..) => When::At(date, time),
        }
    }
}

/// Appends a day as `YYYYMMDD`.
pub fn push_date(out: &mut Vec<u8>, date: Date) -> Result<(), AllocError>
    ensures { Adds result out.old out.new (date_text date) }
{
    push_four(out, date.year)?;
    push_two(out, u16::from(date.month))?;
    push_two(out, u16::from(date.day))
}

/// Appends a time of a day as `YYYYMMDDTHHMM00`.
pub(crate) fn push_moment(out: &mut Vec<u8>, date: Date, time: Time) -> Result<(), AllocError>
    ensures { Adds result out.old out.new (moment_text date time) }
{
    push_date(out, date)?;
    out.push(b'T')?;
    push_two(out, u16::from(time.hour))?;
    push_two(out, u16::from(time.minute))?;
    out.extend_from_slice(b"00")?;
    Ok(())
}

fn push_four(out: &mut Vec<u8>, number: u16) -> Result<(), AllocError>
    ensures { Adds result out.old out.new (four number) }
{
    push_two(out, number / 100)?;
    push_two(out, number)
}

fn push_two(out: &mut Vec<u8>, number: u16) -> Result<(), AllocError>
    ensures { Adds result out.old out.new (two number) }
{
    out.push(digit(number / 10))?;
    out.push(digit(number))?;
    Ok(())
}

/// The last digit of a number.
pub(crate) fn digit(number: u16) -> u8
    ensures { result ≡ digit number }
{
    b'0' + (number % 10) as u8
}
