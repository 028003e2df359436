//! Days of the calendar.
ghost use Rattle.std.specs.Prelude.{◌≡◌, ◌↔◌, ◌+◌, ◌%◌, ◌≤◌, ℕ, pos, ◌+ℤ◌, ◌≤ℤ◌, IfOk, IfErr, IsSome, IfSome, is_some};
ghost use Rattle.std.specs.Prelude.{◌≢◌, Some, None};
ghost use Rattle.jiff.specs.Words.{epoch_day, monday_zero, date_add};
ghost use Rattle.org_cal.specs.Added.{IsAdded, HasDayAfter};
ghost use Rattle.org_cal.specs.Days.{IsDay, IsYearMonthDay, day_number, IsDayOf};
ghost use Rattle.org_cal.specs.Faults.{date_fault};
ghost use Rattle.org_cal.specs.Parts.{month_day_of, month_of, weekday_of, year_of};
ghost use Rattle.org_cal.specs.Texts.{date_of, day_of, is_year_month_day};
ghost use Rattle.org_cal.specs.Weeks.{iso_week, iso_year, monday_of};
ghost use Rattle.org_cal.specs.declared.day.TheConstants.{LAST_DAY, UNIX_EPOCH};
ghost use Rattle.org_cal.specs.declared.unit.Unit.TheVariants.{Hour, Day as DayUnit, Week, Month, Year};

use crate::digits::{four_digits, two_digits};
use crate::unit::Unit;
use jiff::civil::{Date, Weekday};
use jiff::{Span, ToSpan};
use jiff_core::civil;
use org_base::{Code, Fault};
use std::marker::Model;

/// The number of the last day, 9999-12-31.
pub const LAST_DAY: u32 = 3_652_059;

/// The last month, December 9999, counted from January of the year 0.
pub const LAST_MONTH: u32 = 119_999;

// The number of 1970-01-01, from which `jiff` counts days.
const UNIX_EPOCH: u32 = 719_163;

/// A day of the Gregorian calendar, 0001-01-01 to 9999-12-31: contracts see its number, 1 for the first and `LAST_DAY`
/// for the last.
#[derive(Clone, Copy, Debug, PartialEq, Eq, PartialOrd, Ord, Hash)]
pub struct Day {
    number: u32,
}

impl Model for Day {
    ghost use Rattle.std.specs.Prelude.{ℕ};
    ghost use Rattle.org_cal.specs.Days.{IsDay};

    ghost Value = { ℕ };

    ghost view = { λ a. a.number };

    ghost invariant = { λ a. IsDay a.number };

    ghost inverse = { λ n. record { number = n } };
}

impl Day {
    /// The day with these parts. `Date` where the calendar has no such day of the years 1 to 9999.
    pub fn of(year: u16, month: u8, day: u8) -> Result<Day, Fault>
        ensures value { IfOk result (IsDayOf year month day) }
        ensures date { IfErr result (λ fault. (fault ≡ date_fault) × (IsYearMonthDay year month day → ⊥)) }
    {
        if year < 1 || year > 9999 || month > 12 || day > 31 {
            return Err(Fault::Plain(Code::Date));
        }
        let Ok(date) = Date::new(year as i16, month as i8, day as i8) else {
            return Err(Fault::Plain(Code::Date));
        };
        match Day::of_date(date) {
            Some(found) => Ok(found),
            None => Err(Fault::Plain(Code::Date)),
        }
    }

    /// The day that the text spells, `YYYY-MM-DD`. `Date` where it spells none.
    pub fn read(text: &[u8]) -> Result<Day, Fault>
        ensures value { IfOk result (λ day. date_of text.now ≡ Some day) }
        ensures date { IfErr result (λ fault. (fault ≡ date_fault) × (date_of text.now ≡ None)) }
    {
        Day::of_text(text).ok_or(Fault::Plain(Code::Date))
    }

    /// The day that the text spells, `YYYY-MM-DD`, if there is one.
    pub fn of_text(text: &[u8]) -> Option<Day>
        ensures value { result ≡ date_of text.now }
    {
        match text {
            [a, b, c, d, b'-', e, f, b'-', g, h] => {
                let year = four_digits(*a, *b, *c, *d)?;
                Day::of_parts(year, two_digits(*e, *f)?, two_digits(*g, *h)?)
            }
            _ => None,
        }
    }

    /// Whether the text spells a day, `YYYY-MM-DD`. Which one it is isn't worked out.
    pub fn is_text(text: &[u8]) -> bool
        ensures value { result ≡ is_some (date_of text.now) }
    {
        match text {
            [a, b, c, d, b'-', e, f, b'-', g, h] => {
                match (
                    four_digits(*a, *b, *c, *d),
                    two_digits(*e, *f),
                    two_digits(*g, *h),
                ) {
                    (Some(year), Some(month), Some(day)) => is_year_month_day(year, month, day),
                    _ => false,
                }
            }
            _ => false,
        }
    }

    // The day with these parts, if there is one.
    pub(crate) fn of_parts(year: u16, month: u8, day: u8) -> Option<Day>
        ensures value { result ≡ day_of year month day }
    {
        match Day::of(year, month, day) {
            Ok(found) => Some(found),
            Err(_) => None,
        }
    }

    /// The day with that number, 1 for 0001-01-01, if there is one.
    pub fn of_number(number: u64) -> Option<Day>
        ensures some { IfSome result (λ day. (day ≡ number) × IsDay day) }
        ensures only { IsDay number → result ≡ Some number }
    {
        if number < 1 || number > LAST_DAY as u64 {
            return None;
        }
        Some(Day {
            number: number as u32,
        })
    }

    /// The number, 1 for 0001-01-01.
    pub fn number(self) -> u32
        ensures value { result ≡ self }
        ensures first { 1 ≤ result }
        ensures last { result ≤ LAST_DAY }
    {
        let Day { number } = self;
        number
    }

    /// Year (1 to 9999), month (1 to 12) and day of the month (from 1).
    pub fn parts(self) -> (u16, u8, u8)
        ensures value { result ≡ (year_of self, month_of self, month_day_of self) }
        ensures real { IsYearMonthDay result.0 result.1 result.2 }
        ensures number { self ≡ day_number result.0 result.1 result.2 }
        ensures only { (y m d : ℕ) → IsYearMonthDay y m d → self ≡ day_number y m d → result ≡ (y, m, d) }
    {
        let date = self.to_plain();
        (date.year.unsigned_abs(), date.month, date.day)
    }

    /// The day of the week: 0001-01-01 is a Monday.
    pub fn weekday(self) -> Weekday
        ensures value { monday_zero result ≡ weekday_of self }
    {
        self.to_plain().weekday()
    }

    /// The year and the week that the day lies in (ISO 8601): 1 to 9999, and 1 to 53.
    pub fn iso_week(self) -> (u16, u8)
        ensures value { result ≡ (iso_year self, iso_week self) }
        ensures range { (1 ≤ result.1) × (result.1 ≤ 53) }
    {
        let found = civil::ISOWeekDate::from_date(self.to_plain());
        (found.year.unsigned_abs(), found.week)
    }

    /// The Monday of the day's week.
    pub fn monday(self) -> Day
        ensures value { result ≡ monday_of self }
    {
        Day {
            number: self.number - (self.number + 6) % 7,
        }
    }

    /// The day that many units later, or earlier for a negative number: a day that its month lacks becomes the last
    /// of the month. `None` where that leaves the years 1 to 9999. Hours are no unit of days.
    pub fn add_units(self, n: i64, unit: Unit) -> Option<Day>
        requires { unit ≢ Hour }
        ensures some { IfSome result (IsAdded self n unit) }
        ensures only { (day : ℕ) → IsAdded self n unit day → result ≡ Some day }
    {
        match unit {
            Unit::Hour => unreachable!(),
            Unit::Day => self.add_days(n),
            Unit::Week => self.add_weeks(n),
            Unit::Month => self.add_months(n),
            Unit::Year => self.add_years(n),
        }
    }

    fn add_days(self, n: i64) -> Option<Day>
        ensures some { IfSome result (IsAdded self n DayUnit) }
        ensures only { (day : ℕ) → IsAdded self n DayUnit day → result ≡ Some day }
    {
        // For the proof alone: the number is a day's.
        let _ = self.number;
        if n < -3_652_058 || n > 3_652_058 {
            return None;
        }
        Day::after(self.to_date(), n.days())
    }

    fn add_weeks(self, n: i64) -> Option<Day>
        ensures some { IfSome result (IsAdded self n Week) }
        ensures only { (day : ℕ) → IsAdded self n Week day → result ≡ Some day }
    {
        // For the proof alone: the number is a day's.
        let _ = self.number;
        if n < -521_722 || n > 521_722 {
            return None;
        }
        Day::after(self.to_date(), n.weeks())
    }

    fn add_months(self, n: i64) -> Option<Day>
        ensures some { IfSome result (IsAdded self n Month) }
        ensures only { (day : ℕ) → IsAdded self n Month day → result ≡ Some day }
    {
        if n < -119_987 || n > 119_987 {
            return None;
        }
        Day::after(self.to_date(), n.months())
    }

    fn add_years(self, n: i64) -> Option<Day>
        ensures some { IfSome result (IsAdded self n Year) }
        ensures only { (day : ℕ) → IsAdded self n Year day → result ≡ Some day }
    {
        if n < -9_998 || n > 9_998 {
            return None;
        }
        Day::after(self.to_date(), n.years())
    }

    // The day a span after a date, from the year 1 on.
    fn after(date: Date, span: Span) -> Option<Day>
        ensures succeeds { IsSome result ↔ HasDayAfter date span }
        ensures value { IfSome result (λ day. pos day ≡ date_add date span +ℤ pos UNIX_EPOCH) }
    {
        match date.checked_add(span) {
            Ok(found) => Day::of_date(found),
            Err(_) => None,
        }
    }

    fn to_date(self) -> Date
        ensures number { epoch_day result +ℤ pos UNIX_EPOCH ≡ pos self }
        ensures year { pos 1 ≤ℤ result.year }
    {
        Date::from_plain(self.to_plain())
    }

    // The date of `jiff`.
    fn to_plain(self) -> civil::Date
        ensures number { epoch_day result +ℤ pos UNIX_EPOCH ≡ pos self }
        ensures year { pos 1 ≤ℤ result.year }
        ensures first { 1 ≤ self }
    {
        civil::Date::from_unix_epoch_day(self.number as i64 - UNIX_EPOCH as i64).unwrap()
    }

    // The day of a date, if it has the year 1 or a later one.
    fn of_date(date: Date) -> Option<Day>
        ensures succeeds { IsSome result ↔ (pos 1 ≤ℤ (epoch_day date +ℤ pos UNIX_EPOCH)) }
        ensures value { IfSome result (λ n. pos n ≡ epoch_day date +ℤ pos UNIX_EPOCH) }
    {
        let number = date.to_plain().to_unix_epoch_day() + UNIX_EPOCH as i32;
        if number < 1 {
            return None;
        }
        Some(Day {
            number: number as u32,
        })
    }
}

// Whether the calendar has this day of the years 1 to 9999.
fn is_year_month_day(year: u16, month: u8, day: u8) -> bool
    ensures value { result ≡ is_year_month_day year month day }
{
    1 <= year
        && year <= 9999
        && 1 <= month
        && month <= 12
        && 1 <= day
        && day <= civil::days_in_month(year as i16, month)
}
