//! Laws of the definitions. Each is a function without parameters whose contract is the law.
ghost use Rattle.org_cal.specs.Examples.{ExamplesHold};
ghost use Rattle.org_cal.specs.Laws.{BlocksAreNamed, DatesHaveNumbers, FirstWeekHasFourth, FirstWeekHasThursday, NumbersHaveDates, WeeksGoOn, WeeksHaveMondays, WeeksHaveSevenDays};
ghost use Rattle.org_cal.specs.Limits.{LimitsAreNamed};
ghost use Rattle.org_cal.specs.TypedLaws.{EarlierIsAdded, LaterIsAdded, WeekdaysAreNext};

/// Each day's number is that of its year, month and day of the month.
pub fn numbers_have_dates()
    ensures { NumbersHaveDates }
{}

/// Each date of the years 1 to 9999 has a number, and that number's date is this one.
pub fn dates_have_numbers()
    ensures { DatesHaveNumbers }
{}

/// Two days have the same year and number of the week exactly where the Mondays of their weeks are the same
/// (ISO 8601).
pub fn weeks_have_mondays()
    ensures { WeeksHaveMondays }
{}

/// The week of a Monday begins there and has seven days (ISO 8601).
pub fn weeks_have_seven_days()
    ensures { WeeksHaveSevenDays }
{}

/// 4 January lies in the first week of its year (ISO 8601).
pub fn first_week_has_fourth()
    ensures { FirstWeekHasFourth }
{}

/// The year's first Thursday lies in its first week (ISO 8601).
pub fn first_week_has_thursday()
    ensures { FirstWeekHasThursday }
{}

/// The week after a week is the next of its year, or the first of the next year (ISO 8601).
pub fn weeks_go_on()
    ensures { WeeksGoOn }
{}

/// A text gives days exactly where it names a block of time that has them: those, and no others, lie in the year, the
/// month, the quarter, the week or the day that it names (Org manual 9.6, "The clock table"; ISO 8601).
pub fn blocks_are_named()
    ensures { BlocksAreNamed }
{}

/// The day that a weekday says is the only one of that weekday among today and the six days after it.
pub fn weekdays_are_next()
    ensures { WeekdaysAreNext }
{}

/// So many days, weeks, months or years later is the day that a repeater of so many comes to (Org manual 9.6, "Repeated
/// tasks").
pub fn later_is_added()
    ensures { LaterIsAdded }
{}

/// So many days, weeks, months or years earlier is the day that such a repeater comes to with that number taken away.
pub fn earlier_is_added()
    ensures { EarlierIsAdded }
{}

/// The years are 1 to 9999, of 119,988 months and 3,652,059 days, and a day has 1440 minutes.
pub fn limits_are_named()
    ensures { LimitsAreNamed }
{}

/// The last minute of a day is 23:59; 31 January 2024 and a month is 29 February; a week's piece that begins on a Wednesday
/// ends on the Sunday; `1.2.`, typed on 28 February, is a day of the next year, and `24.12.` one of this year.
pub fn examples_hold()
    ensures { ExamplesHold }
{}
