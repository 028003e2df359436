//! Days and times as text.
ghost use Rattle.std.specs.Prelude.{◌≡◌, ◌+◌, ◌<◌, ◌≤◌, [], ◌∷◌, ◌++◌, OnErr, string_bytes, string_capacity, string_len};
ghost use Rattle.org_base.specs.Results.{Writes};
ghost use Rattle.org_cal.specs.Parts.{weekday_of};
ghost use Rattle.org_cal.specs.Texts.{date_text, day_name, time_text, two};

use crate::day::Day;
use crate::time_of_day::TimeOfDay;
use std::alloc::AllocError;

/// Appends a number below 100 in two digits. Out of memory leaves `out` as it was.
pub fn push_two(out: &mut String, number: u8) -> Result<(), AllocError>
    requires below { number < 100 }
    ensures ok { Writes result out.old out.new (two number) }
    ensures err { OnErr result (string_bytes out.new ≡ string_bytes out.old) }
{
    out.reserve(2)?;
    put_two(out, number);
    Ok(())
}

/// Appends `YYYY-MM-DD`. Out of memory leaves `out` as it was.
pub fn push_date(out: &mut String, day: Day) -> Result<(), AllocError>
    ensures ok { Writes result out.old out.new (date_text day) }
    ensures err { OnErr result (string_bytes out.new ≡ string_bytes out.old) }
{
    let (year, month, date) = day.parts();
    out.reserve(10)?;
    put_two(out, (year / 100) as u8);
    put_two(out, (year % 100) as u8);
    put_byte(out, b'-');
    put_two(out, month);
    put_byte(out, b'-');
    put_two(out, date);
    Ok(())
}

/// Appends `HH:MM`. Out of memory leaves `out` as it was.
pub fn push_time(out: &mut String, time: TimeOfDay) -> Result<(), AllocError>
    ensures ok { Writes result out.old out.new (time_text time) }
    ensures err { OnErr result (string_bytes out.new ≡ string_bytes out.old) }
{
    let minutes = time.minutes();
    out.reserve(5)?;
    put_two(out, (minutes / 60) as u8);
    put_byte(out, b':');
    put_two(out, (minutes % 60) as u8);
    Ok(())
}

// Appends two digits, for which there is room.
fn put_two(out: &mut String, number: u8)
    requires below { number < 100 }
    requires has_room { string_len out.old + 2 ≤ string_capacity out.old }
    ensures value { string_bytes out.new ≡ string_bytes out.old ++ two number }
    ensures len { string_len out.new ≡ string_len out.old + 2 }
    ensures has_room { string_capacity out.old ≤ string_capacity out.new }
{
    put_byte(out, b'0' + number / 10);
    put_byte(out, b'0' + number % 10);
}

// Appends an ASCII character, for which there is room.
fn put_byte(out: &mut String, byte: u8)
    requires ascii { byte < 128 }
    requires has_room { string_len out.old < string_capacity out.old }
    ensures value { string_bytes out.new ≡ string_bytes out.old ++ byte ∷ [] }
    ensures len { string_len out.new ≡ string_len out.old + 1 }
    ensures has_room { string_capacity out.old ≤ string_capacity out.new }
{
    out.push(char::from(byte)).unwrap();
}

/// The day's English name, `Mon` to `Sun`.
pub fn day_name(day: Day) -> &'static str
    ensures value { result.now ≡ day_name (weekday_of day) }
{
    match (day.number() + 6) % 7 {
        0 => "Mon",
        1 => "Tue",
        2 => "Wed",
        3 => "Thu",
        4 => "Fri",
        5 => "Sat",
        _ => "Sun",
    }
}
