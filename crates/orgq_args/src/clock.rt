//! The moment at which is asked.

use jiff::civil::DateTime;
use jiff::tz::{SystemTimeZone, TimeZoneDatabase};
use jiff::{Error, Zoned};
use org_cal::{Day, MINUTES_PER_DAY, Moment, TimeOfDay};
use orgq_files::{LeftOut, read_whole};
use orgq_messages::{Problem, Variable, value_of};
use std::alloc::AllocError;
use std::fs;
use std::rt::{Env, Files};
use std::time::Clock;

/// The moment that a text spells whose date is said as people type it on a day: the date, one space and a time.
pub fn typed_moment(text: &str, today: Day) -> Option<Moment> {
    let Some((date, time)) = text.split_once(' ') else {
        return None;
    };
    let day = Day::of_word(date.as_bytes(), today)?;
    let minute = TimeOfDay::read(time.as_bytes())?;
    Some(Moment { day, minute })
}

/// The system's civil time in its zone.
pub fn now<R: AllocGlobal + Files + Env + Clock>(rt: &R) -> Result<Moment, Problem> {
    let zones = named_zone(rt)?;
    let system = SystemTimeZone::read(rt).map_err(unread)?;
    let zone = system.time_zone(&zones).map_err(unread)?;
    let now = Zoned::now(rt, zone).map_err(unread)?;
    match local_moment(&now) {
        Some(moment) => Ok(moment),
        None => Err(Problem::Clock),
    }
}

/// A moment of the system's zone by universal time; as it is where the calendar has no such moment.
pub fn universal<R: AllocGlobal + Files + Env>(rt: &R, moment: Moment) -> Result<Moment, Problem> {
    let zones = named_zone(rt)?;
    let system = SystemTimeZone::read(rt).map_err(unread)?;
    let zone = system.time_zone(&zones).map_err(unread)?;
    let local = civil_of(&moment).map_err(unread)?;
    match local.to_zoned(zone) {
        Ok(there) => match moment_before(&moment, there.offset().seconds()) {
            Some(before) => Ok(before),
            None => Ok(moment),
        },
        Err(Error::OutOfMemory) => Err(Problem::from(AllocError)),
        Err(_) => Ok(moment),
    }
}

// The moment so many seconds before another, as far as they are minutes; none where the calendar lacks it.
fn moment_before(moment: &Moment, seconds: i32) -> Option<Moment> {
    let minute = moment.minute().number();
    let minutes = u64::from(seconds.unsigned_abs() / 60);
    if seconds < 0 {
        moment_of_minute(minute.saturating_add(minutes))
    } else {
        moment_of_minute(minute.checked_sub(minutes)?)
    }
}

// The moment of a minute since 0001-01-01 00:00.
fn moment_of_minute(minute: u64) -> Option<Moment> {
    let day = Day::of_number(minute / MINUTES_PER_DAY + 1)?;
    Some(Moment {
        day,
        minute: TimeOfDay::of_minutes((minute % MINUTES_PER_DAY) as u16),
    })
}

fn civil_of(moment: &Moment) -> Result<DateTime, Error> {
    let (year, month, of_month) = moment.day.parts();
    let minutes = moment.minute.minutes();
    DateTime::new(
        year as i16,
        month as i8,
        of_month as i8,
        (minutes / 60) as i8,
        (minutes % 60) as i8,
        0,
        0,
    )
}

// Why the clock or the time zone can't be read.
fn unread(error: Error) -> Problem {
    match error {
        Error::OutOfMemory => Problem::from(AllocError),
        _ => Problem::Clock,
    }
}

// The zone that `TZ` names, alone: a database of all zones would take longer to read than most files. Where there is no such
// zone, the system's reading of `TZ` stands.
fn named_zone<R: AllocGlobal + Files + Env>(rt: &R) -> Result<TimeZoneDatabase, Problem> {
    let mut zones = TimeZoneDatabase::new(rt.alloc());
    let Some(name) = value_of(rt, Variable::Zone)? else {
        return Ok(zones);
    };
    let name = name.as_str().trim_start_matches(':');
    if name.split('/').any(|part| part == "..") {
        return Err(Problem::Zone);
    }
    if let Some(bytes) = zone_bytes(rt, name)? {
        if let Err(Error::OutOfMemory) = zones.insert(name, bytes.as_slice()) {
            return Err(Problem::from(AllocError));
        }
    }
    Ok(zones)
}

// The bytes of a zone's file in the folder of zones, if there is such a file.
fn zone_bytes<R: AllocGlobal + Files + Env>(
    rt: &R,
    name: &str,
) -> Result<Option<Vec<u8>>, Problem> {
    let path = match value_of(rt, Variable::Zones)? {
        Some(folder) if !folder.as_str().is_empty() => format!(in rt.alloc(); "{folder}/{name}")?,
        _ => format!(in rt.alloc(); "/usr/share/zoneinfo/{name}")?,
    };
    if !fs::metadata(rt, path.as_str()).is_ok_and(|metadata| metadata.is_file()) {
        return Ok(None);
    }
    let Ok(mut file) = fs::open(rt, path.as_str()) else {
        return Ok(None);
    };
    match read_whole(rt.alloc(), &mut file) {
        Ok(bytes) => Ok(Some(bytes)),
        Err(LeftOut::Memory) => Err(Problem::from(AllocError)),
        Err(LeftOut::Because(_)) => Ok(None),
    }
}

fn local_moment(now: &Zoned<'_>) -> Option<Moment> {
    let year = u16::try_from(now.year()).ok()?;
    let month = u8::try_from(now.month()).ok()?;
    let of_month = u8::try_from(now.day()).ok()?;
    let hour = u8::try_from(now.hour()).ok()?;
    let minute = u8::try_from(now.minute()).ok()?;
    Some(Moment {
        day: Day::of(year, month, of_month).ok()?,
        minute: TimeOfDay::of(hour, minute)?,
    })
}
