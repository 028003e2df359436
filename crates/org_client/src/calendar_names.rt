//! What days and months are called in full.

use org_cal::Day;

const MONTHS: [&str; 12] = [
    "January",
    "February",
    "March",
    "April",
    "May",
    "June",
    "July",
    "August",
    "September",
    "October",
    "November",
    "December",
];

/// The English name of a month, 1 to 12.
pub fn month_name(month: u8) -> &'static str {
    match MONTHS.get(usize::from(month).saturating_sub(1)) {
        Some(name) => name,
        None => "",
    }
}

/// The first three letters of a month's name.
pub fn short_month(month: u8) -> &'static str {
    month_name(month).get(..3).unwrap_or("")
}

/// The whole English name of a day.
pub fn full_day_name(day: Day) -> &'static str {
    match (day.number() + 6) % 7 {
        0 => "Monday",
        1 => "Tuesday",
        2 => "Wednesday",
        3 => "Thursday",
        4 => "Friday",
        5 => "Saturday",
        _ => "Sunday",
    }
}
