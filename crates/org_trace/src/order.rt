//! Rows by time.
ghost use Rattle.std.specs.Prelude.{◌≡◌, IfOk};
ghost use Rattle.org_trace.specs.Order.{IsByTime, time_of};

use crate::row::LogRow;
use org_cal::MINUTES_PER_DAY;
use std::alloc::AllocError;

/// Rows by day and time, those of one time in their order; what has no time comes last of its day, as Org's agenda has it.
pub fn by_time(rows: Vec<LogRow>) -> Result<Vec<LogRow>, AllocError>
    ensures order { IfOk result (λ sorted. IsByTime rows.items sorted.items) }
{
    let mut sorted = rows;
    sorted.sort_by_key(|row| time_of(row))?;
    Ok(sorted)
}

// A number that rises by days and times. A day without a time has the one behind its last minute.
fn time_of(row: &LogRow) -> u64
    ensures value { result ≡ time_of row.now }
{
    let minutes = match row.entry.time {
        Some(time) => u64::from(time.minutes()),
        None => MINUTES_PER_DAY,
    };
    u64::from(row.entry.day.number()) * (MINUTES_PER_DAY + 1) + minutes
}
